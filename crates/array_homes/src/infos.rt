// Arrays as they are opened, and as views name them.
ghost use Rattle.std.specs.Prelude.{◌≡◌, IfOk, false};
ghost use Rattle.history.specs.Metadata.{is_local, shape_of, dtype_of, fill_of};
ghost use Rattle.history.specs.References.{IsReference};
ghost use Rattle.history.specs.Arrays.{form_of, chunk_shape};
ghost use Rattle.history.specs.OpenRows.{given_info};
ghost use Rattle.history.specs.Outcomes.{home_of};
ghost use Rattle.array_homes.specs.Homes.{info_at, reference_of};

use crate::forms::copied;
use crate::looks::{dtype_of, fill_of, is_local, shape_of};
use cells::{Dense, Name, Sizes};
use history::{ArrayInfo, ArrayRef, Form, Home, default_chunks};
use std::alloc::{AllocError, Global};

/// The array that is opened at a place with this metadata.
///
/// # Errors
/// An allocation failed.
pub fn new_info(
    alloc: Global,
    number: u64,
    mount: &str,
    path: &str,
    form: Form,
) -> Result<ArrayInfo, AllocError>
    requires { is_local form ≡ false }
    ensures { IfOk result (λ info. info ≡ info_at number mount.now path.now form) }
{
    let home = home_of(alloc, mount, path, form)?;
    info_of(alloc, number, home)
}

// The array that was opened with this home's metadata.
fn info_of(alloc: Global, number: u64, home: Home) -> Result<ArrayInfo, AllocError>
    ensures { IfOk result (λ info. info ≡ record {
      number = number;
      home = home;
      dtype = dtype_of (form_of home);
      shape = shape_of (form_of home);
      fill = fill_of (form_of home);
    }) }
{
    let shape = copied(alloc, shape_of(&home))?;
    let dtype = dtype_of(&home);
    let fill = fill_of(&home);
    Ok(ArrayInfo {
        number,
        home,
        dtype,
        shape,
        fill,
    })
}

// A mount and a path.
#[derive(Drop)]
struct Place {
    mount: Name,
    path: Name,
}

fn named_place(alloc: Global, mount: &str, path: &str) -> Result<Place, AllocError>
    ensures { IfOk result (λ p. p ≡ record { mount = mount.now; path = path.now }) }
{
    let mount = Name::wrap(String::from_str(alloc, mount)?);
    let path = Name::wrap(String::from_str(alloc, path)?);
    Ok(Place { mount, path })
}

fn home_of(alloc: Global, mount: &str, path: &str, form: Form) -> Result<Home, AllocError>
    requires { is_local form ≡ false }
    ensures { IfOk result (λ home. home ≡ home_of mount.now path.now form) }
{
    let place = named_place(alloc, mount, path)?;
    Ok(home_at(place, form))
}

fn home_at(place: Place, form: Form) -> Home
    requires { is_local form ≡ false }
    ensures { result ≡ home_of place.mount place.path form }
{
    let Place { mount, path } = place;
    match form {
        Form::Zarr { meta } => Home::Zarr { mount, path, meta },
        Form::N5 { meta } => Home::N5 { mount, path, meta },
        Form::Zarr3 { meta } => Home::Zarr3 { mount, path, meta },
        Form::Local => unreachable!(),
    }
}

/// An array of the run that begins with these numbers.
///
/// # Errors
/// An allocation failed.
pub fn given_info(alloc: Global, number: u64, start: Dense) -> Result<ArrayInfo, AllocError>
    ensures { IfOk result (λ info. info ≡ given_info number start) }
{
    let shape = copied(alloc, start.shape())?;
    let dtype = start.dtype();
    Ok(ArrayInfo {
        number,
        home: Home::Local { start },
        dtype,
        shape,
        fill: 0,
    })
}

/// How views name an array while it has this shape, in cells.
///
/// # Errors
/// An allocation failed.
pub fn array_ref(alloc: Global, info: &ArrayInfo, shape: &[u64]) -> Result<ArrayRef, AllocError>
    requires { IsReference (reference_of info.now shape.now) }
    ensures { IfOk result (λ r. r ≡ reference_of info.now shape.now) }
{
    let chunk = chunk_shape(alloc, info)?;
    named(alloc, info, shape, chunk)
}

/// The shape of an array's chunks, in cells; an array of the run is one chunk, in which a size of 0 counts as 1.
///
/// # Errors
/// An allocation failed.
pub fn chunk_shape(alloc: Global, info: &ArrayInfo) -> Result<Sizes, AllocError>
    ensures { IfOk result (λ sizes. sizes ≡ chunk_shape info.now) }
{
    match &info.home {
        Home::Zarr { meta, .. } => copied(alloc, meta.chunks.items()),
        Home::N5 { meta, .. } => copied(alloc, meta.block.items()),
        Home::Zarr3 { meta, .. } => copied(alloc, meta.chunks.items()),
        Home::Local { .. } => Ok(Sizes::wrap(default_chunks(alloc, info.shape.items())?)),
    }
}

fn named(
    alloc: Global,
    info: &ArrayInfo,
    shape: &[u64],
    chunk: Sizes,
) -> Result<ArrayRef, AllocError>
    requires valid { IsReference (reference_of info.now shape.now) }
    requires chunk { chunk ≡ chunk_shape info.now }
    ensures { IfOk result (λ r. r ≡ reference_of info.now shape.now) }
{
    let shape = copied(alloc, shape)?;
    Ok(ArrayRef {
        number: info.number,
        dtype: info.dtype,
        shape,
        chunk,
        local: is_local(&info.home),
    })
}
