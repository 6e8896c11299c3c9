// What a home says of its array.
ghost use Rattle.std.specs.Prelude.{◌≡◌, option_map};
ghost use Rattle.history.specs.Metadata.{shape_of, dtype_of, fill_of, IsMetadata};
ghost use Rattle.history.specs.Arrays.{form_of, is_local};
ghost use Rattle.array_homes.specs.Homes.{mount_of};

use cells::Dtype;
use history::Home;

/// Whether the run holds the array, and no store.
pub fn is_local(home: &Home) -> bool
    ensures { result ≡ is_local home.now }
{
    match home {
        Home::Local { .. } => true,
        _ => false,
    }
}

/// The mount of a stored array.
pub fn mount_of(home: &Home) -> Option<&str>
    ensures { option_map (λ mount. mount.now) result ≡ mount_of home.now }
{
    match home {
        Home::Zarr { mount, .. } => Some(mount.items()),
        Home::N5 { mount, .. } => Some(mount.items()),
        Home::Zarr3 { mount, .. } => Some(mount.items()),
        Home::Local { .. } => None,
    }
}

// What the metadata of a stored array says, as it was opened.
pub(crate) fn shape_of(home: &Home) -> &[u64]
    ensures value { result.now ≡ shape_of (form_of home.now) }
    ensures valid { IsMetadata (form_of home.now) }
{
    match home {
        Home::Zarr { meta, .. } => meta.shape.items(),
        Home::N5 { meta, .. } => meta.dimensions.items(),
        Home::Zarr3 { meta, .. } => meta.shape.items(),
        Home::Local { .. } => &[],
    }
}

pub(crate) fn dtype_of(home: &Home) -> Dtype
    ensures { result ≡ dtype_of (form_of home.now) }
{
    match home {
        Home::Zarr { meta, .. } => meta.dtype,
        Home::N5 { meta, .. } => meta.dtype,
        Home::Zarr3 { meta, .. } => meta.dtype,
        Home::Local { .. } => Dtype::U8,
    }
}

pub(crate) fn fill_of(home: &Home) -> u64
    ensures { result ≡ fill_of (form_of home.now) }
{
    match home {
        Home::Zarr { meta, .. } => meta.fill.unwrap_or(0),
        Home::N5 { .. } => 0,
        Home::Zarr3 { meta, .. } => meta.fill,
        Home::Local { .. } => 0,
    }
}
