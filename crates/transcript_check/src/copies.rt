// Copies of events.
ghost use Rattle.std.specs.Prelude.{◌≡◌, IfOk};
ghost use Rattle.transcript_fits.specs.declared.Home.TheVariants.{Zarr as AsZarr, N5 as AsN5, Zarr3 as AsZarr3};

use cells::{Name, copy_name, copy_sizes};
use chunk_forms::{N5Meta, Zarr3Meta, ZarrMeta};
use std::alloc::{AllocError, Global};
use transcript_fits::{ArrayInfo, Event, Home, Kind};

/// The same events again. Commits share their operations with the first ones; an array of the run is copied with the numbers with which
/// it begins.
///
/// # Errors
/// An allocation failed.
pub(crate) fn copy_events(alloc: Global, events: &[Event]) -> Result<Vec<Event>, AllocError>
    ensures { IfOk result (λ copies. copies.items ≡ events.now) }
{
    let mut copies = Vec::with_capacity(alloc, events.len())?;
    for event in events {
        copies.push(copy_event(alloc, event)?)?;
    }
    Ok(copies)
}

fn copy_event(alloc: Global, event: &Event) -> Result<Event, AllocError>
    ensures { IfOk result (λ copy. copy ≡ event.now) }
{
    match copy_kind(alloc, &event.kind) {
        Ok(kind) => Ok(Event {
            owner: event.owner,
            kind,
        }),
        Err(e) => Err(e),
    }
}

fn copy_kind(alloc: Global, kind: &Kind) -> Result<Kind, AllocError>
    ensures { IfOk result (λ copy. copy ≡ kind.now) }
{
    match kind {
        Kind::Opened { array } => match copy_array(alloc, array) {
            Ok(array) => Ok(Kind::Opened { array }),
            Err(e) => Err(e),
        },
        Kind::Done {
            line,
            mode,
            ops,
            key,
        } => match copy_key(alloc, key) {
            Ok(key) => match ops.share() {
                Ok(ops) => Ok(Kind::Done {
                    line: *line,
                    mode: *mode,
                    ops,
                    key,
                }),
                Err(e) => Err(e),
            },
            Err(e) => Err(e),
        },
        Kind::Resized { array, shape } => match copy_sizes(alloc, shape.items()) {
            Ok(shape) => Ok(Kind::Resized {
                array: *array,
                shape,
            }),
            Err(e) => Err(e),
        },
        Kind::Fault { mount } => match copy_name(alloc, mount.items()) {
            Ok(mount) => Ok(Kind::Fault { mount }),
            Err(e) => Err(e),
        },
    }
}

fn copy_key(alloc: Global, key: &Option<Name>) -> Result<Option<Name>, AllocError>
    ensures { IfOk result (λ copy. copy ≡ key.now) }
{
    match key {
        Some(key) => match copy_name(alloc, key.items()) {
            Ok(key) => Ok(Some(key)),
            Err(e) => Err(e),
        },
        None => Ok(None),
    }
}

fn copy_array(alloc: Global, array: &ArrayInfo) -> Result<ArrayInfo, AllocError>
    ensures { IfOk result (λ copy. copy ≡ array.now) }
{
    let shape = copy_sizes(alloc, array.shape.items())?;
    match copy_home(alloc, &array.home) {
        Ok(home) => Ok(ArrayInfo {
            number: array.number,
            home,
            dtype: array.dtype,
            shape,
            fill: array.fill,
        }),
        Err(e) => Err(e),
    }
}

fn copy_home(alloc: Global, home: &Home) -> Result<Home, AllocError>
    ensures { IfOk result (λ copy. copy ≡ home.now) }
{
    match home {
        Home::Zarr { mount, path, meta } => zarr_home(alloc, mount, path, meta),
        Home::N5 { mount, path, meta } => n5_home(alloc, mount, path, meta),
        Home::Zarr3 { mount, path, meta } => zarr3_home(alloc, mount, path, meta),
        Home::Local { start } => match start.copy(alloc) {
            Ok(start) => Ok(Home::Local { start }),
            Err(e) => Err(e),
        },
    }
}

fn zarr_home(alloc: Global, mount: &Name, path: &Name, m: &ZarrMeta) -> Result<Home, AllocError>
    ensures { IfOk result (λ home. home ≡ AsZarr mount.now path.now m.now) }
{
    let mount = copy_name(alloc, mount.items())?;
    let path = copy_name(alloc, path.items())?;
    match copy_zarr(alloc, m) {
        Ok(meta) => Ok(Home::Zarr { mount, path, meta }),
        Err(e) => Err(e),
    }
}

fn copy_zarr(alloc: Global, m: &ZarrMeta) -> Result<ZarrMeta, AllocError>
    ensures { IfOk result (λ copy. copy ≡ m.now) }
{
    let shape = copy_sizes(alloc, m.shape.items())?;
    let chunks = copy_sizes(alloc, m.chunks.items())?;
    Ok(ZarrMeta {
        shape,
        chunks,
        dtype: m.dtype,
        big: m.big,
        fill: m.fill,
        order: m.order,
        slash: m.slash,
    })
}

fn n5_home(alloc: Global, mount: &Name, path: &Name, m: &N5Meta) -> Result<Home, AllocError>
    ensures { IfOk result (λ home. home ≡ AsN5 mount.now path.now m.now) }
{
    let mount = copy_name(alloc, mount.items())?;
    let path = copy_name(alloc, path.items())?;
    match copy_n5(alloc, m) {
        Ok(meta) => Ok(Home::N5 { mount, path, meta }),
        Err(e) => Err(e),
    }
}

fn copy_n5(alloc: Global, m: &N5Meta) -> Result<N5Meta, AllocError>
    ensures { IfOk result (λ copy. copy ≡ m.now) }
{
    let dimensions = copy_sizes(alloc, m.dimensions.items())?;
    let block = copy_sizes(alloc, m.block.items())?;
    Ok(N5Meta {
        dimensions,
        block,
        dtype: m.dtype,
    })
}

fn zarr3_home(alloc: Global, mount: &Name, path: &Name, m: &Zarr3Meta) -> Result<Home, AllocError>
    ensures { IfOk result (λ home. home ≡ AsZarr3 mount.now path.now m.now) }
{
    let mount = copy_name(alloc, mount.items())?;
    let path = copy_name(alloc, path.items())?;
    match copy_zarr3(alloc, m) {
        Ok(meta) => Ok(Home::Zarr3 { mount, path, meta }),
        Err(e) => Err(e),
    }
}

fn copy_zarr3(alloc: Global, m: &Zarr3Meta) -> Result<Zarr3Meta, AllocError>
    ensures { IfOk result (λ copy. copy ≡ m.now) }
{
    let shape = copy_sizes(alloc, m.shape.items())?;
    let chunks = copy_sizes(alloc, m.chunks.items())?;
    Ok(Zarr3Meta {
        shape,
        chunks,
        dtype: m.dtype,
        big: m.big,
        fill: m.fill,
        dot: m.dot,
    })
}
