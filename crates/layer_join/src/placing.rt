// Views at one place each of a new dimension.
ghost use Rattle.std.specs.Prelude.{◌≡◌, ◌<◌, ◌≤◌, ◌+◌, pos, nat_lt, if◌then◌else◌, IfOk, OnOk, length, map, []};
ghost use Rattle.std.specs.List.{All, AllByRecursion, insert};
ghost use Rattle.index_transform.specs.declared.map.OutMap.TheVariants.{Indexed};
ghost use Rattle.stack_driver.specs.Views.{look_of};
ghost use Rattle.layer_join.specs.Placed.{may_place, from_on, with_axis, placed_map, placed_transform, placed_view, placed_from};

use cells::{Index, List, Name, Sizes};
use index_intervals::Interval;
use index_transform::{Domain, OutMap, Transform, copied_map, copied_names};
use stack_driver::{View, set_transform, transform_of};
use std::alloc::{AllocError, Global};

// Views of which each is put at its place of a new dimension.
pub(crate) fn placed_layers(
    alloc: Global,
    layers: Vec<View>,
    axis: usize,
) -> Result<Vec<View>, AllocError>
    requires few { length layers.items ≤ 256 }
    requires axes { AllByRecursion (λ v. (axis ≤ length (look_of v).dims)
        × (length (look_of v).dims < 32)) layers.items }
    ensures { IfOk result (λ placed. placed.items ≡ placed_from 0 axis layers.items) }
{
    let mut layers = layers;
    place_layers(alloc, layers.as_mut_slice(), axis)?;
    Ok(layers)
}

fn place_layers(alloc: Global, layers: &mut [View], axis: usize) -> Result<(), AllocError>
    requires few { length layers.old ≤ 256 }
    requires axes { AllByRecursion (λ v. (axis ≤ length (look_of v).dims) × (length (look_of v).dims < 32)) layers.old }
    ensures { OnOk result (layers.new ≡ placed_from 0 axis layers.old) }
{
    for k in 0..layers.len() {
        place(alloc, &mut layers[k], axis, k)?;
    }
    Ok(())
}

// Puts a view at a place of a new dimension.
fn place(alloc: Global, v: &mut View, axis: usize, at: usize) -> Result<(), AllocError>
    requires axis { axis ≤ length (look_of v.old).dims }
    requires rank { length (look_of v.old).dims < 32 }
    requires small { at < 256 }
    ensures { OnOk result (v.new ≡ placed_view axis at v.old) }
{
    let transform = placed_transform(alloc, transform_of(v), axis, at)?;
    set_transform(v, transform);
    Ok(())
}

fn placed_transform(
    alloc: Global,
    t: &Transform,
    axis: usize,
    at: usize,
) -> Result<Transform, AllocError>
    requires axis { axis ≤ length t.now.domain.dims }
    requires rank { length t.now.domain.dims < 32 }
    requires small { at < 256 }
    ensures { IfOk result (λ u. u ≡ placed_transform axis at t.now) }
{
    let domain = with_axis(alloc, t.domain(), axis, from_on(at, 1))?;
    Ok(Transform::of(domain, placed_maps(alloc, t.maps(), axis)?))
}

// So many indices from a number on.
pub(crate) fn from_on(lo: usize, size: usize) -> Interval
    requires small { lo ≤ 256 }
    requires few { size ≤ 256 }
    ensures { result ≡ from_on (pos lo) size }
{
    let lo = lo as i64;
    Interval {
        lo,
        hi: lo + size as i64 - 1,
        lo_implicit: false,
        hi_implicit: false,
    }
}

// A domain with a new dimension without a label at an axis.
pub(crate) fn with_axis(
    alloc: Global,
    domain: &Domain,
    axis: usize,
    dim: Interval,
) -> Result<Domain, AllocError>
    requires axis { axis ≤ length domain.now.dims }
    requires labels { length domain.now.labels ≡ length domain.now.dims }
    ensures { IfOk result (λ d. d ≡ with_axis axis dim domain.now) }
{
    let dims = dims_with(alloc, domain.dims.items(), axis, dim)?;
    Ok(Domain {
        dims: List::wrap(dims),
        labels: List::wrap(labels_with(alloc, domain.labels.items(), axis)?),
    })
}

fn dims_with(
    alloc: Global,
    dims: &[Interval],
    axis: usize,
    dim: Interval,
) -> Result<Vec<Interval>, AllocError>
    requires { axis ≤ length dims.now }
    ensures { IfOk result (λ all. all.items ≡ insert dims.now axis dim) }
{
    let mut all = dims.to_vec(alloc)?;
    all.insert(axis, dim)?;
    Ok(all)
}

fn labels_with(alloc: Global, labels: &[Name], axis: usize) -> Result<Vec<Name>, AllocError>
    requires { axis ≤ length labels.now }
    ensures { IfOk result (λ all. all.items ≡ insert labels.now axis []) }
{
    let mut all = copied_names(alloc, labels)?;
    all.insert(axis, Name::wrap(String::new(alloc)))?;
    Ok(all)
}

fn placed_maps(alloc: Global, maps: &[OutMap], axis: usize) -> Result<Vec<OutMap>, AllocError>
    requires { All (may_place axis) maps.now }
    ensures { IfOk result (λ all. all.items ≡ map (placed_map axis) maps.now) }
{
    let mut all = Vec::with_capacity(alloc, maps.len())?;
    for map in maps {
        all.push(placed_map(alloc, map, axis)?)?;
    }
    Ok(all)
}

fn placed_map(alloc: Global, map: &OutMap, axis: usize) -> Result<OutMap, AllocError>
    requires { may_place axis map.now }
    ensures { IfOk result (λ placed. placed ≡ placed_map axis map.now) }
{
    match map {
        OutMap::Constant { offset } => Ok(OutMap::Constant { offset: *offset }),
        OutMap::Strided {
            offset,
            stride,
            dim,
        } => Ok(OutMap::Strided {
            offset: *offset,
            stride: *stride,
            dim: placed_dim(*dim, axis),
        }),
        OutMap::Indexed {
            offset,
            stride,
            sizes,
            entries,
        } => placed_indexed(
            alloc,
            *offset,
            *stride,
            sizes.items(),
            entries.items(),
            axis,
        ),
    }
}

// A dimension's number, once a new one stands at an axis.
fn placed_dim(dim: u32, axis: usize) -> u32
    requires { dim < 32 }
    ensures { result ≡ (if nat_lt dim axis then dim else dim + 1) }
{
    if (dim as usize) < axis { dim } else { dim + 1 }
}

fn placed_indexed(
    alloc: Global,
    offset: i64,
    stride: i64,
    sizes: &[u64],
    entries: &[i64],
    axis: usize,
) -> Result<OutMap, AllocError>
    requires { axis ≤ length sizes.now }
    ensures { IfOk result (λ placed. placed ≡ Indexed offset stride (insert sizes.now axis 1) entries.now) }
{
    let sizes = sizes_with(alloc, sizes, axis)?;
    Ok(OutMap::Indexed {
        offset,
        stride,
        sizes: Sizes::wrap(sizes),
        entries: Index::wrap(entries.to_vec(alloc)?),
    })
}

fn sizes_with(alloc: Global, sizes: &[u64], axis: usize) -> Result<Vec<u64>, AllocError>
    requires { axis ≤ length sizes.now }
    ensures { IfOk result (λ all. all.items ≡ insert sizes.now axis 1) }
{
    let mut all = sizes.to_vec(alloc)?;
    all.insert(axis, 1)?;
    Ok(all)
}
