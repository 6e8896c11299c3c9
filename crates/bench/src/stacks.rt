// Stacks over 1,000,000 cells, of four layers or of 256.
ghost use Rattle.std.specs.Prelude.{IfOk};
ghost use Rattle.std.specs.List.{AllByRecursion};
ghost use Rattle.stack_driver.specs.Conditions.{IsView};

use cells::{Dtype, List, Name, Sizes, is_chunk_shape, is_shape};
use index_intervals::Interval;
use index_transform::{Domain, OutMap, Transform};
use stack_driver::{ArrayRef, View, transform_of, whole, with_transform};
use stack_targets::targets;
use std::alloc::{AllocError, Global};

// The domain of some cells from these on.
fn domain(alloc: Global, from: &[i64], sizes: &[u64]) -> Result<Domain, AllocError> {
    let dims = dims(alloc, from, sizes)?;
    let labels = labels(alloc, sizes)?;
    Ok(Domain {
        dims: List::wrap(dims),
        labels: List::wrap(labels),
    })
}

fn dims(alloc: Global, from: &[i64], sizes: &[u64]) -> Result<Vec<Interval>, AllocError> {
    let mut dims = Vec::new(alloc);
    for (lo, size) in from.iter().zip(sizes.iter()) {
        let size = i64::try_from(*size).unwrap_or(0);
        let hi = lo.wrapping_add(size).wrapping_sub(1);
        if let Ok(dim) = Interval::new(*lo, hi, false, false) {
            dims.push(dim)?;
        }
    }
    Ok(dims)
}

fn labels(alloc: Global, sizes: &[u64]) -> Result<Vec<Name>, AllocError> {
    let mut labels = Vec::new(alloc);
    for _ in sizes {
        labels.push(Name::wrap(String::new(alloc)))?;
    }
    Ok(labels)
}

// Each index counted from the first cell.
fn maps(alloc: Global, from: &[i64]) -> Result<Vec<OutMap>, AllocError> {
    let mut maps = Vec::new(alloc);
    let mut dim = 0u32;
    for lo in from {
        maps.push(OutMap::Strided {
            offset: 0i64.wrapping_sub(*lo),
            stride: 1,
            dim,
        })?;
        dim = dim.wrapping_add(1);
    }
    Ok(maps)
}

fn transform(alloc: Global, from: &[i64], sizes: &[u64]) -> Result<Transform, AllocError> {
    let domain = domain(alloc, from, sizes)?;
    match Transform::new(domain, maps(alloc, from)?) {
        Ok(t) => Ok(t),
        Err(_) => Err(AllocError),
    }
}

// An array of these sizes, in chunks of 1 cell.
fn array(alloc: Global, sizes: &[u64]) -> Result<ArrayRef, AllocError> {
    let shape = Vec::from_slice(alloc, sizes)?;
    with_chunk(shape, Vec::from_elem(alloc, 1u64, sizes.len())?)
}

fn with_chunk(shape: Vec<u64>, chunk: Vec<u64>) -> Result<ArrayRef, AllocError> {
    if !is_shape(&shape) || !is_chunk_shape(&chunk) || chunk.len() != shape.len() {
        return Err(AllocError);
    }
    Ok(ArrayRef {
        number: 0,
        dtype: Dtype::I32,
        shape: Sizes::wrap(shape),
        chunk: Sizes::wrap(chunk),
        local: false,
    })
}

// An array whose first cell has this index vector.
fn layer(alloc: Global, from: &[i64], sizes: &[u64]) -> Result<View, AllocError>
    ensures { IfOk result IsView }
{
    let t = transform(alloc, from, sizes)?;
    under(alloc, sizes, &t)
}

fn under(alloc: Global, sizes: &[u64], t: &Transform) -> Result<View, AllocError>
    ensures { IfOk result IsView }
{
    let view = whole(alloc, array(alloc, sizes)?)?;
    match with_transform(alloc, view, t) {
        Ok(view) => Ok(view),
        Err(_) => Err(AllocError),
    }
}

fn with(layers: Vec<View>, layer: View) -> Result<Vec<View>, AllocError>
    requires layers { AllByRecursion IsView layers.items }
    requires layer { IsView layer }
    ensures { IfOk result (λ views. AllByRecursion IsView views.items) }
{
    let mut layers = layers;
    layers.push(layer)?;
    Ok(layers)
}

fn with_layer(
    alloc: Global,
    layers: Vec<View>,
    from: &[i64],
    sizes: &[u64],
) -> Result<Vec<View>, AllocError>
    requires { AllByRecursion IsView layers.items }
    ensures { IfOk result (λ views. AllByRecursion IsView views.items) }
{
    let layer = layer(alloc, from, sizes)?;
    with(layers, layer)
}

fn stacked(alloc: Global, layers: Vec<View>) -> Result<View, AllocError>
    requires { AllByRecursion IsView layers.items }
    ensures { IfOk result IsView }
{
    if layers.is_empty() || layers.len() > 256 {
        return Err(AllocError);
    }
    match View::stack(alloc, layers) {
        Ok(view) => Ok(view),
        Err(_) => Err(AllocError),
    }
}

// Four layers one behind the other.
fn row(alloc: Global) -> Result<View, AllocError>
    ensures { IfOk result IsView }
{
    let layers = with_layer(alloc, Vec::new(alloc), &[0], &[250_000])?;
    let layers = with_layer(alloc, layers, &[250_000], &[250_000])?;
    let layers = with_layer(alloc, layers, &[500_000], &[250_000])?;
    let layers = with_layer(alloc, layers, &[750_000], &[250_000])?;
    stacked(alloc, layers)
}

// Four layers in a square.
fn square(alloc: Global) -> Result<View, AllocError>
    ensures { IfOk result IsView }
{
    let layers = with_layer(alloc, Vec::new(alloc), &[0, 0], &[500, 500])?;
    let layers = with_layer(alloc, layers, &[0, 500], &[500, 500])?;
    let layers = with_layer(alloc, layers, &[500, 0], &[500, 500])?;
    let layers = with_layer(alloc, layers, &[500, 500], &[500, 500])?;
    stacked(alloc, layers)
}

// 256 layers one behind the other.
fn many(alloc: Global) -> Result<View, AllocError>
    ensures { IfOk result IsView }
{
    let mut layers = Vec::new(alloc);
    for k in 0..256u32 {
        let from = i64::from(k).wrapping_mul(3_906);
        layers = with_layer(alloc, layers, &[from], &[3_906])?;
    }
    stacked(alloc, layers)
}

// 256 layers in a square, 16 times 16.
fn grid(alloc: Global) -> Result<View, AllocError>
    ensures { IfOk result IsView }
{
    let mut layers = Vec::new(alloc);
    for k in 0..256u32 {
        let from = [
            i64::from(k / 16).wrapping_mul(62),
            i64::from(k % 16).wrapping_mul(62),
        ];
        layers = with_layer(alloc, layers, &from, &[62, 62])?;
    }
    stacked(alloc, layers)
}

/// The number of the last cell's leaf in a stack by its name, whose targets were made so many times.
pub(crate) fn bench(alloc: Global, view: &str, times: u32) -> Result<Option<u32>, AllocError> {
    match view {
        "row" => timed(alloc, &row(alloc)?, times),
        "square" => timed(alloc, &square(alloc)?, times),
        "many" => timed(alloc, &many(alloc)?, times),
        "grid" => timed(alloc, &grid(alloc)?, times),
        _ => Ok(None),
    }
}

fn timed(alloc: Global, view: &View, times: u32) -> Result<Option<u32>, AllocError>
    requires { IsView view.now }
{
    let mut last = 0;
    for _ in 0..times {
        last = last_leaf(alloc, view)?;
    }
    Ok(Some(last))
}

fn last_leaf(alloc: Global, view: &View) -> Result<u32, AllocError>
    requires { IsView view.now }
{
    if !transform_of(view).is_finite() {
        return Err(AllocError);
    }
    match targets(alloc, view) {
        Ok(found) => Ok(found.leaves.items().last().map_or(0, |leaf| *leaf)),
        Err(_) => Err(AllocError),
    }
}
