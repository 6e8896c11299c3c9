// The view of a plan's tree over arrays.
ghost use Rattle.std.specs.Prelude.{◌≡◌, ◌≢◌, ◌<◌, ◌≤◌, Ok, Err, IfOk, IfErr, codes, length, map};
ghost use Rattle.std.specs.List.{AllByRecursion};
ghost use Rattle.stack_driver.specs.Arrays.{whole_view};
ghost use Rattle.stack_driver.specs.Changes.{moved};
ghost use Rattle.stack_driver.specs.Conditions.{IsView};
ghost use Rattle.stack_driver.specs.Stacks.{stack_answer};
ghost use Rattle.stack_driver.specs.declared.view.View.TheVariants as shown;
ghost use Rattle.spec_open.specs.Built.{through, through_if, of_dtype, stacked_at, all_built, built};
ghost use Rattle.spec_open.specs.Conditions.{IsTree};
ghost use Rattle.spec_forms.specs.Faults.{joined};
ghost use Rattle.spec_open.specs.declared.error.BuildCause.TheVariants as why;
ghost use Rattle.spec_open.specs.declared.error.BuildError.{BuildError};
ghost use Rattle.transform_composition.specs.declared.error.ComposeError.{ComposeError};

use crate::error::{BuildCause, BuildError};
use crate::tree::Tree;
use cells::{Boxed, Dtype, Name, Sizes};
use index_transform::Transform;
use spec_forms::joined;
use stack_driver::{ArrayRef, StackError, View, dtype, whole, with_transform};
use std::alloc::{AllocError, Global};
use transform_composition::ComposeError;

/// The view of a plan's tree, where these are the arrays of its leaves in order. A node's transform goes into the node's own
/// domain: that of a leaf's array, of a cast's base, or of all layers of a stack.
///
/// # Errors
/// `Refused` with the path of the first node that gives no view, from the leaves up and from left to right: a stack whose layers
/// differ in dtype or rank, or haven't the dtype that it names; then a node whose transform doesn't go into its domain, at the
/// path of the transform. `Memory` where an allocation failed.
#[cycle(building)]
pub fn build(alloc: Global, tree: &Tree, arrays: &[ArrayRef]) -> Result<View, BuildError>
    requires { IsTree (length arrays.now) tree.now }
    ensures value { IfOk result (λ v. built arrays.now tree.now ≡ Ok v) }
    ensures view { IfOk result IsView }
    ensures causes { IfErr result (λ e. e ≢ BuildError.Memory → built arrays.now tree.now ≡ Err e) }
{
    match tree {
        Tree::Leaf {
            leaf,
            transform,
            at,
        } => leaf_view(alloc, &arrays[*leaf as usize], at.items(), transform),
        Tree::Cast {
            to,
            base,
            transform,
            at,
        } => {
            let base = build(alloc, base.get(), arrays)?;
            cast_view(alloc, *to, base, at.items(), transform)
        }
        Tree::Stack {
            layers,
            dtype,
            transform,
            at,
        } => {
            let layers = build_layers(alloc, layers.items(), arrays)?;
            stack_view(alloc, layers, *dtype, at.items(), transform)
        }
    }
}

#[cycle(building)]
fn build_layers(
    alloc: Global,
    layers: &[Tree],
    arrays: &[ArrayRef],
) -> Result<Vec<View>, BuildError>
    requires { AllByRecursion (IsTree (length arrays.now)) layers.now }
    ensures value { IfOk result (λ views. all_built (map (built arrays.now) layers.now) ≡ Ok views.items) }
    ensures view { IfOk result (λ views. AllByRecursion IsView views.items) }
    ensures causes { IfErr result (λ e. e ≢ BuildError.Memory → all_built (map (built arrays.now) layers.now) ≡ Err e) }
{
    let mut views = Vec::with_capacity(alloc, layers.len())?;
    for layer in layers {
        let view = build(alloc, layer, arrays)?;
        views.push(view)?;
    }
    Ok(views)
}

fn leaf_view(
    alloc: Global,
    array: &ArrayRef,
    at: &str,
    transform: &Option<Transform>,
) -> Result<View, BuildError>
    ensures value { IfOk result (λ v. through at.now transform.now (whole_view array.now) ≡ Ok v) }
    ensures view { IfOk result IsView }
    ensures causes { IfErr result (λ e. e ≢ BuildError.Memory
        → through at.now transform.now (whole_view array.now) ≡ Err e) }
{
    let view = whole(alloc, copied(alloc, array)?)?;
    through(alloc, at, transform, view)
}

fn copied(alloc: Global, array: &ArrayRef) -> Result<ArrayRef, AllocError>
    ensures { IfOk result (λ r. r ≡ array.now) }
{
    let shape = array.shape.items().to_vec(alloc)?;
    Ok(ArrayRef {
        number: array.number,
        dtype: array.dtype,
        shape: Sizes::wrap(shape),
        chunk: Sizes::wrap(array.chunk.items().to_vec(alloc)?),
        local: array.local,
    })
}

fn cast_view(
    alloc: Global,
    to: Dtype,
    base: View,
    at: &str,
    transform: &Option<Transform>,
) -> Result<View, BuildError>
    requires { IsView base }
    ensures value { IfOk result (λ v. through at.now transform.now (shown.Cast to base) ≡ Ok v) }
    ensures view { IfOk result IsView }
    ensures causes { IfErr result (λ e. e ≢ BuildError.Memory
        → through at.now transform.now (shown.Cast to base) ≡ Err e) }
{
    let view = View::Cast {
        to,
        base: Boxed::new(alloc, base)?,
    };
    through(alloc, at, transform, view)
}

fn stack_view(
    alloc: Global,
    layers: Vec<View>,
    named: Option<Dtype>,
    at: &str,
    transform: &Option<Transform>,
) -> Result<View, BuildError>
    requires some { 0 < length layers.items }
    requires few { length layers.items ≤ 256 }
    requires views { AllByRecursion IsView layers.items }
    ensures value { IfOk result (λ v. through_if at.now transform.now
        (stacked_at at.now named (stack_answer layers.items)) ≡ Ok v) }
    ensures view { IfOk result IsView }
    ensures causes { IfErr result (λ e. e ≢ BuildError.Memory
        → through_if at.now transform.now (stacked_at at.now named (stack_answer layers.items)) ≡ Err e) }
{
    let view = stacked(alloc, layers, named, at)?;
    through(alloc, at, transform, view)
}

fn stacked(
    alloc: Global,
    layers: Vec<View>,
    named: Option<Dtype>,
    at: &str,
) -> Result<View, BuildError>
    requires some { 0 < length layers.items }
    requires few { length layers.items ≤ 256 }
    requires views { AllByRecursion IsView layers.items }
    ensures value { IfOk result (λ v. stacked_at at.now named (stack_answer layers.items) ≡ Ok v) }
    ensures view { IfOk result IsView }
    ensures causes { IfErr result (λ e. e ≢ BuildError.Memory
        → stacked_at at.now named (stack_answer layers.items) ≡ Err e) }
{
    match View::stack(alloc, layers) {
        Ok(view) => of_dtype(alloc, at, named, view),
        Err(StackError::Layers { .. }) => Err(unlike(alloc, at)),
        Err(StackError::Memory) => Err(BuildError::Memory),
    }
}

// A view of the dtype that its Spec names.
fn of_dtype(alloc: Global, at: &str, named: Option<Dtype>, view: View) -> Result<View, BuildError>
    requires { IsView view }
    ensures value { IfOk result (λ v. of_dtype at.now named view ≡ Ok v) }
    ensures view { IfOk result IsView }
    ensures causes { IfErr result (λ e. e ≢ BuildError.Memory → of_dtype at.now named view ≡ Err e) }
{
    let Some(named) = named else {
        return Ok(view);
    };
    if named.name() == dtype(&view).name() {
        Ok(view)
    } else {
        Err(unlike(alloc, at))
    }
}

fn unlike(alloc: Global, at: &str) -> BuildError
    ensures { result ≢ BuildError.Memory → result ≡ BuildError.Refused at.now why.Layers }
{
    match String::from_str(alloc, at) {
        Ok(path) => BuildError::Refused {
            path: Name::wrap(path),
            cause: BuildCause::Layers,
        },
        Err(_) => BuildError::Memory,
    }
}

// A view seen through the transform of the node at a path, if it has one.
fn through(
    alloc: Global,
    at: &str,
    transform: &Option<Transform>,
    view: View,
) -> Result<View, BuildError>
    requires { IsView view }
    ensures value { IfOk result (λ v. through at.now transform.now view ≡ Ok v) }
    ensures view { IfOk result IsView }
    ensures causes { IfErr result (λ e. e ≢ BuildError.Memory → through at.now transform.now view ≡ Err e) }
{
    let Some(transform) = transform else {
        return Ok(view);
    };
    match with_transform(alloc, view, transform) {
        Ok(view) => Ok(view),
        Err(cause) => Err(refused(alloc, at, cause)),
    }
}

fn refused(alloc: Global, at: &str, cause: ComposeError) -> BuildError
    ensures { result ≢ BuildError.Memory → (cause ≢ ComposeError.Memory)
        × (result ≡ BuildError.Refused (joined at.now (codes "transform")) (why.Transform cause)) }
{
    if let ComposeError::Memory = cause {
        return BuildError::Memory;
    }
    match joined(alloc, at, "transform") {
        Ok(path) => BuildError::Refused {
            path,
            cause: BuildCause::Transform { cause },
        },
        Err(_) => BuildError::Memory,
    }
}
