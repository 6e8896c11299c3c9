// Steps one after another.
ghost use Rattle.std.specs.List.{All};
ghost use Rattle.std.specs.Prelude.{◌<◌, ◌≡◌, ◌≢◌, Err, IfErr, IfOk, Ok, length, true, ℕ};
ghost use Rattle.dim_changes.specs.Cuts.{is_cut};
ghost use Rattle.dim_expressions.specs.Answers.{IsOutcome};
ghost use Rattle.dim_expressions.specs.Applying.{IsAfter, IsAfterAll, after_step, applied, select_error};
ghost use Rattle.step_forms.specs.Given.{HasIndicesAt, IsGiven};
ghost use Rattle.step_forms.specs.Selection.{AreSelected, selected_of};
ghost use Rattle.dim_expressions.specs.declared.error.ApplyError.{ApplyError};

use crate::at::at;
use crate::diagonal::diagonal;
use crate::error::ApplyError;
use crate::newaxis::newaxis;
use crate::oindex::oindex;
use crate::transpose::transpose;
use crate::vindex::vindex;
use dim_changes::{Fault, labelled, with_cuts, with_marks};
use index_transform::Transform;
use std::alloc::Global;
use step_forms::{Act, SelectError, Step, selected};

// A step that acts on each dimension by itself.
fn cut_by(alloc: Global, t: &Transform, dims: &[usize], act: &Act) -> Result<Transform, Fault>
    requires is_cut { is_cut act.now ≡ true }
    requires numbers { (spot : ℕ) → HasIndicesAt act.now spot }
    requires known { All (λ dim. dim < length t.now.domain.dims) dims.now }
    ensures { IsOutcome t.now dims.now act.now result }
{
    with_cuts(alloc, t, dims, act)
}

// A step on the dimensions that it selects.
fn stepped_by(alloc: Global, t: &Transform, dims: &[usize], act: &Act) -> Result<Transform, Fault>
    requires numbers { (spot : ℕ) → HasIndicesAt act.now spot }
    requires selected { AreSelected act.now (length t.now.domain.dims) dims.now }
    ensures { IsOutcome t.now dims.now act.now result }
{
    match act {
        Act::Label { labels } => labelled(alloc, t, dims, labels.items()),
        Act::TranslateTo { .. } => cut_by(alloc, t, dims, act),
        Act::TranslateBy { .. } => cut_by(alloc, t, dims, act),
        Act::TranslateBackwardBy { .. } => cut_by(alloc, t, dims, act),
        Act::Stride { .. } => cut_by(alloc, t, dims, act),
        Act::Transpose { targets } => transpose(alloc, t, dims, targets.items()),
        Act::Diagonal => diagonal(alloc, t, dims),
        Act::At { by } => at(alloc, t, dims, by),
        Act::Slice { .. } => cut_by(alloc, t, dims, act),
        Act::Oindex { arrays } => oindex(alloc, t, dims, arrays.items()),
        Act::Vindex { arrays } => vindex(alloc, t, dims, arrays.items()),
        Act::Newaxis => newaxis(alloc, t, dims),
        Act::MarkBoundsImplicit { lower, upper } => with_marks(alloc, t, dims, *lower, *upper),
    }
}

fn select_error(number: u32, error: SelectError) -> ApplyError
    ensures { result ≡ select_error number error }
{
    match error {
        SelectError::Unknown => ApplyError::UnknownDim { step: number },
        SelectError::Repeated => ApplyError::RepeatedDim { step: number },
        SelectError::Memory => ApplyError::Memory,
    }
}

fn after_step(
    alloc: Global,
    number: u32,
    t: &Transform,
    step: &Step,
) -> Result<Transform, ApplyError>
    requires { IsGiven step.now }
    ensures ok { IfOk result (λ u. IsAfter t.now step.now u) }
    ensures err { IfErr result (λ e. e ≢ ApplyError.Memory → after_step number t.now step.now ≡ Err e) }
{
    match selected(alloc, step, t.domain()) {
        Ok(dims) => after_selected(alloc, number, t, step, &dims),
        Err(e) => Err(select_error(number, e)),
    }
}

// A step on the dimensions that it selects, with its number where it can't be done.
fn after_selected(
    alloc: Global,
    number: u32,
    t: &Transform,
    step: &Step,
    dims: &[usize],
) -> Result<Transform, ApplyError>
    requires given { IsGiven step.now }
    requires found { selected_of step.now t.now.domain ≡ Ok dims.now }
    requires selected { AreSelected step.now.act (length t.now.domain.dims) dims.now }
    ensures ok { IfOk result (λ u. IsAfter t.now step.now u) }
    ensures err { IfErr result (λ e. e ≢ ApplyError.Memory → after_step number t.now step.now ≡ Err e) }
{
    match stepped_by(alloc, t, dims, &step.act) {
        Ok(u) => Ok(u),
        Err(Fault::Refused { cause }) => Err(ApplyError::Refused {
            step: number,
            cause,
        }),
        Err(Fault::Memory) => Err(ApplyError::Memory),
    }
}

/// The transform after the last of the steps, each of which is done on the result of the one before it; the transform
/// itself where there is none.
///
/// Each step is one that `read_steps` can give.
///
/// # Errors
///
/// The first step that fails, counted from 0, and the first that holds of it:
/// - `UnknownDim` where a selector has a position or a label of no dimension.
/// - `RepeatedDim` where a dimension is selected twice.
/// - `Refused` with the cause that is tried first; within it the first selected dimension decides.
/// - `Memory`, which may come before another is seen.
///
/// TensorStore, "Index space", "Dimension expressions".
pub fn apply(alloc: Global, t: &Transform, steps: &[Step]) -> Result<Transform, ApplyError>
    requires { All IsGiven steps.now }
    ensures ok { IfOk result (λ u. applied t.now steps.now ≡ Ok u) }
    ensures err { IfErr result (λ e. e ≢ ApplyError.Memory → applied t.now steps.now ≡ Err e) }
    ensures values { IfOk result (λ u. IsAfterAll t.now steps.now u) }
{
    let mut now = t.copy(alloc)?;
    for k in 0..steps.len() {
        // So many steps would not fit the memory.
        let Ok(number) = u32::try_from(k) else {
            return Err(ApplyError::Memory);
        };
        now = match after_step(alloc, number, &now, &steps[k]) {
            Ok(next) => next,
            Err(e) => return Err(e),
        };
    }
    Ok(now)
}
