// The answers to what refuses a line, by the causes of the crates below.
ghost use Rattle.std.specs.Prelude.{◌≡◌, ◌≢◌, Result, Err};
ghost use Rattle.line_meanings.specs.declared.ApplyError.TheVariants as apply;
ghost use Rattle.history.specs.Acts.{Asked, with_changes, with_join};
ghost use Rattle.index_transform.specs.Transforms.{DomainAndMaps};
ghost use Rattle.layer_join.specs.declared.error.JoinError.{JoinError as JoinErrorOf};
ghost use Rattle.layer_join.specs.declared.error.JoinError.TheVariants as join;
ghost use Rattle.line_meanings.specs.Changes.{by_view, under_steps};
ghost use Rattle.line_meanings.specs.Joins.{by_join};
ghost use Rattle.line_acts.specs.Refused.{IsAnswerTo};
ghost use Rattle.stack_driver.specs.declared.view.View.{View};
ghost use Rattle.transform_composition.specs.declared.error.ComposeError.TheVariants as compose;

use layer_join::JoinError;
use line_meanings::{ApplyError, Body};
use transform_composition::ComposeError;

/// The answer where a view isn't seen through a transform.
pub(crate) fn composed_body(e: ComposeError) -> Body
    ensures { (answer : Result View ComposeError) (next : View → Asked) → (e ≢ compose.Memory → answer ≡ Err e)
        → IsAnswerTo (with_changes (by_view answer) next) result }
{
    match e {
        ComposeError::Memory => Body::Memory,
        cause => Body::RefusedView { cause },
    }
}

/// The answer where steps aren't done.
pub(crate) fn applied_body(e: ApplyError) -> Body
    ensures { (view : View) (answer : Result DomainAndMaps ApplyError) (next : View → Asked)
        → (e ≢ apply.Memory → answer ≡ Err e) → IsAnswerTo (with_changes (under_steps view answer) next) result }
{
    match e {
        ApplyError::UnknownDim { step } => Body::UnknownDim { step },
        ApplyError::RepeatedDim { step } => Body::RepeatedDim { step },
        ApplyError::Refused { step, cause } => Body::RefusedStep { step, cause },
        ApplyError::Memory => Body::Memory,
    }
}

/// The answer where views aren't joined.
pub(crate) fn joined_body(e: JoinError) -> Body
    ensures { (answer : Result View JoinErrorOf) (next : View → Asked) → (e ≢ join.Memory → answer ≡ Err e)
        → IsAnswerTo (with_join (by_join answer) next) result }
{
    match e {
        JoinError::Memory => Body::Memory,
        cause => Body::RefusedJoin { cause },
    }
}
