// Views after a line's transform and steps.
ghost use Rattle.std.specs.Prelude.{◌≡◌, Ok, None, IfOk, IfErr, All, length};
ghost use Rattle.history.specs.Acts.{Asked, changed as changed_by, named as only_named, with_changes};
ghost use Rattle.history.specs.Bound.{AreKnownNames};
ghost use Rattle.history.specs.History.{History};
ghost use Rattle.history.specs.Refs.{HasKnownRefs};
ghost use Rattle.indexmap.specs.IndexMap.{get_by_text};
ghost use Rattle.line_meanings.specs.Changes.{by_transform, steps_of, changes_of};
ghost use Rattle.line_acts.specs.Bound.{AreViews};
ghost use Rattle.line_acts.specs.Refused.{IsAnswerTo};
ghost use Rattle.stack_driver.specs.Changes.{under};
ghost use Rattle.stack_driver.specs.Conditions.{IsView};
ghost use Rattle.stack_driver.specs.Views.{own_transform};
ghost use Rattle.stack_driver.specs.declared.view.View.{View as ViewOf};
ghost use Rattle.step_forms.specs.Given.{IsGiven};

use crate::causes::{applied_body, composed_body};
use crate::names::{Names, named};
use index_transform::Transform;
use line_meanings::{Body, apply};
use stack_driver::{View, set_transform, transform_of, with_transform};
use std::alloc::Global;
use step_forms::Step;

/// A view after a transform, and steps behind it, or the answer to what refuses them.
pub fn changed(
    alloc: Global,
    view: View,
    transform: &Option<Transform>,
    steps: &[Step],
) -> Result<View, Body>
    requires view { IsView view }
    requires given { All IsGiven steps.now }
    ensures value { IfOk result (λ v. changed_by (Ok view) (changes_of transform.now steps.now) ≡ Ok v) }
    ensures view { IfOk result IsView }
    ensures err { IfErr result (λ b. (next : ViewOf → Asked)
        → IsAnswerTo (with_changes (changed_by (Ok view) (changes_of transform.now steps.now)) next) b) }
{
    match transform {
        Some(t) => match seen_through(alloc, view, t) {
            Ok(view) => stepped(alloc, view, steps),
            Err(body) => Err(body),
        },
        None => stepped(alloc, view, steps),
    }
}

fn seen_through(alloc: Global, view: View, t: &Transform) -> Result<View, Body>
    requires { IsView view }
    ensures value { IfOk result (λ v. by_transform t.now view ≡ Ok v) }
    ensures view { IfOk result IsView }
    ensures err { IfErr result (λ b. (next : ViewOf → Asked)
        → IsAnswerTo (with_changes (by_transform t.now view) next) b) }
{
    match with_transform(alloc, view, t) {
        Ok(view) => Ok(view),
        Err(e) => Err(composed_body(e)),
    }
}

fn stepped(alloc: Global, view: View, steps: &[Step]) -> Result<View, Body>
    requires view { IsView view }
    requires given { All IsGiven steps.now }
    ensures value { IfOk result (λ v. changed_by (Ok view) (steps_of steps.now) ≡ Ok v) }
    ensures view { IfOk result IsView }
    ensures err { IfErr result (λ b. (next : ViewOf → Asked)
        → IsAnswerTo (with_changes (changed_by (Ok view) (steps_of steps.now)) next) b) }
{
    if steps.is_empty() {
        return Ok(view);
    }
    match apply(alloc, transform_of(&view), steps) {
        Ok(t) => Ok(under(view, t)),
        Err(e) => Err(applied_body(e)),
    }
}

fn under(mut view: View, t: Transform) -> View
    requires view { IsView view }
    requires outputs { length t.maps ≡ length (own_transform view).maps }
    ensures value { result ≡ under t view }
    ensures view { IsView result }
{
    set_transform(&mut view, t);
    view
}

/// The view of a name after steps, or the answer to what refuses it.
pub fn seen(alloc: Global, names: &Names, name: &str, steps: &[Step]) -> Result<View, Body>
    requires given { All IsGiven steps.now }
    requires views { AreViews (get_by_text names.now) }
    ensures value { IfOk result (λ v. (next : ViewOf → Asked)
        → only_named name.now (get_by_text names.now name.now) (λ w.
        with_changes (changed_by (Ok w) (changes_of None steps.now)) next) ≡ next v) }
    ensures view { IfOk result IsView }
    ensures refs { IfOk result (λ v. (events : History) → AreKnownNames events (get_by_text names.now)
        → HasKnownRefs events v) }
    ensures err { IfErr result (λ b. (next : ViewOf → Asked)
        → IsAnswerTo (only_named name.now (get_by_text names.now name.now) (λ w.
        with_changes (changed_by (Ok w) (changes_of None steps.now)) next)) b) }
{
    match named(alloc, names, name) {
        Ok(view) => changed(alloc, view, &None, steps),
        Err(body) => Err(body),
    }
}
