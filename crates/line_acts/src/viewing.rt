// Views of views.
ghost use Rattle.std.specs.Prelude.{◌≡◌, Ok, Option, IfOk, IfErr, All};
ghost use Rattle.history.specs.Acts.{binds, act_of};
ghost use Rattle.history.specs.Answers.{Text};
ghost use Rattle.history.specs.Commit.{Transaction};
ghost use Rattle.history.specs.Lines.{viewing};
ghost use Rattle.indexmap.specs.IndexMap.{get_by_text};
ghost use Rattle.line_acts.specs.Bound.{AreViews};
ghost use Rattle.line_acts.specs.Refused.{IsAnswerTo};
ghost use Rattle.line_meanings.specs.Changes.{changes_of};
ghost use Rattle.stack_driver.specs.Conditions.{IsView};
ghost use Rattle.step_forms.specs.Given.{IsGiven};

use crate::changing::changed;
use crate::names::{Names, named};
use index_transform::Transform;
use line_meanings::Body;
use stack_driver::View;
use std::alloc::Global;
use step_forms::Step;

/// The view that a line makes of another by a transform and steps, or the answer to what refuses it.
pub fn viewed(
    alloc: Global,
    names: &Names,
    of: &str,
    transform: &Option<Transform>,
    steps: &[Step],
) -> Result<View, Body>
    requires given { All IsGiven steps.now }
    requires views { AreViews (get_by_text names.now) }
    ensures value { IfOk result (λ v. (name : Text) (t : Option Transaction)
        → act_of (get_by_text names.now) t (viewing name of.now (changes_of transform.now steps.now))
        ≡ Ok (binds name v)) }
    ensures view { IfOk result IsView }
    ensures err { IfErr result (λ b. (name : Text) (t : Option Transaction)
        → IsAnswerTo (act_of (get_by_text names.now) t (viewing name of.now (changes_of transform.now steps.now))) b) }
{
    match named(alloc, names, of) {
        Ok(view) => changed(alloc, view, transform, steps),
        Err(body) => Err(body),
    }
}
