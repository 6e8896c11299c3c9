// Joined views.
ghost use Rattle.std.specs.Prelude.{ℕ, Option, All};
ghost use Rattle.history.specs.Bound.{AreKnownNames};
ghost use Rattle.history.specs.History.{History};
ghost use Rattle.history.specs.Lines.{joining};
ghost use Rattle.indexmap.specs.IndexMap.{get_by_text};
ghost use Rattle.session_turns.specs.Form.{AreLayers};
ghost use Rattle.session_turns.specs.Changes.{changes_of};
ghost use Rattle.session_turns.specs.Joins.{join_of};
ghost use Rattle.session_turns.specs.Standing.{session_state, transaction_in, AreViews};
ghost use Rattle.session_turns.specs.Told.{IsToldAlone};
ghost use Rattle.step_forms.specs.Given.{IsGiven};
ghost use Rattle.session_turns.specs.Txn.{TxnSeen};

use cells::Name;
use index_transform::Transform;
use session_turns::{Body, JoinForm, Names, bound, joined};
use std::alloc::Global;
use step_forms::Step;

/// Binds a name to joined views, seen through the transform and the steps. No turn is taken.
pub fn join(
    alloc: Global,
    names: &mut Names,
    name: &str,
    form: JoinForm,
    layers: &[Name],
    transform: &Option<Transform>,
    steps: &[Step],
) -> Body
    requires given { All IsGiven steps.now }
    requires layers { AreLayers layers.now }
    requires views { AreViews (get_by_text names.old) }
    ensures told { (seen line : ℕ) (t : Option TxnSeen)
        → IsToldAlone (session_state (get_by_text names.old) seen t) line
        (joining name.now layers.now (join_of form) (changes_of transform.now steps.now)) (get_by_text names.new)
        (transaction_in t) result }
    ensures views { AreViews (get_by_text names.new) }
    ensures known { (events : History) → AreKnownNames events (get_by_text names.old)
        → AreKnownNames events (get_by_text names.new) }
{
    match joined(alloc, names, form, layers, transform, steps) {
        Ok(view) => bound(alloc, names, name, view),
        Err(body) => body,
    }
}
