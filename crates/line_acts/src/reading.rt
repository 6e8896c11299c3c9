// What refuses a read before its cells are looked for.
ghost use Rattle.std.specs.Prelude.{◌≡◌, Ok, Err, None, Option, All, IfOk, IfErr, OnOk, length, true, false};
ghost use Rattle.history.specs.Acts.{Asked, reads, read_of, without, with_factors, act_of};
ghost use Rattle.history.specs.Answers as old_answers;
ghost use Rattle.history.specs.Bound.{AreKnownNames};
ghost use Rattle.history.specs.Commit.{Transaction};
ghost use Rattle.history.specs.History.{History};
ghost use Rattle.history.specs.Lines.{reading};
ghost use Rattle.history.specs.Refs.{HasKnownRefs};
ghost use Rattle.history.specs.Viewing.{cell_fault};
ghost use Rattle.index_transform.specs.Cells.{cells_of, count_answer};
ghost use Rattle.indexmap.specs.IndexMap.{get_by_text};
ghost use Rattle.line_acts.specs.Bound.{AreViews};
ghost use Rattle.line_acts.specs.Ranks.{HasRank};
ghost use Rattle.line_acts.specs.Refused.{IsAnswerTo};
ghost use Rattle.line_meanings.specs.Changes.{changes_of};
ghost use Rattle.line_meanings.specs.Numbers.{downsampling_of};
ghost use Rattle.stack_driver.specs.Conditions.{IsView};
ghost use Rattle.stack_driver.specs.Views.{look_of};
ghost use Rattle.step_forms.specs.Given.{IsGiven};
ghost use Rattle.transform_composition.specs.declared.error.ComposeError.TheVariants as compose;

use crate::cell_faults::counted;
use crate::changing::seen;
use crate::names::Names;
use line_meanings::{Body, DownWant};
use stack_driver::{View, transform_of};
use std::alloc::Global;
use step_forms::Step;
use transform_composition::ComposeError;

/// The view of a read, or the answer to what refuses it before its cells are looked for.
pub fn asked_read(
    alloc: Global,
    names: &Names,
    name: &str,
    steps: &[Step],
    down: &Option<DownWant>,
) -> Result<View, Body>
    requires given { All IsGiven steps.now }
    requires views { AreViews (get_by_text names.now) }
    ensures act { IfOk result (λ v. (t : Option Transaction)
        → act_of (get_by_text names.now) t (reading name.now (changes_of None steps.now) (downsampling_of down.now))
        ≡ without (cell_fault v) (Ok (reads v (downsampling_of down.now)))) }
    ensures view { IfOk result IsView }
    ensures refs { IfOk result (λ v. (events : History) → AreKnownNames events (get_by_text names.now)
        → HasKnownRefs events v) }
    ensures count { IfOk result (λ v. count_answer (look_of v).dims ≡ Ok (length (cells_of (look_of v).dims))) }
    ensures rank { IfOk result (HasRank down.now) }
    ensures err { IfErr result (λ b. (t : Option Transaction)
        → IsAnswerTo (act_of (get_by_text names.now) t
        (reading name.now (changes_of None steps.now) (downsampling_of down.now))) b) }
{
    match seen(alloc, names, name, steps) {
        Ok(v) => readable(v, down),
        Err(body) => Err(body),
    }
}

// A view, unless its factors or the count of its cells refuse the read.
fn readable(v: View, down: &Option<DownWant>) -> Result<View, Body>
    ensures view { IfOk result (λ w. w ≡ v) }
    ensures value { OnOk result (read_of (downsampling_of down.now) v
        ≡ without (cell_fault v) (Ok (reads v (downsampling_of down.now)))) }
    ensures count { OnOk result (count_answer (look_of v).dims ≡ Ok (length (cells_of (look_of v).dims))) }
    ensures rank { OnOk result (HasRank down.now v) }
    ensures err { IfErr result (IsAnswerTo (read_of (downsampling_of down.now) v)) }
{
    match checked(&v, down) {
        Ok(_) => Ok(v),
        Err(body) => Err(body),
    }
}

// How many cells a view has, or the answer to what its factors or this count refuse.
fn checked(v: &View, down: &Option<DownWant>) -> Result<u64, Body>
    ensures value { OnOk result (read_of (downsampling_of down.now) v.now
        ≡ without (cell_fault v.now) (Ok (reads v.now (downsampling_of down.now)))) }
    ensures count { OnOk result (count_answer (look_of v.now).dims ≡ Ok (length (cells_of (look_of v.now).dims))) }
    ensures rank { OnOk result (HasRank down.now v.now) }
    ensures err { IfErr result (IsAnswerTo (read_of (downsampling_of down.now) v.now)) }
{
    if has_rank(v, down) {
        return counted(v);
    }
    Err(Body::RefusedView {
        cause: ComposeError::Rank,
    })
}

fn has_rank(v: &View, down: &Option<DownWant>) -> bool
    ensures from { result ≡ true → HasRank down.now v.now }
    ensures not { result ≡ false → (next : Asked)
        → with_factors (downsampling_of down.now) v.now next ≡ Err (old_answers.refused_view compose.Rank) }
{
    match down {
        Some(want) => want.factors.items().len() == transform_of(v).domain().dims.items().len(),
        None => true,
    }
}
