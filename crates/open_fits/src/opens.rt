// Whether the answer to an open line is one that it may have.
ghost use Rattle.std.specs.Prelude.{◌≡◌, ◌↔◌, ◌<◌, ◌+◌, ◌^◌, ℕ, Option, Some, None, IfOk, IsTrue, Ok, length};
ghost use Rattle.history.specs.Acts.{opens};
ghost use Rattle.history.specs.Commit.{Transaction};
ghost use Rattle.history.specs.History.{History};
ghost use Rattle.serde_json.specs.View.{view};
ghost use Rattle.read_fits.specs.Outline.{outline};
ghost use Rattle.read_fits.specs.Openings.{leaves_of, build_of};
ghost use Rattle.read_fits.specs.Fits.{IsAnsweredBy};
ghost use Rattle.open_fits.specs.Opens.{IsOpenLine, IsJudged, MayBeAsked, AsksOf, IsFitAt, window_told};
ghost use Rattle.open_fits.specs.Built.{IsTakenEnd, IsEndOf, IsInWindow};

use crate::built::is_built;
use crate::moments::{Moment, moment_of};
use crate::questions::{OpenQuestion, OpenTold, WantedPlan, plan_wanted};
use crate::settling::arrays_settled;
use history::{ArrayRef, Event};
use read_fits::{OpenPlan, Openings};
use serde_json::Value;
use std::alloc::{AllocError, Global};

/// Whether the answer to an open line fits.
#[derive(Debug, Drop)]
pub enum OpenFit {
    /// It doesn't.
    Unfit,
    /// It does.
    Fits,
    /// It does exactly where a leaf of the question is refused as the answer says.
    IfRefused { question: OpenQuestion },
}

/// Whether the answer to an open line of this plan is one that the line may have, where each leaf takes this number or
/// none. The time is linear in the leaves, but for the answer's text and the look-ups of places.
///
/// # Errors
/// An allocation failed.
pub fn fit_open(
    alloc: Global,
    plan: OpenPlan,
    takings: &[Option<u64>],
    openings: &Openings,
    told: OpenTold,
    answer: &Value,
) -> Result<OpenFit, AllocError>
    requires { IsOpenLine plan takings.now openings.now told (view answer.now) }
    ensures fits { IfOk result (λ fit. (history : History) → outline history ≡ openings.now.events → (owner : ℕ)
        (t : Option Transaction) → IsJudged history (IsAnsweredBy history owner (window_told told) t told.line
        (Ok (opens told.name (leaves_of plan) (build_of plan))) told.text (view answer.now)) fit) }
    ensures asked { IfOk result (MayBeAsked openings.now.events) }
    ensures same { IfOk result (AsksOf told) }
{
    let wanted = plan_wanted(alloc, plan)?;
    let leaves = wanted.leaves.items();
    let arrays = arrays_settled(alloc, leaves, takings, openings, told.upto)?;
    let settled = arrays.as_slice();
    let is_whole = is_built(alloc, &wanted, settled, &told)?;
    if is_whole {
        return Ok(OpenFit::Fits);
    }
    let moment = moment_of(&told, answer);
    let first = taken_end(takings);
    let events = openings.events.items();
    Ok(fit_at(wanted, first, settled, moment, told, events))
}

// What is answered where the answer isn't the one over all arrays, of which these were found.
fn fit_at(
    plan: WantedPlan,
    first: usize,
    settled: &[ArrayRef],
    moment: Moment,
    told: OpenTold,
    events: &[Event],
) -> OpenFit
    ensures { IsFitAt plan first (length settled.now) moment told (length events.now) result }
{
    if !is_in_window(&told, events.len(), moment) {
        return OpenFit::Unfit;
    }
    let question = asked(plan, first, settled.len(), moment, told);
    OpenFit::IfRefused { question }
}

// The question of the leaves from one on to the first that wasn't opened.
fn asked(
    plan: WantedPlan,
    first: usize,
    settled: usize,
    moment: Moment,
    told: OpenTold,
) -> OpenQuestion
    ensures same { result
        ≡ record {
          plan = plan;
          first = first;
          end = result.end;
          moment = moment.events;
          is_failed = moment.is_failed;
          told = told;
        } }
    ensures end { IsEndOf settled (length plan.leaves) result.end }
{
    let end = end_of(settled, plan.leaves.items().len());
    OpenQuestion {
        plan,
        first,
        end,
        moment: moment.events,
        is_failed: moment.is_failed,
        told,
    }
}

// One more than those that were opened, but no more than there are.
fn end_of(settled: usize, count: usize) -> usize
    ensures { IsEndOf settled count result }
{
    if settled < count { settled + 1 } else { count }
}

// Whether the moment is one of which the answer may speak.
fn is_in_window(told: &OpenTold, count: usize, moment: Moment) -> bool
    ensures { IsTrue result ↔ IsInWindow told.now count moment }
{
    let events = moment.events;
    told.from <= events && events <= count as u64 && (moment.is_failed || events <= told.upto)
}

// One more than the place of the last leaf that takes a number.
fn taken_end(takings: &[Option<u64>]) -> usize
    ensures { IsTakenEnd takings.now result }
{
    let mut end = 0;
    for place in 0..takings.len() {
        end = end_behind(end, place, takings[place]);
    }
    end
}

// The same behind one leaf more.
fn end_behind(end: usize, place: usize, taking: Option<u64>) -> usize
    requires { place + 1 < 2 ^ 64 }
    ensures some { (n : ℕ) → taking ≡ Some n → result ≡ place + 1 }
    ensures none { taking ≡ None → result ≡ end }
{
    match taking {
        Some(_) => place + 1,
        None => end,
    }
}
