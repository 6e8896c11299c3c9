// Whether the answer to a line is one that it may have, by what the line does.
ghost use Rattle.std.specs.Prelude.{◌≡◌, ◌<◌, ℕ, Ok, Option, Some, IfOk, length};
ghost use Rattle.std.specs.List.{slice_get};
ghost use Rattle.history.specs.Acts.{Asked, binds};
ghost use Rattle.history.specs.Commit.{Transaction};
ghost use Rattle.history.specs.History.{History};
ghost use Rattle.open_fits.specs.AnswerLines.{IsAnswerText};
ghost use Rattle.stated_history.specs.Standings.{standing_of};
ghost use Rattle.stated_history.specs.declared.Act.TheVariants.{Commits, Writes};
ghost use Rattle.transcript_fits.specs.Judges.{IsJudge, history_of};
ghost use Rattle.transcript_fits.specs.LineFits.{IsAnsweredSo, IsLineFit, IsPlainFit, MayBeAsked, answer_of_line};
ghost use Rattle.transcript_fits.specs.Stands.{IsFaced, IsFitAt, IsLineAt, MayGoOn, MayGoOnAt};

use crate::acts::act_before;
use crate::changing::{fit_commit, fit_write};
use crate::judge::Judge;
use crate::line_fit::{LineFit, ToldLine};
use crate::one_answer::fit_one;
use crate::opening::fit_opening;
use crate::reading::fit_reading;
use crate::stand::Stand;
use cells::WrittenWords;
use stack_driver::View;
use stated_history::{Act, Body, viewed_body};
use std::alloc::{AllocError, Global};

/// Whether the answer to the line at a place is one that it may have, or what that waits for. What is kept of a read or a write isn't copied.
///
/// # Errors
/// An allocation failed.
pub(crate) fn fit_answer(
    alloc: Global,
    judge: &Judge,
    stand: &Stand,
    line: ToldLine,
    place: usize,
) -> Result<LineFit, AllocError>
    requires judge { IsJudge judge.now }
    requires line { IsLineAt judge.now stand.now line place }
    ensures fits { IfOk result (IsFitAt judge.now stand.now line.entry place) }
    ensures asked { IfOk result (MayBeAsked (history_of judge.now)) }
    ensures on { IfOk result (MayGoOnAt judge.now stand.now line.entry place) }
{
    fit_by(alloc, judge, stand, line, place, &judge.acts[place])
}

// The same by what is kept of the line.
fn fit_by(
    alloc: Global,
    judge: &Judge,
    stand: &Stand,
    line: ToldLine,
    place: usize,
    kept: &Option<Act>,
) -> Result<LineFit, AllocError>
    requires judge { IsJudge judge.now }
    requires line { IsLineAt judge.now stand.now line place }
    requires kept { slice_get judge.now.acts.now place ≡ Some kept.now }
    ensures fits { IfOk result (IsFitAt judge.now stand.now line.entry place) }
    ensures asked { IfOk result (MayBeAsked (history_of judge.now)) }
    ensures on { IfOk result (MayGoOnAt judge.now stand.now line.entry place) }
{
    match kept {
        Some(act) => fit_kept(alloc, judge, stand, line, place, act),
        None => fit_before(alloc, judge, stand, line, place),
    }
}

// The same where it is kept that the line does this.
fn fit_kept(
    alloc: Global,
    judge: &Judge,
    stand: &Stand,
    line: ToldLine,
    place: usize,
    act: &Act,
) -> Result<LineFit, AllocError>
    requires judge { IsJudge judge.now }
    requires line { IsLineAt judge.now stand.now line place }
    requires kept { slice_get judge.now.acts.now place ≡ Some (Some act.now) }
    ensures fits { IfOk result (IsFitAt judge.now stand.now line.entry place) }
    ensures asked { IfOk result (MayBeAsked (history_of judge.now)) }
    ensures on { IfOk result (MayGoOnAt judge.now stand.now line.entry place) }
{
    match act {
        Act::Reads { view } => fit_reading(alloc, judge, &stand.own, line, view),
        Act::Writes { view, words } => fit_writing(alloc, judge, stand, line, view, words),
        _ => fit_before(alloc, judge, stand, line, place),
    }
}

// The same by what the line does.
fn fit_before(
    alloc: Global,
    judge: &Judge,
    stand: &Stand,
    line: ToldLine,
    place: usize,
) -> Result<LineFit, AllocError>
    requires judge { IsJudge judge.now }
    requires line { IsLineAt judge.now stand.now line place }
    ensures fits { IfOk result (IsFitAt judge.now stand.now line.entry place) }
    ensures asked { IfOk result (MayBeAsked (history_of judge.now)) }
    ensures on { IfOk result (MayGoOnAt judge.now stand.now line.entry place) }
{
    let act = act_before(alloc, judge, &stand.walk, place)?;
    fit_line(alloc, judge, stand, line, place, act)
}

// The same of the line at a place, which does this.
fn fit_line(
    alloc: Global,
    judge: &Judge,
    stand: &Stand,
    line: ToldLine,
    place: usize,
    act: Act,
) -> Result<LineFit, AllocError>
    requires judge { IsJudge judge.now }
    requires place { place < length judge.now.source.now.openings.now.takings }
    requires faced { (asked : Asked)
        × IsFaced judge.now line place (standing_of stand.now.walk.standing) stand.now.own asked act }
    ensures fits { IfOk result (λ fit. (asked : Asked)
        → IsFaced judge.now line.entry place (standing_of stand.now.walk.standing) stand.now.own asked act
        → IsLineFit (history_of judge.now)
        (IsAnsweredSo (history_of judge.now) line.entry (standing_of stand.now.walk.standing).transaction asked) fit) }
    ensures asked { IfOk result (MayBeAsked (history_of judge.now)) }
    ensures on { IfOk result (λ fit. (asked : Asked)
        → IsFaced judge.now line.entry place (standing_of stand.now.walk.standing) stand.now.own asked act
        → MayGoOn (answer_of_line line.entry) asked fit) }
{
    match act {
        Act::Refused { body } => fit_one(alloc, line, body),
        Act::Opens { name, plan } => fit_opening(alloc, judge, line, place, name, plan),
        Act::Binds { name, view } => fit_binding(alloc, line, name.items(), &view),
        Act::Reads { view } => fit_reading(alloc, judge, &stand.own, line, &view),
        Act::Writes { view, words } => fit_writing(alloc, judge, stand, line, &view, &words),
        Act::Begins { mode: _ } => fit_one(alloc, line, Body::Begun),
        Act::Commits => fit_committing(alloc, judge, stand, line),
        Act::Aborts => fit_one(alloc, line, Body::Aborted),
    }
}

// The same of a line that binds a name to a view.
fn fit_binding(
    alloc: Global,
    line: ToldLine,
    name: &str,
    view: &View,
) -> Result<LineFit, AllocError>
    ensures fits { IfOk result (λ fit. (history : History) (t : Option Transaction)
        → IsAnswerText line.entry.line line.entry.text.now (answer_of_line line.entry)
        → IsLineFit history (IsAnsweredSo history line.entry t (Ok (binds name.now view.now))) fit) }
    ensures plain { IfOk result IsPlainFit }
{
    let body = viewed_body(alloc, name, view)?;
    fit_one(alloc, line, body)
}

// The same of a write: it is staged where a transaction stands.
fn fit_writing(
    alloc: Global,
    judge: &Judge,
    stand: &Stand,
    line: ToldLine,
    view: &View,
    words: &WrittenWords,
) -> Result<LineFit, AllocError>
    requires judge { IsJudge judge.now }
    requires faced { (place : ℕ) × (asked : Asked)
        × IsFaced judge.now line place (standing_of stand.now.walk.standing) stand.now.own asked
        (Writes view.now words.now) }
    ensures fits { IfOk result (λ fit. (place : ℕ) (asked : Asked)
        → IsFaced judge.now line.entry place (standing_of stand.now.walk.standing) stand.now.own asked
        (Writes view.now words.now)
        → IsLineFit (history_of judge.now)
        (IsAnsweredSo (history_of judge.now) line.entry (standing_of stand.now.walk.standing).transaction asked) fit) }
    ensures plain { IfOk result IsPlainFit }
{
    let cells = words.len() as u64;
    match &stand.walk.standing.transaction {
        Some(_) => fit_one(alloc, line, Body::Staged { cells }),
        None => fit_write(alloc, judge, line, view, cells),
    }
}

// The same of a commit of the transaction that stands.
fn fit_committing(
    alloc: Global,
    judge: &Judge,
    stand: &Stand,
    line: ToldLine,
) -> Result<LineFit, AllocError>
    requires judge { IsJudge judge.now }
    requires faced { (place : ℕ) × (asked : Asked)
        × IsFaced judge.now line place (standing_of stand.now.walk.standing) stand.now.own asked Commits }
    ensures fits { IfOk result (λ fit. (place : ℕ) (asked : Asked)
        → IsFaced judge.now line.entry place (standing_of stand.now.walk.standing) stand.now.own asked Commits
        → IsLineFit (history_of judge.now)
        (IsAnsweredSo (history_of judge.now) line.entry (standing_of stand.now.walk.standing).transaction asked) fit) }
    ensures plain { IfOk result IsPlainFit }
{
    match &stand.walk.standing.transaction {
        Some(transaction) => fit_commit(alloc, judge, line, &stand.own, transaction),
        None => Ok(LineFit::Unfit),
    }
}
