// Answers to what changes the store: writes outside of transactions, and commits.
ghost use Rattle.std.specs.Prelude.{◌≡◌, ◌≤◌, ◌<◌, ℕ, Ok, Option, IfOk, List as ListOf, length, take, get_or};
ghost use Rattle.std.specs.List.{AllByRecursion};
ghost use Rattle.history.specs.declared.event.Op.{Op as OpOf};
ghost use Rattle.history.specs.Acts.{commits, writes};
ghost use Rattle.history.specs.Commit.{Transaction};
ghost use Rattle.history.specs.CommitRows.{IsChangedOn};
ghost use Rattle.history.specs.Steps.{write_alone};
ghost use Rattle.open_fits.specs.Fitting.{IsConflictTold};
ghost use Rattle.open_fits.specs.Sweeps.{IsOpIn, IsViewIn};
ghost use Rattle.open_fits.specs.Transcript.{mount};
ghost use Rattle.open_fits.specs.Conflicts.{IsConflictAnswer};
ghost use Rattle.stack_driver.specs.Views.{targets_of};
ghost use Rattle.stated_history.specs.Standings.{transaction_of};
ghost use Rattle.transcript_fits.specs.Changing.{PrintsLine};
ghost use Rattle.transcript_fits.specs.Judges.{IsJudge, history_of};
ghost use Rattle.transcript_fits.specs.LineFits.{IsAnsweredSo, IsLineFit, IsPlainFit, answer_of_line};
ghost use Rattle.transcript_fits.specs.Stands.{IsOwnOf};

use crate::judge::Judge;
use crate::line_fit::{LineFit, ToldLine, fit_if};
use history::{Mode, Op};
use open_fits::{
    Committer, Conflict, Own, commit_may_fail, failed_behind, is_committed, is_written,
    write_may_fail,
};
use stack_driver::View;
use stated_history::Ongoing;
use std::alloc::{AllocError, Global};

/// Whether a write of so many cells outside of a transaction is answered as it may be: it was done, or a store call failed that changes
/// a stored array. The time is that of the view's cells.
///
/// # Errors
/// An allocation failed.
pub(crate) fn fit_write(
    alloc: Global,
    judge: &Judge,
    line: ToldLine,
    view: &View,
    cells: u64,
) -> Result<LineFit, AllocError>
    requires judge { IsJudge judge.now }
    requires line { PrintsLine (history_of judge.now) line }
    requires view { IsViewIn (history_of judge.now) view.now }
    ensures fits { IfOk result (λ fit. (t : Option Transaction) (words : ListOf ℕ) → length words ≡ cells
        → length words ≡ length (targets_of view.now)
        → IsLineFit (history_of judge.now)
        (IsAnsweredSo (history_of judge.now) line.entry t (Ok (writes view.now words))) fit) }
    ensures plain { IfOk result IsPlainFit }
{
    let done = line.numbers.done.items();
    let written = is_written(alloc, line.line, cells, done, line.text)?;
    if written {
        return Ok(LineFit::Fits);
    }
    let behind = failed_behind(alloc, line.line, line.numbers.failed, line.text)?;
    match behind {
        Some(number) => fit_failed_write(alloc, judge, view, number),
        None => Ok(LineFit::Unfit),
    }
}

// Whether a store call may fail of a write behind so many events.
fn fit_failed_write(
    alloc: Global,
    judge: &Judge,
    view: &View,
    number: u64,
) -> Result<LineFit, AllocError>
    requires judge { IsJudge judge.now }
    requires number { number ≤ length (history_of judge.now) }
    requires view { IsViewIn (history_of judge.now) view.now }
    ensures fits { IfOk result (λ fit. (line : ℕ) (words : ListOf ℕ) → length words ≡ length (targets_of view.now)
        → IsLineFit (history_of judge.now)
        (IsChangedOn (take number (history_of judge.now)) (write_alone line view.now words) mount) fit) }
    ensures plain { IfOk result IsPlainFit }
{
    let opened = count_at(judge.counts, number);
    let may = write_may_fail(alloc, opened, judge.stored, view)?;
    Ok(fit_if(may))
}

// How many arrays are open behind so many events.
fn count_at(counts: &[u64], number: u64) -> u64
    requires { number < length counts.now }
    ensures { result ≡ get_or counts.now number 0 }
{
    counts[number as usize]
}

/// Whether a commit of the transaction, which has this by its operations, is answered as it may be: it was done, a store call failed that
/// changes a stored array, or a chunk that it read was touched by another session. The time is that of the operations' cells and of the
/// chunks that were read.
///
/// # Errors
/// An allocation failed.
pub(crate) fn fit_commit(
    alloc: Global,
    judge: &Judge,
    line: ToldLine,
    own: &Own,
    transaction: &Ongoing,
) -> Result<LineFit, AllocError>
    requires judge { IsJudge judge.now }
    requires line { PrintsLine (history_of judge.now) line }
    requires ops { AllByRecursion (IsOpIn (history_of judge.now)) transaction.now.ops.items }
    requires own { (upto : ℕ) × IsOwnOf (history_of judge.now) upto transaction.now.ops.items own.now }
    ensures fits { IfOk result (λ fit. (t : Option Transaction)
        → IsLineFit (history_of judge.now)
        (IsAnsweredSo (history_of judge.now) line.entry t (Ok (commits (transaction_of transaction.now)))) fit) }
    ensures plain { IfOk result IsPlainFit }
{
    let done = line.numbers.done.items();
    let committed = is_committed(alloc, line.line, done, line.text)?;
    if committed {
        return Ok(LineFit::Fits);
    }
    let behind = failed_behind(alloc, line.line, line.numbers.failed, line.text)?;
    match behind {
        Some(number) => fit_failed_commit(alloc, judge, transaction.ops.as_slice(), number),
        None => fit_conflict(alloc, judge, line, own, transaction.mode),
    }
}

// Whether a store call may fail of a commit behind so many events.
fn fit_failed_commit(
    alloc: Global,
    judge: &Judge,
    ops: &[Op],
    number: u64,
) -> Result<LineFit, AllocError>
    requires judge { IsJudge judge.now }
    requires number { number ≤ length (history_of judge.now) }
    requires ops { AllByRecursion (IsOpIn (history_of judge.now)) ops.now }
    ensures fits { IfOk result (λ fit. (t : Transaction) → t.ops ≡ ops.now
        → IsLineFit (history_of judge.now) (IsChangedOn (take number (history_of judge.now)) t mount) fit) }
    ensures plain { IfOk result IsPlainFit }
{
    let opened = count_at(judge.counts, number);
    let may = commit_may_fail(alloc, opened, judge.stored, ops)?;
    Ok(fit_if(may))
}

// Whether the conflict of which an answer tells, if it tells of one, may be told of.
fn fit_conflict(
    alloc: Global,
    judge: &Judge,
    line: ToldLine,
    own: &Own,
    mode: Mode,
) -> Result<LineFit, AllocError>
    requires judge { IsJudge judge.now }
    requires line { PrintsLine (history_of judge.now) line }
    requires own { (upto : ℕ) × (ops : ListOf OpOf) × AllByRecursion (IsOpIn (history_of judge.now)) ops
        × IsOwnOf (history_of judge.now) upto ops own.now }
    ensures fits { IfOk result (λ fit. (upto : ℕ) (t : Transaction)
        → AllByRecursion (IsOpIn (history_of judge.now)) t.ops
        → IsOwnOf (history_of judge.now) upto t.ops own.now → t.mode ≡ mode
        → IsLineFit (history_of judge.now)
        (IsConflictAnswer (history_of judge.now) line.entry.owner t line.entry.line line.entry.text.now
        (answer_of_line line.entry)) fit) }
    ensures plain { IfOk result IsPlainFit }
{
    let read = line.answer.read(alloc)?;
    let answer = read.value();
    let told = Conflict::told(alloc, line.line, line.text, answer)?;
    match told {
        Some(conflict) => {
            let by = Committer {
                owner: line.owner,
                mode,
            };
            fit_told(alloc, judge, own, &conflict, by)
        }
        None => Ok(LineFit::Unfit),
    }
}

fn fit_told(
    alloc: Global,
    judge: &Judge,
    own: &Own,
    conflict: &Conflict,
    by: Committer,
) -> Result<LineFit, AllocError>
    requires judge { IsJudge judge.now }
    requires own { (upto : ℕ) × (ops : ListOf OpOf) × AllByRecursion (IsOpIn (history_of judge.now)) ops
        × IsOwnOf (history_of judge.now) upto ops own.now }
    ensures fits { IfOk result (λ fit. (upto : ℕ) (t : Transaction)
        → AllByRecursion (IsOpIn (history_of judge.now)) t.ops
        → IsOwnOf (history_of judge.now) upto t.ops own.now → t.mode ≡ by.mode
        → IsLineFit (history_of judge.now)
        (IsConflictTold (history_of judge.now) by.owner t conflict.now.key conflict.now.read conflict.now.touch) fit) }
    ensures plain { IfOk result IsPlainFit }
{
    let fits = conflict.fits(alloc, own, judge.store, judge.source.openings, by)?;
    Ok(fit_if(fits))
}
