// Answers to reads.
ghost use Rattle.std.specs.Prelude.{◌≡◌, None, Ok, Option, IfOk};
ghost use Rattle.history.specs.Acts.{reads};
ghost use Rattle.history.specs.Commit.{Transaction};
ghost use Rattle.history.specs.Sessions.{reader};
ghost use Rattle.open_fits.specs.Fitting.{IsFetched};
ghost use Rattle.transcript_fits.specs.Judges.{IsJudge, history_of};
ghost use Rattle.transcript_fits.specs.LineFits.{IsAnsweredSo, IsLineFit, IsPlainFit, MayBeAsked};
ghost use Rattle.transcript_fits.specs.Readings.{IsReading, IsReadingFit};

use crate::judge::Judge;
use crate::line_fit::{LineFit, ToldLine, fit_if};
use open_fits::{Own, ReadFit, Spot, fit_read, is_fetched};
use stack_driver::View;
use std::alloc::{AllocError, Global};

/// Whether the answer to a read of the view is one that it may have, by what its transaction has.
///
/// # Errors
/// An allocation failed.
pub(crate) fn fit_reading(
    alloc: Global,
    judge: &Judge,
    own: &Own,
    line: ToldLine,
    view: &View,
) -> Result<LineFit, AllocError>
    requires judge { IsJudge judge.now }
    requires reading { (t : Option Transaction) × IsReading judge.now line t view.now own.now }
    ensures fits { IfOk result (λ fit. (t : Option Transaction) → IsReading judge.now line.entry t view.now own.now
        → IsLineFit (history_of judge.now) (IsAnsweredSo (history_of judge.now) line.entry t (Ok (reads view.now None)))
        fit) }
    ensures asked { IfOk result (MayBeAsked (history_of judge.now)) }
    ensures reading { IfOk result IsReadingFit }
{
    let values = line.answer.values(alloc)?;
    match fit_read(alloc, own, view, spot_of(line), line.text, values.get()) {
        Ok(ReadFit::Unfit) => Ok(LineFit::Unfit),
        Ok(ReadFit::IfFetched) => fit_fetched(alloc, judge, own, line, view),
        Ok(ReadFit::IfMet { waiting }) => Ok(LineFit::IfMet { waiting }),
        Err(e) => Err(e),
    }
}

fn spot_of(line: ToldLine) -> Spot
    ensures line { result.line ≡ line.entry.line }
    ensures from { result.from ≡ line.entry.window.from }
    ensures upto { result.upto ≡ line.entry.window.upto }
    ensures failed { result.failed ≡ line.entry.numbers.now.failed }
{
    Spot {
        line: line.line,
        from: line.window.from,
        upto: line.window.upto,
        failed: line.numbers.failed,
    }
}

// Whether a read calls the store.
fn fit_fetched(
    alloc: Global,
    judge: &Judge,
    own: &Own,
    line: ToldLine,
    view: &View,
) -> Result<LineFit, AllocError>
    requires judge { IsJudge judge.now }
    requires reading { (t : Option Transaction) × IsReading judge.now line t view.now own.now }
    ensures fits { IfOk result (λ fit. (t : Option Transaction) → IsReading judge.now line.entry t view.now own.now
        → IsLineFit (history_of judge.now) (IsFetched (history_of judge.now) (reader line.entry.line t) view.now) fit) }
    ensures plain { IfOk result IsPlainFit }
{
    let fetched = is_fetched(alloc, own, view, judge.source.openings)?;
    Ok(fit_if(fetched))
}
