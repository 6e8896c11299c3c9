// Answers to open lines.
ghost use Rattle.std.specs.Prelude.{◌≡◌, ◌<◌, Ok, Option, IfOk, length};
ghost use Rattle.history.specs.Acts.{opens};
ghost use Rattle.history.specs.Commit.{Transaction};
ghost use Rattle.open_fits.specs.Openings.{build_of, leaves_of};
ghost use Rattle.open_fits.specs.declared.opens.OpenFit.TheVariants as leaf;
ghost use Rattle.serde_json.specs.View.{view as data_in};
ghost use Rattle.transcript_fits.specs.Changing.{PrintsLine};
ghost use Rattle.transcript_fits.specs.Judges.{IsJudge, history_of};
ghost use Rattle.transcript_fits.specs.LineFits.{IsAnsweredSo, IsLineFit, MayBeAsked, answer_of_line};
ghost use Rattle.transcript_fits.specs.Openings.{IsOpening, IsOpeningFit, IsToldOpening, AreJudgedAlike};

use crate::judge::Judge;
use crate::line_fit::{LineFit, ToldLine};
use cells::{List, Name};
use open_fits::{OpenFit, OpenQuestion, OpenTold, fit_open, opened_is_unrefused};
use serde_json::Value;
use stated_history::OpenPlan;
use std::alloc::{AllocError, Global};

/// Whether the answer to the open line at a place is one that it may have.
///
/// # Errors
/// An allocation failed.
pub(crate) fn fit_opening(
    alloc: Global,
    judge: &Judge,
    line: ToldLine,
    place: usize,
    name: Name,
    plan: OpenPlan,
) -> Result<LineFit, AllocError>
    requires judge { IsJudge judge.now }
    requires line { PrintsLine (history_of judge.now) line }
    requires place { place < length judge.now.source.now.openings.now.takings }
    requires opening { IsOpening judge.now line place plan }
    ensures fits { IfOk result (λ fit. (t : Option Transaction) → IsLineFit (history_of judge.now)
        (IsAnsweredSo (history_of judge.now) line.entry t (Ok (opens name (leaves_of plan) (build_of plan)))) fit) }
    ensures asked { IfOk result (MayBeAsked (history_of judge.now)) }
    ensures opening { IfOk result (IsOpeningFit (answer_of_line line.entry)) }
{
    opened_is_unrefused();
    let read = line.answer.read(alloc)?;
    let answer = read.value();
    let takings = judge.source.openings.takings.items()[place].items();
    let told = told_opening(alloc, line, name)?;
    let fit = fit_open(alloc, plan, takings, judge.source.openings, told, answer)?;
    Ok(opening_fit(fit, answer))
}

// An open line as it is told.
fn told_opening(alloc: Global, line: ToldLine, name: Name) -> Result<OpenTold, AllocError>
    ensures { IfOk result (IsToldOpening line.entry name) }
{
    let numbers = Vec::from_slice(alloc, line.numbers.opened.items())?;
    let text = Vec::from_slice(alloc, line.text)?;
    Ok(OpenTold {
        line: line.line,
        name,
        from: line.window.from,
        upto: line.window.upto,
        numbers: List::wrap(numbers),
        failed: line.numbers.failed,
        text: List::wrap(text),
    })
}

// What is told of a line by what is told of its leaves.
fn opening_fit(fit: OpenFit, answer: &Value) -> LineFit
    ensures { AreJudgedAlike (data_in answer.now) fit result }
{
    match fit {
        OpenFit::Unfit => LineFit::Unfit,
        OpenFit::Fits => LineFit::Fits,
        OpenFit::IfRefused { question } => refused_fit(question, answer),
    }
}

// An answer that says that a view was opened refuses no leaf.
fn refused_fit(question: OpenQuestion, answer: &Value) -> LineFit
    ensures { AreJudgedAlike (data_in answer.now) (leaf.IfRefused question) result }
{
    match answer.get("open") {
        Some(_) => LineFit::Unfit,
        None => LineFit::IfRefused { question },
    }
}
