// Which answers fit a read.
ghost use Rattle.std.specs.Prelude.{◌≡◌, ◌↔◌, [], ℕ, Option, Some, None, Ok, IfOk, OnOk, IsTrue, length, option_map};
ghost use Rattle.serde_json.specs.Data.{Data};
ghost use Rattle.serde_json.specs.View.{view as data_in};
ghost use Rattle.line_fits.specs.AnswerLines.{IsAnswerText};
ghost use Rattle.line_fits.specs.Answers.{answer_data};
ghost use Rattle.line_fits.specs.Text.{answer_text};
ghost use Rattle.line_fits.specs.declared.Body.TheVariants as printed;
ghost use Rattle.line_fits.specs.Pieces.{CanLocate};
ghost use Rattle.history.specs.Commit.{Transaction};
ghost use Rattle.history.specs.History.{History};
ghost use Rattle.index_transform.specs.Cells.{cells_of, count_answer};
ghost use Rattle.stack_driver.specs.Views.{look_of};
ghost use Rattle.transaction_cells.specs.Operations.{HasSites};
ghost use Rattle.transaction_cells.specs.Pieces.{AreCells};
ghost use Rattle.transaction_cells.specs.Sites.{sites_of};
ghost use Rattle.read_fits.specs.declared.spot.Spot.{Spot as SpotOf};
ghost use Rattle.read_fits.specs.declared.reads.ReadFit.TheVariants as fit;
ghost use Rattle.read_fits.specs.ReadFits.{AreFitFailures, AreFitValues, AreFitsOf, AreSeenFits, AreToldWords, IsReadOf, IsTextOf, IsTextOrNot};

use crate::own::Own;
use crate::spot::Spot;
use crate::values::{has_room, values_of};
use cells::{List, Words, copy_sizes};
use line_fits::{Answer, Body, Demand, Waiting, demand_of, is_told};
use serde_json::Value;
use stack_driver::{View, transform_of};
use stack_targets::TargetsError;
use stated_arrays::words_told;
use std::alloc::{AllocError, Global};
use transaction_cells::{Staging, ViewCells, locate};

/// Whether an answer fits a read.
#[derive(Debug, Drop)]
pub enum ReadFit {
    /// It doesn't.
    Unfit,
    /// It tells of a failed store call: it does where the read needs a stored chunk that no earlier one named.
    IfFetched,
    /// It does where what is waited for is met.
    IfMet { waiting: Waiting },
}

/// Whether an answer with these values, or without any, fits a read of the view, by what its transaction has; outside of one that is of no operation. The time is that of the
/// view's cells and of the text.
///
/// # Errors
/// `AllocError` where memory is wanting.
pub fn fit_read(
    alloc: Global,
    own: &Own,
    view: &View,
    spot: Spot,
    text: &[u8],
    values: Option<&Value>,
) -> Result<ReadFit, AllocError>
    requires { (history : History) × (t : Option Transaction) × IsReadOf history spot t view.now own.now.staging }
    ensures { IfOk result (AreFitsOf spot view.now own.now.staging text.now
        (option_map (λ v. data_in v.now) values.entry)) }
{
    match values {
        Some(values) => fit_values(alloc, &own.staging, view, spot, text, values),
        None => fit_failure(alloc, spot, text),
    }
}

// Whether an answer without values fits a read: one that tells of a failed store call.
fn fit_failure(alloc: Global, spot: Spot, text: &[u8]) -> Result<ReadFit, AllocError>
    ensures { IfOk result (AreFitFailures spot text.now) }
{
    match spot.failed {
        Some(event) => failure_at(alloc, spot.line, event, text),
        None => Ok(ReadFit::Unfit),
    }
}

// The same where it prints the number of a failed store call.
fn failure_at(alloc: Global, line: u64, event: u64, text: &[u8]) -> Result<ReadFit, AllocError>
    ensures { IfOk result (λ fit. (spot : SpotOf) → spot.line ≡ line → spot.failed ≡ Some event
        → AreFitFailures spot text.now fit) }
{
    if event == 0 {
        return Ok(ReadFit::Unfit);
    }
    let told = is_failure(alloc, line, event, text)?;
    if told {
        Ok(ReadFit::IfFetched)
    } else {
        Ok(ReadFit::Unfit)
    }
}

// Whether the text is that of the answer to a read whose store call failed.
fn is_failure(alloc: Global, line: u64, event: u64, text: &[u8]) -> Result<bool, AllocError>
    ensures { IfOk result (λ is. (number : ℕ) (d : Data) → IsAnswerText number text.now d → IsTrue is
        ↔ ((text.now ≡ answer_text (record { line = line; body = printed.StoreFailed event [] None }))
        × (d ≡ answer_data (record { line = line; body = printed.StoreFailed event [] None })))) }
{
    let answer = Answer {
        line,
        body: failed_body(alloc, event),
    };
    is_told(alloc, &answer, text)
}

// The answer to a read whose store call failed.
fn failed_body(alloc: Global, event: u64) -> Body
    ensures { result ≡ printed.StoreFailed event [] None }
{
    Body::StoreFailed {
        event,
        done: List::wrap(Vec::new(alloc)),
        events: None,
    }
}

// Whether an answer with these values fits a read of the view, of whose transaction this is staged.
fn fit_values(
    alloc: Global,
    staging: &Staging,
    view: &View,
    spot: Spot,
    text: &[u8],
    values: &Value,
) -> Result<ReadFit, AllocError>
    requires { (history : History) × (t : Option Transaction) × IsReadOf history spot t view.now staging.now }
    ensures { IfOk result (AreFitValues spot view.now staging.now text.now (data_in values.now)) }
{
    let told = told_words(alloc, view, spot.line, text, values)?;
    match told {
        Some(words) => fit_words(alloc, staging, view, spot, words.items()),
        None => Ok(ReadFit::Unfit),
    }
}

// The words of the view that the text may tell.
fn told_words(
    alloc: Global,
    view: &View,
    line: u64,
    text: &[u8],
    values: &Value,
) -> Result<Option<Words>, AllocError>
    requires { count_answer (look_of view.now).dims ≡ Ok (length (cells_of (look_of view.now).dims)) }
    ensures { IfOk result (AreToldWords view.now line text.now (data_in values.now)) }
{
    if !has_room(alloc, view, text.len())? {
        return Ok(None);
    }
    words_in(alloc, view, line, text, values)
}

// The same of a text that has room for the view's lists.
fn words_in(
    alloc: Global,
    view: &View,
    line: u64,
    text: &[u8],
    values: &Value,
) -> Result<Option<Words>, AllocError>
    requires { count_answer (look_of view.now).dims ≡ Ok (length (cells_of (look_of view.now).dims)) }
    ensures { IfOk result (AreToldWords view.now line text.now (data_in values.now)) }
{
    let words = words_told(alloc, view, values)?;
    if !has_count(view, words.items()) {
        return Ok(None);
    }
    told_or_not(alloc, view, line, text, words)
}

// Whether there is a word for each cell.
fn has_count(view: &View, words: &[u64]) -> bool
    requires { count_answer (look_of view.now).dims ≡ Ok (length (cells_of (look_of view.now).dims)) }
    ensures { IsTrue result ↔ (length words.now ≡ length (cells_of (look_of view.now).dims)) }
{
    match transform_of(view).count() {
        Ok(count) => words.len() as u64 == count,
        Err(_) => unreachable!(),
    }
}

// The words, where the text is that of an answer with them.
fn told_or_not(
    alloc: Global,
    view: &View,
    line: u64,
    text: &[u8],
    words: Words,
) -> Result<Option<Words>, AllocError>
    ensures { IfOk result (IsTextOrNot view.now line text.now words) }
{
    let copy = copied(alloc, words.items())?;
    let same = is_text_of(alloc, view, line, text, copy)?;
    if same { Ok(Some(words)) } else { Ok(None) }
}

fn copied(alloc: Global, words: &[u64]) -> Result<Words, AllocError>
    ensures { IfOk result (λ copy. copy ≡ words.now) }
{
    let sizes = copy_sizes(alloc, words)?;
    Ok(Words::wrap(sizes.into_inner()))
}

// Whether the text is that of an answer with these words.
fn is_text_of(
    alloc: Global,
    view: &View,
    line: u64,
    text: &[u8],
    words: Words,
) -> Result<bool, AllocError>
    ensures { IfOk result (λ is. (d : Data) → IsAnswerText line text.now d
        → IsTrue is ↔ IsTextOf view.now line text.now d words) }
{
    let body = values_of(alloc, view, words)?;
    let answer = Answer { line, body };
    is_told(alloc, &answer, text)
}

// Whether the transaction sees these words.
fn fit_words(
    alloc: Global,
    staging: &Staging,
    view: &View,
    spot: Spot,
    words: &[u64],
) -> Result<ReadFit, AllocError>
    requires read { (history : History) × (t : Option Transaction) × IsReadOf history spot t view.now staging.now }
    requires count { length words.now ≡ length (cells_of (look_of view.now).dims) }
    ensures { IfOk result (AreSeenFits spot view.now staging.now words.now) }
{
    if spot.from > spot.upto {
        return Ok(ReadFit::Unfit);
    }
    let cells = located(alloc, view)?;
    let found = demand_of(alloc, cells, staging, words)?;
    match found {
        Some(demand) => Ok(waiting_for(spot, demand)),
        None => Ok(ReadFit::Unfit),
    }
}

fn waiting_for(spot: Spot, demand: Demand) -> ReadFit
    ensures { result ≡ fit.IfMet (record { from = spot.from; upto = spot.upto; demand = demand }) }
{
    ReadFit::IfMet {
        waiting: Waiting {
            from: spot.from,
            upto: spot.upto,
            demand,
        },
    }
}

// Where the cells of a view lie by chunks.
pub(crate) fn located(alloc: Global, view: &View) -> Result<ViewCells, AllocError>
    requires { CanLocate view.now }
    ensures cells { IfOk result (λ cells. AreCells (sites_of view.now) cells) }
    ensures sites { OnOk result (HasSites view.now) }
{
    match locate(alloc, view) {
        Ok(cells) => Ok(cells),
        Err(TargetsError::Memory) => Err(AllocError),
        Err(_) => unreachable!(),
    }
}
