// Lines whose answer depends on no event but those that they state.
ghost use Rattle.std.specs.Prelude.{◌≡◌, ◌≢◌, ◌↔◌, ◌∷◌, [], ℕ, None, Option, length, IfOk, IfSome, IfNone, IsTrue};
ghost use Rattle.serde_json.specs.Data.{Data};
ghost use Rattle.transcript_cut.specs.Answers.{answer_data};
ghost use Rattle.transcript_cut.specs.Text.{answer_text};
ghost use Rattle.transcript_cut.specs.AnswerLines.{IsAnswerText};
ghost use Rattle.history.specs.Acts.{Asked};
ghost use Rattle.history.specs.Answers.{Body as BodyOf, store_failed};
ghost use Rattle.history.specs.Commit.{Transaction};
ghost use Rattle.history.specs.History.{History};
ghost use Rattle.transcript_cut.specs.Fitting.{printed_at};
ghost use Rattle.transcript_cut.specs.ToldNumbers.{done_in, failed_in, single};
ghost use Rattle.transcript_cut.specs.Windows.{Window};
ghost use Rattle.line_fits.specs.Fits.{IsAnsweredBy};
ghost use Rattle.line_fits.specs.OneAnswer.{HasOneAnswer, IsCommitted, IsFailedBehind, IsWritten};

use crate::answers::is_told;
use cells::List;
use std::alloc::{AllocError, Global};
use transcript_cut::{Answer, Body};

/// Whether a line is answered as it has to be, where it is refused, binds a view, stages a write, or begins or aborts a transaction: this
/// is then the only answer that it may have.
///
/// # Errors
/// `AllocError` where memory is wanting.
pub fn is_answered(alloc: Global, answer: &Answer, text: &[u8]) -> Result<bool, AllocError>
    ensures { IfOk result (λ is. (number : ℕ) (d : Data) → IsAnswerText number text.now d
        → (history : History) (owner : ℕ) (w : Window) (t : Option Transaction) (asked : Asked) (body : BodyOf)
        → HasOneAnswer asked body → answer.now ≡ printed_at answer.now.line body
        → IsTrue is ↔ IsAnsweredBy history owner w t answer.now.line asked text.now d) }
{
    is_told(alloc, answer, text)
}

/// Whether a write of so many cells outside of a transaction is answered by one event that it did, where the answer prints these numbers of
/// events that were done.
///
/// # Errors
/// `AllocError` where memory is wanting.
pub fn is_written(
    alloc: Global,
    line: u64,
    cells: u64,
    done: &[u64],
    text: &[u8],
) -> Result<bool, AllocError>
    ensures { IfOk result (λ is. (number : ℕ) (d : Data) → IsAnswerText number text.now d → done_in d ≡ done.now
        → IsTrue is ↔ IsWritten cells line text.now d) }
{
    match only_one(done) {
        Some(number) => is_told_written(alloc, line, cells, number, text),
        None => Ok(false),
    }
}

fn is_told_written(
    alloc: Global,
    line: u64,
    cells: u64,
    number: u64,
    text: &[u8],
) -> Result<bool, AllocError>
    ensures { IfOk result (λ is. (n : ℕ) (d : Data) → IsAnswerText n text.now d → done_in d ≡ number ∷ []
        → IsTrue is ↔ IsWritten cells line text.now d) }
{
    let events = one_event(alloc, number)?;
    is_told_body(alloc, line, Body::Written { cells, events }, text)
}

/// Whether a commit is answered by one event that it did, where the answer prints these numbers of events that were done.
///
/// # Errors
/// `AllocError` where memory is wanting.
pub fn is_committed(alloc: Global, line: u64, done: &[u64], text: &[u8]) -> Result<bool, AllocError>
    ensures { IfOk result (λ is. (number : ℕ) (d : Data) → IsAnswerText number text.now d → done_in d ≡ done.now
        → IsTrue is ↔ IsCommitted line text.now d) }
{
    match only_one(done) {
        Some(number) => is_told_committed(alloc, line, number, text),
        None => Ok(false),
    }
}

fn is_told_committed(alloc: Global, line: u64, number: u64, text: &[u8]) -> Result<bool, AllocError>
    ensures { IfOk result (λ is. (n : ℕ) (d : Data) → IsAnswerText n text.now d → done_in d ≡ number ∷ []
        → IsTrue is ↔ IsCommitted line text.now d) }
{
    let events = one_event(alloc, number)?;
    is_told_body(alloc, line, Body::Committed { events }, text)
}

/// Behind how many events a store call failed, where a write or a commit is answered so and the answer prints this number of a failure;
/// `None` where it isn't answered so.
///
/// # Errors
/// `AllocError` where memory is wanting.
pub fn failed_behind(
    alloc: Global,
    line: u64,
    failed: Option<u64>,
    text: &[u8],
) -> Result<Option<u64>, AllocError>
    ensures { IfOk result (λ behind. (number : ℕ) (d : Data) → IsAnswerText number text.now d
        → failed_in d ≡ single failed
        → IsFailedBehind behind line text.now d) }
{
    match failed {
        Some(event) => failed_at(alloc, line, event, text),
        None => Ok(None),
    }
}

fn failed_at(alloc: Global, line: u64, event: u64, text: &[u8]) -> Result<Option<u64>, AllocError>
    ensures { IfOk result (λ behind. (number : ℕ) (d : Data) → IsAnswerText number text.now d → failed_in d ≡ event ∷ []
        → IsFailedBehind behind line text.now d) }
{
    if event == 0 {
        return Ok(None);
    }
    if !is_told_failed(alloc, line, event, text)? {
        return Ok(None);
    }
    Ok(Some(event - 1))
}

fn is_told_failed(alloc: Global, line: u64, event: u64, text: &[u8]) -> Result<bool, AllocError>
    ensures { IfOk result (λ is. (number : ℕ) (d : Data) → IsAnswerText number text.now d
        → IsTrue is ↔ (text.now ≡ answer_text (printed_at line (store_failed event [] None)))
        × (d ≡ answer_data (printed_at line (store_failed event [] None)))) }
{
    let done = List::wrap(Vec::new(alloc));
    let body = Body::StoreFailed {
        event,
        done,
        events: None,
    };
    is_told_body(alloc, line, body, text)
}

fn is_told_body(alloc: Global, line: u64, body: Body, text: &[u8]) -> Result<bool, AllocError>
    ensures { IfOk result (λ is. (number : ℕ) (d : Data) → IsAnswerText number text.now d
        → IsTrue is ↔ (text.now ≡ answer_text (record { line = line; body = body }))
        × (d ≡ answer_data (record { line = line; body = body }))) }
{
    let answer = Answer { line, body };
    is_told(alloc, &answer, text)
}

fn one_event(alloc: Global, number: u64) -> Result<List<u64>, AllocError>
    ensures { IfOk result (λ events. events ≡ number ∷ []) }
{
    Ok(List::wrap(vec![in alloc; number; 1]?))
}

// The number of a list that has no other.
fn only_one(numbers: &[u64]) -> Option<u64>
    ensures some { IfSome result (λ number. numbers.now ≡ number ∷ []) }
    ensures none { IfNone result (length numbers.now ≢ 1) }
{
    if numbers.len() == 1 {
        Some(numbers[0])
    } else {
        None
    }
}
