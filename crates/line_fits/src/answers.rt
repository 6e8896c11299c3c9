ghost use Rattle.std.specs.Prelude.{◌≡◌, ◌↔◌, ℕ, IfOk, IsTrue};
ghost use Rattle.serde_json.specs.Data.{Data};
ghost use Rattle.transcript_cut.specs.Text.{answer_text};
ghost use Rattle.transcript_cut.specs.Answers.{answer_data};
ghost use Rattle.transcript_cut.specs.AnswerLines.{IsAnswerText};

use crate::bodies::look_at_answer;
use std::alloc::{AllocError, Global};
use transcript_cut::{Answer, render};

/// Whether an answer is the one that a text tells, of a line of a transcript.
///
/// # Errors
/// `AllocError` where memory is wanting.
pub fn is_told(alloc: Global, answer: &Answer, text: &[u8]) -> Result<bool, AllocError>
    ensures { IfOk result (λ is. (number : ℕ) (d : Data) → IsAnswerText number text.now d
        → IsTrue is ↔ (text.now ≡ answer_text answer.now) × (d ≡ answer_data answer.now)) }
{
    look_at_answer(answer);
    is_rendered(alloc, answer, text)
}

fn is_rendered(alloc: Global, answer: &Answer, text: &[u8]) -> Result<bool, AllocError>
    ensures { IfOk result (λ is. IsTrue is ↔ (text.now ≡ answer_text answer.now)) }
{
    let line = render(alloc, answer)?;
    Ok(is_same(text, &line))
}

fn is_same(one: &[u8], other: &[u8]) -> bool
    ensures { IsTrue result ↔ (one.now ≡ other.now) }
{
    one == other
}
