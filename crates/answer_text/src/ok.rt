ghost use Rattle.std.specs.Prelude.{◌≡◌};
ghost use Rattle.answer_text.specs.Status.{is_ok_answer};

use crate::answer::{Answer, Body};

/// Whether the line did what it asks for.
pub fn is_ok(answer: &Answer) -> bool
    ensures { result ≡ is_ok_answer answer.now }
{
    match &answer.body {
        Body::Opened { .. }
        | Body::Viewed { .. }
        | Body::Values { .. }
        | Body::Staged { .. }
        | Body::Written { .. }
        | Body::Begun
        | Body::Committed { .. }
        | Body::Aborted
        | Body::Resized { .. }
        | Body::Resolved { .. } => true,
        _ => false,
    }
}
