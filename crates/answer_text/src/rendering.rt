ghost use Rattle.std.specs.Prelude.{◌≡◌, ◌++◌, IfOk, OnOk};
ghost use Rattle.answer_text.specs.Text.{answer_text};

use crate::answer::Answer;
use crate::before::put_before;
use crate::behind::put_behind;
use crate::members::put_around;
use crate::pieces::put;
use std::alloc::{AllocError, Global};

/// The line of an answer: compact JSON with its members in byte order, and an LF.
///
/// # Errors
/// An allocation failed.
pub fn render(alloc: Global, answer: &Answer) -> Result<Vec<u8>, AllocError>
    ensures { IfOk result (λ line. line.items ≡ answer_text answer.now) }
{
    let mut line = Vec::new(alloc);
    put_answer(alloc, &mut line, answer)?;
    Ok(line)
}

fn put_answer(alloc: Global, out: &mut Vec<u8>, answer: &Answer) -> Result<(), AllocError>
    ensures { OnOk result (out.new.items ≡ out.old.items ++ answer_text answer.now) }
{
    put(out, "{")?;
    put_before(alloc, out, &answer.body)?;
    put_around(out, "\"line\":", answer.line, "")?;
    put_behind(alloc, out, &answer.body)?;
    put(out, "}\n")
}
