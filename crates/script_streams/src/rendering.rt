// Logs as texts.
ghost use Rattle.std.specs.Prelude.{◌≡◌, ◌<◌, ℕ, length, IfOk, slice_index_or};
ghost use Rattle.answer_text.specs.Text.{text_of_log};

use answer_text::{Answer, render};
use cells::List;
use std::alloc::{AllocError, Global};
use std::thread;
use std::thread::Threads;

/// The lines of a log as one text, unless memory was wanting.
pub(crate) type Rendered = Result<Vec<u8>, AllocError>;

/// The texts of logs, each rendered in a thread of its own where one can be made. None where there are less than two, and none for want of
/// memory.
pub(crate) fn render_beside<R: Threads + Sync>(
    alloc: Global,
    rt: &R,
    logs: &[List<Answer>],
) -> Vec<Rendered>
    ensures { (k : ℕ) (d e : _) → k < length result.items
        → IfOk (slice_index_or result.items k d) (λ text. text.items ≡ text_of_log (slice_index_or logs.now k e)) }
{
    if logs.len() < 2 {
        return Vec::new(alloc);
    }
    match thread::map_indices(
        rt,
        alloc,
        logs.len(),
        &|place| { render_log(alloc, logs[place].items()) },
    ) {
        Ok(texts) => texts,
        Err(_) => Vec::new(alloc),
    }
}

/// The lines of a log, one after another.
fn render_log(alloc: Global, log: &[Answer]) -> Rendered
    ensures { IfOk result (λ text. text.items ≡ text_of_log log.now) }
{
    let mut text = Vec::new(alloc);
    for answer in log {
        let line = render(alloc, answer)?;
        text.extend_from_slice(line.as_slice())?;
    }
    Ok(text)
}
