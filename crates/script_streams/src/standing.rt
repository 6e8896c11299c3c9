// What all answers of a run say together.
ghost use Rattle.std.specs.Prelude.{◌≡◌};
ghost use Rattle.std.specs.List.{list_all, list_any};
ghost use Rattle.answer_text.specs.Status.{is_ok_answer};
ghost use Rattle.script_streams.specs.Standing.{are_all_ok, holds_memory, is_memory};

use answer_text::{Answer, Body, is_ok};
use cells::List;

/// Whether each line of each log did what it asks for.
pub fn are_all_ok(logs: &[List<Answer>]) -> bool
    ensures { result ≡ are_all_ok logs.now }
{
    logs.iter().all(|log| is_log_ok(log.items()))
}

fn is_log_ok(log: &[Answer]) -> bool
    ensures { result ≡ list_all is_ok_answer log.now }
{
    log.iter().all(|answer| is_ok(answer))
}

/// Whether an answer of some log is want of memory.
pub fn has_memory(logs: &[List<Answer>]) -> bool
    ensures { result ≡ holds_memory logs.now }
{
    logs.iter().any(|log| is_log_cut(log.items()))
}

fn is_log_cut(log: &[Answer]) -> bool
    ensures { result ≡ list_any is_memory log.now }
{
    log.iter().any(|answer| is_cut(answer))
}

fn is_cut(answer: &Answer) -> bool
    ensures { result ≡ is_memory answer.now }
{
    matches!(answer.body, Body::Memory)
}
