// All logs of a run, in pieces.
ghost use Rattle.std.specs.Prelude.{◌≡◌, ◌<◌, ◌++◌, [], Some, IfOk, OnOk, IsErr, IsErrOf, length, slice_index_or};
ghost use Rattle.answer_text.specs.Text.{answer_text, text_of_log};
ghost use Rattle.kv_face.specs.Streams.{WhereTold, Rises, IsPartOf};
ghost use Rattle.script_streams.specs.Writing.{text_of_logs, IsUnderWay};
ghost use Rattle.script_streams.specs.Putting.{IsPutting};

use crate::rendering::{Rendered, render_beside};
use crate::writer::Writer;
use answer_text::{Answer, render};
use cells::List;
use kv_face::Failed;
use std::alloc::{AllocError, Global};
use std::thread::Threads;
use thiserror::Error;

// The bytes that wait to be written together.
const PIECE: usize = 1 << 16;

/// Why logs were not written whole. A front part of their text was.
#[derive(Clone, Copy, Debug, PartialEq, Eq, Error)]
pub enum Unwritten {
    /// The sink failed. Its count of faults rose, unless it stands at its last value.
    #[error("the answers can't be written")]
    Failed,
    #[error("out of memory")]
    Memory,
}

impl From<AllocError> for Unwritten {
    ghost use Rattle.script_streams.specs.declared.writing.Unwritten.TheVariants as unwritten;

    ghost from_gives = { λ _ e. e ≡ unwritten.Memory };

    fn from(_: AllocError) -> Self {
        Unwritten::Memory
    }
}

impl From<Failed> for Unwritten {
    ghost use Rattle.script_streams.specs.declared.writing.Unwritten.TheVariants as unwritten;

    ghost from_gives = { λ _ e. e ≡ unwritten.Failed };

    fn from(_: Failed) -> Self {
        Unwritten::Failed
    }
}

/// Writes the lines of all answers, log after log. They are written in pieces of 64 KiB and less; a longer line is one piece.
///
/// # Errors
/// `Failed` where the sink failed, or `Memory`, whichever comes first.
pub fn write_logs<O: Writer>(
    alloc: Global,
    sink: &mut O,
    logs: &[List<Answer>],
) -> Result<(), Unwritten>
    // The whole text stands behind what was there.
    ensures all { OnOk result (WhereTold (O.content sink.old) (λ before.
        O.content sink.new ≡ Some (before ++ text_of_logs logs.now))) }
    // In every case a front part of the text was written, and nothing else.
    ensures part { WhereTold (O.content sink.old) (λ before.
        IsPartOf (O.content sink.new) before (text_of_logs logs.now)) }
    // The sink fails only where its count of faults rose.
    ensures faults { Rises (O.faults sink.old) (O.faults sink.new) (IsErrOf result Unwritten.Failed) }
    // The text is given in pieces, each once and none behind the first that wasn't taken; the answer is by these.
    ensures run { IsPutting O.takes sink.old (text_of_logs logs.now) result [] sink.new }
{
    let mut waiting = Vec::with_capacity(alloc, PIECE)?;
    for log in logs {
        put_log(alloc, sink, &mut waiting, log.items())?;
    }
    write_waiting(sink, &mut waiting)
}

/// Writes the lines of all answers, log after log, as `write_logs` does, and renders so many logs beside each other before they are written,
/// each in a thread of its own where one can be made. What was rendered of a log is one piece where it is longer than 64 KiB; a log that memory
/// is wanting for is rendered as it is written.
///
/// # Errors
/// `Failed` where the sink failed, or `Memory`, whichever comes first.
pub fn write_logs_beside<O: Writer, R: Threads + Sync>(
    alloc: Global,
    rt: &R,
    threads: usize,
    sink: &mut O,
    logs: &[List<Answer>],
) -> Result<(), Unwritten>
    requires threads { 0 < threads }
    // As `write_logs` says, whatever the number of threads.
    ensures all { OnOk result (WhereTold (O.content sink.old) (λ before.
        O.content sink.new ≡ Some (before ++ text_of_logs logs.now))) }
    ensures part { WhereTold (O.content sink.old) (λ before.
        IsPartOf (O.content sink.new) before (text_of_logs logs.now)) }
    ensures faults { Rises (O.faults sink.old) (O.faults sink.new) (IsErrOf result Unwritten.Failed) }
    ensures run { IsPutting O.takes sink.old (text_of_logs logs.now) result [] sink.new }
{
    let mut waiting = Vec::with_capacity(alloc, PIECE)?;
    let mut from = 0;
    while from < logs.len() {
        let count = threads.min(logs.len() - from);
        put_logs(alloc, rt, sink, &mut waiting, &logs[from..from + count])?;
        from += count;
    }
    write_waiting(sink, &mut waiting)
}

// Puts the lines of logs behind what waits, rendered beside each other where they are several.
fn put_logs<O: Writer, R: Threads + Sync>(
    alloc: Global,
    rt: &R,
    sink: &mut O,
    waiting: &mut Vec<u8>,
    logs: &[List<Answer>],
) -> Result<(), Unwritten>
    ensures put { OnOk result (WhereTold (O.content sink.old) (λ before.
        IsUnderWay (O.content sink.new) before (waiting.old.items ++ text_of_logs logs.now) waiting.new.items)) }
    ensures part { WhereTold (O.content sink.old) (λ before.
        IsPartOf (O.content sink.new) before (waiting.old.items ++ text_of_logs logs.now)) }
    ensures faults { Rises (O.faults sink.old) (O.faults sink.new) (IsErrOf result Unwritten.Failed) }
    ensures run { IsPutting O.takes sink.old
        (waiting.old.items ++ text_of_logs logs.now) result waiting.new.items sink.new }
{
    let texts = render_beside(alloc, rt, logs);
    for place in 0..logs.len() {
        put_rendered(alloc, sink, waiting, &texts, place, &logs[place])?;
    }
    Ok(())
}

// Puts the lines of a log behind what waits, by its text where there is one at its place.
fn put_rendered<O: Writer>(
    alloc: Global,
    sink: &mut O,
    waiting: &mut Vec<u8>,
    texts: &[Rendered],
    place: usize,
    log: &List<Answer>,
) -> Result<(), Unwritten>
    requires { (d : _) → place < length texts.now
        → IfOk (slice_index_or texts.now place d) (λ text. text.items ≡ text_of_log log.now) }
    ensures put { OnOk result (WhereTold (O.content sink.old) (λ before.
        IsUnderWay (O.content sink.new) before (waiting.old.items ++ text_of_log log.now) waiting.new.items)) }
    ensures part { WhereTold (O.content sink.old) (λ before.
        IsPartOf (O.content sink.new) before (waiting.old.items ++ text_of_log log.now)) }
    ensures faults { Rises (O.faults sink.old) (O.faults sink.new) (IsErrOf result Unwritten.Failed) }
    ensures run { IsPutting O.takes sink.old
        (waiting.old.items ++ text_of_log log.now) result waiting.new.items sink.new }
{
    if place < texts.len() {
        if let Ok(text) = &texts[place] {
            return put_line(sink, waiting, text.as_slice());
        }
    }
    put_log(alloc, sink, waiting, log.items())
}

// Puts the lines of a log behind what waits.
fn put_log<O: Writer>(
    alloc: Global,
    sink: &mut O,
    waiting: &mut Vec<u8>,
    log: &[Answer],
) -> Result<(), Unwritten>
    ensures put { OnOk result (WhereTold (O.content sink.old) (λ before.
        IsUnderWay (O.content sink.new) before (waiting.old.items ++ text_of_log log.now) waiting.new.items)) }
    ensures part { WhereTold (O.content sink.old) (λ before.
        IsPartOf (O.content sink.new) before (waiting.old.items ++ text_of_log log.now)) }
    ensures faults { Rises (O.faults sink.old) (O.faults sink.new) (IsErrOf result Unwritten.Failed) }
    ensures run { IsPutting O.takes sink.old
        (waiting.old.items ++ text_of_log log.now) result waiting.new.items sink.new }
{
    for answer in log {
        put_answer(alloc, sink, waiting, answer)?;
    }
    Ok(())
}

fn put_answer<O: Writer>(
    alloc: Global,
    sink: &mut O,
    waiting: &mut Vec<u8>,
    answer: &Answer,
) -> Result<(), Unwritten>
    ensures put { OnOk result (WhereTold (O.content sink.old) (λ before.
        IsUnderWay (O.content sink.new) before (waiting.old.items ++ answer_text answer.now) waiting.new.items)) }
    ensures part { WhereTold (O.content sink.old) (λ before.
        IsPartOf (O.content sink.new) before (waiting.old.items ++ answer_text answer.now)) }
    ensures faults { Rises (O.faults sink.old) (O.faults sink.new) (IsErrOf result Unwritten.Failed) }
    ensures run { IsPutting O.takes sink.old
        (waiting.old.items ++ answer_text answer.now) result waiting.new.items sink.new }
{
    let line = render(alloc, answer)?;
    put_line(sink, waiting, line.as_slice())
}

// Puts a line behind what waits, which is written first where both together are more than a piece.
fn put_line<O: Writer>(sink: &mut O, waiting: &mut Vec<u8>, line: &[u8]) -> Result<(), Unwritten>
    ensures put { OnOk result (WhereTold (O.content sink.old) (λ before.
        IsUnderWay (O.content sink.new) before (waiting.old.items ++ line.now) waiting.new.items)) }
    ensures part { WhereTold (O.content sink.old) (λ before.
        IsPartOf (O.content sink.new) before (waiting.old.items ++ line.now)) }
    ensures faults { Rises (O.faults sink.old) (O.faults sink.new) (IsErrOf result Unwritten.Failed) }
    ensures run { IsPutting O.takes sink.old (waiting.old.items ++ line.now) result waiting.new.items sink.new }
{
    if waiting.len() + line.len() <= PIECE {
        waiting.extend_from_slice(line)?;
        return Ok(());
    }
    write_waiting(sink, waiting)?;
    put_alone(sink, waiting, line)
}

// Puts a line where nothing waits: what is more than a piece is written.
fn put_alone<O: Writer>(sink: &mut O, waiting: &mut Vec<u8>, line: &[u8]) -> Result<(), Unwritten>
    requires { waiting.old.items ≡ [] }
    ensures put { OnOk result (WhereTold (O.content sink.old) (λ before.
        IsUnderWay (O.content sink.new) before line.now waiting.new.items)) }
    ensures part { WhereTold (O.content sink.old) (λ before. IsPartOf (O.content sink.new) before line.now) }
    ensures faults { Rises (O.faults sink.old) (O.faults sink.new) (IsErrOf result Unwritten.Failed) }
    ensures run { IsPutting O.takes sink.old line.now result waiting.new.items sink.new }
{
    if line.len() <= PIECE {
        waiting.extend_from_slice(line)?;
        return Ok(());
    }
    sink.put(line)?;
    Ok(())
}

// Writes what waits.
fn write_waiting<O: Writer>(sink: &mut O, waiting: &mut Vec<u8>) -> Result<(), Unwritten>
    ensures all { OnOk result (WhereTold (O.content sink.old) (λ before.
        O.content sink.new ≡ Some (before ++ waiting.old.items))) }
    ensures none { OnOk result (waiting.new.items ≡ []) }
    ensures part { WhereTold (O.content sink.old) (λ before. IsPartOf (O.content sink.new) before waiting.old.items) }
    ensures faults { Rises (O.faults sink.old) (O.faults sink.new) (IsErrOf result Unwritten.Failed) }
    ensures run { IsPutting O.takes sink.old waiting.old.items result [] sink.new }
{
    sink.put(waiting.as_slice())?;
    waiting.clear();
    Ok(())
}
