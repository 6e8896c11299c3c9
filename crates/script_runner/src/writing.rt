// The status of a run whose sessions were started, and what is written of it.
ghost use Rattle.std.specs.Prelude.{◌≡◌, ◌≢◌, ◌≤◌, ◌<◌, ◌⊎◌, ◌&&◌, ◌++◌, [], Some, true, false, OnOk, IsErrOf, if◌then◌else◌};
ghost use Rattle.kv_face.specs.Streams.{WhereTold, Rises, IsPartOf};
ghost use Rattle.made_scripts.specs.Summary.{summary_text};
ghost use Rattle.script_runner.specs.Promises.{HasAnswers, IsPut, is_empty, text_of};
ghost use Rattle.script_streams.specs.Putting.{IsPutting};
ghost use Rattle.script_streams.specs.Standing.{are_all_ok, holds_memory};

use cells::List;
use made_scripts::summary;
use output_laws::{Answer, Event};
use script_streams::{Unwritten, Writer, are_all_ok, has_memory, write_logs_beside};
use std::alloc::Global;
use std::thread::Threads;

/// What is written of a run: the answers of all sessions, or one line about them.
#[derive(Clone, Copy)]
pub(crate) enum Report {
    Answers,
    Summary,
}

/// Writes what is to be told of a run, unless a session ended without an answer to a line, and tells the status.
pub(crate) fn status_of<O: Writer, R: Threads + Sync>(
    alloc: Global,
    rt: &R,
    workers: u32,
    sink: &mut O,
    report: Report,
    logs: &[List<Answer>],
    history: &[Event],
    whole: bool,
    unfinished: &[u32],
) -> u8
    requires workers { 0 < workers }
    ensures known { (result ≤ 5) × (result ≢ 2) × (result ≢ 3) }
    ensures status { HasAnswers result → result ≡ (if are_all_ok logs.now && is_empty unfinished.now then 0 else 1) }
    ensures answers { HasAnswers result → holds_memory logs.now ≡ false }
    ensures full { result ≢ 5 → whole ≡ true }
    ensures silent { whole ≡ false → sink.new ≡ sink.old }
    ensures put { IsPut O.takes sink.old (text_of report logs.now history.now) result sink.new }
    ensures written { HasAnswers result → WhereTold (O.content sink.old) (λ before.
        O.content sink.new ≡ Some (before ++ text_of report logs.now history.now)) }
    ensures part { WhereTold (O.content sink.old) (λ before.
        IsPartOf (O.content sink.new) before (text_of report logs.now history.now)) }
    ensures unwritten { Rises (O.faults sink.old) (O.faults sink.new) (result ≡ 4) }
{
    if !whole {
        return 5;
    }
    match write_report(alloc, rt, workers, sink, report, logs, history) {
        Ok(()) => status_by(logs, unfinished),
        Err(Unwritten::Failed) => 4,
        Err(Unwritten::Memory) => 5,
    }
}

fn write_report<O: Writer, R: Threads + Sync>(
    alloc: Global,
    rt: &R,
    workers: u32,
    sink: &mut O,
    report: Report,
    logs: &[List<Answer>],
    history: &[Event],
) -> Result<(), Unwritten>
    requires workers { 0 < workers }
    ensures all { OnOk result (WhereTold (O.content sink.old) (λ before.
        O.content sink.new ≡ Some (before ++ text_of report logs.now history.now))) }
    ensures part { WhereTold (O.content sink.old) (λ before.
        IsPartOf (O.content sink.new) before (text_of report logs.now history.now)) }
    ensures faults { Rises (O.faults sink.old) (O.faults sink.new) (IsErrOf result Unwritten.Failed) }
    ensures run { IsPutting O.takes sink.old (text_of report logs.now history.now) result [] sink.new }
{
    match report {
        Report::Answers => write_logs_beside(alloc, rt, workers as usize, sink, logs),
        Report::Summary => write_summary(alloc, sink, logs, history),
    }
}

fn write_summary<O: Writer>(
    alloc: Global,
    sink: &mut O,
    logs: &[List<Answer>],
    history: &[Event],
) -> Result<(), Unwritten>
    ensures all { OnOk result (WhereTold (O.content sink.old) (λ before.
        O.content sink.new ≡ Some (before ++ summary_text logs.now history.now))) }
    ensures part { WhereTold (O.content sink.old) (λ before.
        IsPartOf (O.content sink.new) before (summary_text logs.now history.now)) }
    ensures faults { Rises (O.faults sink.old) (O.faults sink.new) (IsErrOf result Unwritten.Failed) }
    ensures run { IsPutting O.takes sink.old (summary_text logs.now history.now) result [] sink.new }
{
    match summary(alloc, logs, history) {
        Ok(line) => put_line(sink, line.as_slice()),
        Err(_) => Err(Unwritten::Memory),
    }
}

// Gives the sink a text as one piece.
fn put_line<O: Writer>(sink: &mut O, line: &[u8]) -> Result<(), Unwritten>
    ensures all { OnOk result (WhereTold (O.content sink.old) (λ before.
        O.content sink.new ≡ Some (before ++ line.now))) }
    ensures part { WhereTold (O.content sink.old) (λ before. IsPartOf (O.content sink.new) before line.now) }
    ensures faults { Rises (O.faults sink.old) (O.faults sink.new) (IsErrOf result Unwritten.Failed) }
    ensures run { IsPutting O.takes sink.old line.now result [] sink.new }
{
    match sink.put(line) {
        Ok(()) => Ok(()),
        Err(_) => Err(Unwritten::Failed),
    }
}

// The status where all was written.
fn status_by(logs: &[List<Answer>], unfinished: &[u32]) -> u8
    ensures other { result ≢ 4 }
    ensures known { (result ≡ 5) × (holds_memory logs.now ≡ true) ⊎ (holds_memory logs.now ≡ false)
        × (result ≡ (if are_all_ok logs.now && is_empty unfinished.now then 0 else 1)) }
{
    if has_memory(logs) {
        return 5;
    }
    if are_all_ok(logs) && unfinished.is_empty() {
        0
    } else {
        1
    }
}
