// Scripts: two texts, the first session's and then the second's.
ghost use Rattle.std.specs.Prelude.{◌<◌, ◌^◌, length, IfOk};
ghost use Rattle.indexmap.specs.IndexMap.{get_by_text};
ghost use Rattle.transaction_cases.specs.Sessions.{IsBetween, IsFresh};
ghost use Rattle.session_runs.specs.Session.{HasMounts, session_with};

use crate::session_ends::put_answer;
use answer_text::Answer;
use case_lines::Fault;
use cells::Name;
use kv_face::MemoryKv;
use serde_json::Value;
use session_runs::{Around, OpenGate, Session, State, run_script};
use std::alloc::Global;
use std::sync::Wait;
use turn_book::TurnBook;

const LONG: usize = 1 << 26;

/// The answers of the first session and then those of the second, which begins where the first has ended.
pub(crate) fn by_scripts<R: Wait>(
    rt: &R,
    alloc: Global,
    scripts: &[Value],
    mounts: &[Name],
    book: &TurnBook<State<MemoryKv>>,
    one: &mut Session<MemoryKv>,
    other: &mut Session<MemoryKv>,
) -> Result<Vec<u8>, Fault>
    requires mounts { HasMounts book.now mounts.now }
    requires one { IsFresh book.now 0 (session_with one.old.pass
        (get_by_text one.old.names) one.old.txn one.old.log.items one.old.ended) }
    requires other { IsFresh book.now 1 (session_with other.old.pass
        (get_by_text other.old.names) other.old.txn other.old.log.items other.old.ended) }
    ensures one { IsBetween book.now 0 one.new.pass (get_by_text one.new.names) one.new.txn one.new.ended }
    ensures other { IsBetween book.now 1 other.new.pass (get_by_text other.new.names) other.new.txn other.new.ended }
{
    let [first, second] = scripts else {
        return Err(Fault::Line);
    };
    ran(rt, alloc, script_of(first)?, mounts, book, 0, one);
    ran(rt, alloc, script_of(second)?, mounts, book, 1, other);
    logs(alloc, one.log.as_slice(), other.log.as_slice())
}

fn script_of(v: &Value) -> Result<&[u8], Fault>
    ensures { IfOk result (λ script. length script.now < 2 ^ 62) }
{
    let script = v.as_str().ok_or(Fault::Line)?.as_bytes();
    if script.len() > LONG {
        return Err(Fault::Line);
    }
    Ok(script)
}

// Gives the session of this number a script.
fn ran<R: Wait>(
    rt: &R,
    alloc: Global,
    script: &[u8],
    mounts: &[Name],
    book: &TurnBook<State<MemoryKv>>,
    by: u32,
    session: &mut Session<MemoryKv>,
)
    requires mounts { HasMounts book.now mounts.now }
    requires short { length script.now < 2 ^ 62 }
    requires session { IsFresh book.now by (session_with session.old.pass
        (get_by_text session.old.names) session.old.txn session.old.log.items session.old.ended) }
    ensures { IsBetween book.now by session.new.pass (get_by_text session.new.names) session.new.txn session.new.ended }
{
    let around = Around {
        alloc,
        rt,
        book,
        gate: &OpenGate,
    };
    run_script(&around, mounts, session, script);
}

fn logs(alloc: Global, one: &[Answer], other: &[Answer]) -> Result<Vec<u8>, Fault> {
    let mut text = Vec::new(alloc);
    put_log(alloc, &mut text, one)?;
    put_log(alloc, &mut text, other)?;
    Ok(text)
}

fn put_log(alloc: Global, text: &mut Vec<u8>, log: &[Answer]) -> Result<(), Fault> {
    for answer in log {
        put_answer(alloc, text, answer)?;
    }
    Ok(())
}
