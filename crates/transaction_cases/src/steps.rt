// Steps: `[SESSION,COMMAND]`, where the session is 0 or 1 and the command is a line of it. A command that is text is the line's bytes.
ghost use Rattle.transaction_cases.specs.Sessions.{IsBetween};
ghost use Rattle.indexmap.specs.IndexMap.{get_by_text};
ghost use Rattle.session_runs.specs.Session.{HasMounts};

use crate::session_ends::put_answer;
use case_lines::{Fault, items};
use cells::Name;
use kv_face::MemoryKv;
use serde_json::Value;
use session_runs::{Around, OpenGate, Session, State};
use std::alloc::Global;
use std::sync::Wait;
use turn_book::TurnBook;

/// The answers in the order of the steps.
pub(crate) fn by_steps<R: Wait>(
    rt: &R,
    alloc: Global,
    steps: &[Value],
    mounts: &[Name],
    book: &TurnBook<State<MemoryKv>>,
    one: &mut Session<MemoryKv>,
    other: &mut Session<MemoryKv>,
) -> Result<Vec<u8>, Fault>
    requires mounts { HasMounts book.now mounts.now }
    requires one { IsBetween book.now 0 one.old.pass (get_by_text one.old.names) one.old.txn one.old.ended }
    requires other { IsBetween book.now 1 other.old.pass (get_by_text other.old.names) other.old.txn other.old.ended }
    ensures one { IsBetween book.now 0 one.new.pass (get_by_text one.new.names) one.new.txn one.new.ended }
    ensures other { IsBetween book.now 1 other.new.pass (get_by_text other.new.names) other.new.txn other.new.ended }
{
    let mut text = Vec::new(alloc);
    for step in steps {
        put_step(rt, alloc, &mut text, step, mounts, book, one, other)?;
    }
    Ok(text)
}

fn put_step<R: Wait>(
    rt: &R,
    alloc: Global,
    text: &mut Vec<u8>,
    step: &Value,
    mounts: &[Name],
    book: &TurnBook<State<MemoryKv>>,
    one: &mut Session<MemoryKv>,
    other: &mut Session<MemoryKv>,
) -> Result<(), Fault>
    requires mounts { HasMounts book.now mounts.now }
    requires one { IsBetween book.now 0 one.old.pass (get_by_text one.old.names) one.old.txn one.old.ended }
    requires other { IsBetween book.now 1 other.old.pass (get_by_text other.old.names) other.old.txn other.old.ended }
    ensures one { IsBetween book.now 0 one.new.pass (get_by_text one.new.names) one.new.txn one.new.ended }
    ensures other { IsBetween book.now 1 other.new.pass (get_by_text other.new.names) other.new.txn other.new.ended }
{
    let [by, command] = items(step)? else {
        return Err(Fault::Line);
    };
    match by.as_u64() {
        Some(0) => put_line(rt, alloc, text, command, mounts, book, 0, one),
        Some(1) => put_line(rt, alloc, text, command, mounts, book, 1, other),
        _ => Err(Fault::Line),
    }
}

// Gives the session of this number a command as its next line, and puts what it answers.
fn put_line<R: Wait>(
    rt: &R,
    alloc: Global,
    text: &mut Vec<u8>,
    command: &Value,
    mounts: &[Name],
    book: &TurnBook<State<MemoryKv>>,
    by: u32,
    session: &mut Session<MemoryKv>,
) -> Result<(), Fault>
    requires mounts { HasMounts book.now mounts.now }
    requires session { IsBetween book.now by session.old.pass
        (get_by_text session.old.names) session.old.txn session.old.ended }
    ensures { IsBetween book.now by session.new.pass (get_by_text session.new.names) session.new.txn session.new.ended }
{
    if let Some(bytes) = command.as_str() {
        return put_bytes(rt, alloc, text, bytes.as_bytes(), mounts, book, by, session);
    }
    let bytes = command.to_vec(alloc)?;
    put_bytes(rt, alloc, text, bytes.as_slice(), mounts, book, by, session)
}

fn put_bytes<R: Wait>(
    rt: &R,
    alloc: Global,
    text: &mut Vec<u8>,
    bytes: &[u8],
    mounts: &[Name],
    book: &TurnBook<State<MemoryKv>>,
    by: u32,
    session: &mut Session<MemoryKv>,
) -> Result<(), Fault>
    requires mounts { HasMounts book.now mounts.now }
    requires session { IsBetween book.now by session.old.pass
        (get_by_text session.old.names) session.old.txn session.old.ended }
    ensures { IsBetween book.now by session.new.pass (get_by_text session.new.names) session.new.txn session.new.ended }
{
    if session.ended {
        return Err(Fault::Memory);
    }
    let line = (session.log.len() as u64)
        .checked_add(1)
        .ok_or(Fault::Line)?;
    let around = Around {
        alloc,
        rt,
        book,
        gate: &OpenGate,
    };
    session.step(&around, mounts, line, bytes)?;
    match session.log.as_slice().last() {
        Some(answer) => put_answer(alloc, text, answer),
        None => Ok(()),
    }
}
