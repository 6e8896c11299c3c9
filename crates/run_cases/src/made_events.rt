// Histories of a few kinds of events.
use case_lines::{Fault, text_of};
use cells::{List, Name, Sizes};
use script_runner::{Event, Kind, Mode, Op, Ops};
use serde_json::Value;
use std::alloc::Global;

/// A history: a list of `"commit"`, `"key"` (a commit of one key), `"resize"` and `"fault"`.
pub(crate) fn events_of(alloc: Global, words: &[Value]) -> Result<Vec<Event>, Fault> {
    let mut all = Vec::with_capacity(alloc, words.len())?;
    for word in words {
        all.push(event_of(alloc, text_of(word)?)?)?;
    }
    Ok(all)
}

fn event_of(alloc: Global, word: &str) -> Result<Event, Fault> {
    Ok(Event {
        owner: 0,
        kind: kind_of(alloc, word)?,
    })
}

fn kind_of(alloc: Global, word: &str) -> Result<Kind, Fault> {
    match word {
        "commit" => done(alloc, None),
        "key" => done(alloc, Some(Name::wrap(String::from_str(alloc, "a/0")?))),
        "resize" => resized(alloc),
        "fault" => fault(alloc),
        _ => Err(Fault::Line),
    }
}

fn done(alloc: Global, key: Option<Name>) -> Result<Kind, Fault> {
    Ok(Kind::Done {
        line: 1,
        mode: Mode {
            atomic: false,
            repeatable_read: false,
        },
        ops: no_ops(alloc)?,
        key,
    })
}

fn no_ops(alloc: Global) -> Result<Ops, Fault> {
    let none: Vec<Op> = Vec::new(alloc);
    Ok(Ops::wrap(alloc, List::wrap(none))?)
}

fn resized(alloc: Global) -> Result<Kind, Fault> {
    Ok(Kind::Resized {
        array: 1,
        shape: Sizes::wrap(vec![in alloc; 1]?),
    })
}

fn fault(alloc: Global) -> Result<Kind, Fault> {
    Ok(Kind::Fault {
        mount: Name::wrap(String::from_str(alloc, "memory")?),
    })
}
