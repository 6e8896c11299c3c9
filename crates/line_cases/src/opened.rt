// Answers with numbers of events.
use crate::args::{name, numbers, numbers_if};
use crate::printing::printed;
use crate::shown::transform;
use answer_text::{Body, MetaWhy};
use case_lines::{Fault, dtype, number, text};
use cells::{Dtype, List, Name};
use index_transform::Domain;
use serde_json::Value;
use std::alloc::Global;

/// An answer of an open, a commit, or a store that failed.
pub(crate) fn opened(alloc: Global, line: u64, what: &str, v: &Value) -> Result<String, Fault> {
    match what {
        "Written" => written(alloc, line, v, number(v, "cells")?),
        "Committed" => committed(alloc, line, v),
        "StoreFailed" => failed(alloc, line, v, number(v, "event")?),
        "BadSpec" => bad_spec(alloc, line, v),
        "Opened" => new_array(alloc, line, v, dtype(v, "dtype")?),
        "Mismatch" => mismatch(alloc, line, v, number(v, "at")?),
        "BadMeta" => bad_meta(alloc, line, v),
        _ => met(alloc, line, what, v, number(v, "at")?),
    }
}

fn written(alloc: Global, line: u64, v: &Value, cells: u64) -> Result<String, Fault> {
    let events = numbers(alloc, v, "events")?;
    printed(alloc, line, Body::Written { cells, events })
}

fn committed(alloc: Global, line: u64, v: &Value) -> Result<String, Fault> {
    let events = numbers(alloc, v, "events")?;
    printed(alloc, line, Body::Committed { events })
}

fn failed(alloc: Global, line: u64, v: &Value, event: u64) -> Result<String, Fault> {
    let done = numbers(alloc, v, "done")?;
    failed_with(alloc, line, v, event, done)
}

fn failed_with(
    alloc: Global,
    line: u64,
    v: &Value,
    event: u64,
    done: List<u64>,
) -> Result<String, Fault> {
    let events = numbers_if(alloc, v, "events")?;
    let body = Body::StoreFailed {
        event,
        done,
        events,
    };
    printed(alloc, line, body)
}

fn bad_spec(alloc: Global, line: u64, v: &Value) -> Result<String, Fault> {
    let path = name(alloc, v, "path")?;
    bad_spec_at(alloc, line, v, path)
}

fn bad_spec_at(alloc: Global, line: u64, v: &Value, path: Name) -> Result<String, Fault> {
    let events = numbers_if(alloc, v, "events")?;
    printed(alloc, line, Body::BadSpec { path, events })
}

fn new_array(alloc: Global, line: u64, v: &Value, dtype: Dtype) -> Result<String, Fault> {
    let domain = domain(alloc, v)?;
    new_with(alloc, line, v, dtype, domain)
}

fn domain(alloc: Global, v: &Value) -> Result<Domain, Fault> {
    let transform = transform(alloc, v)?;
    Ok(transform.domain().copy(alloc)?)
}

fn new_with(
    alloc: Global,
    line: u64,
    v: &Value,
    dtype: Dtype,
    domain: Domain,
) -> Result<String, Fault> {
    let name = name(alloc, v, "name")?;
    new_named(alloc, line, v, dtype, (domain, name))
}

fn new_named(
    alloc: Global,
    line: u64,
    v: &Value,
    dtype: Dtype,
    parts: (Domain, Name),
) -> Result<String, Fault> {
    let events = numbers(alloc, v, "events")?;
    let (domain, name) = parts;
    let body = Body::Opened {
        name,
        dtype,
        domain,
        events,
    };
    printed(alloc, line, body)
}

fn met(alloc: Global, line: u64, what: &str, v: &Value, at: u64) -> Result<String, Fault> {
    let path = name(alloc, v, "path")?;
    met_at(alloc, line, what, v, at, path)
}

fn met_at(
    alloc: Global,
    line: u64,
    what: &str,
    v: &Value,
    at: u64,
    path: Name,
) -> Result<String, Fault> {
    let events = numbers(alloc, v, "events")?;
    met_of(alloc, line, what, at, path, events)
}

fn met_of(
    alloc: Global,
    line: u64,
    what: &str,
    at: u64,
    path: Name,
    events: List<u64>,
) -> Result<String, Fault> {
    match what {
        "NotFound" => printed(alloc, line, Body::NotFound { at, path, events }),
        "Exists" => printed(alloc, line, Body::Exists { at, path, events }),
        "PathTaken" => printed(alloc, line, Body::PathTaken { at, path, events }),
        _ => Err(Fault::Line),
    }
}

fn mismatch(alloc: Global, line: u64, v: &Value, at: u64) -> Result<String, Fault> {
    let path = name(alloc, v, "path")?;
    mismatch_at(alloc, line, v, at, path)
}

fn mismatch_at(alloc: Global, line: u64, v: &Value, at: u64, path: Name) -> Result<String, Fault> {
    let member = name(alloc, v, "member")?;
    mismatch_of(alloc, line, v, at, (path, member))
}

fn mismatch_of(
    alloc: Global,
    line: u64,
    v: &Value,
    at: u64,
    names: (Name, Name),
) -> Result<String, Fault> {
    let events = numbers(alloc, v, "events")?;
    let (path, member) = names;
    let body = Body::Mismatch {
        at,
        member,
        path,
        events,
    };
    printed(alloc, line, body)
}

fn bad_meta(alloc: Global, line: u64, v: &Value) -> Result<String, Fault> {
    let why = why(alloc, v)?;
    bad_meta_by(alloc, line, v, why)
}

fn why(alloc: Global, v: &Value) -> Result<MetaWhy, Fault> {
    match text(v, "why")? {
        "json" => Ok(MetaWhy::Json),
        "member" => Ok(MetaWhy::Member {
            name: name(alloc, v, "member")?,
        }),
        _ => Ok(MetaWhy::Unsupported {
            name: name(alloc, v, "member")?,
        }),
    }
}

fn bad_meta_by(alloc: Global, line: u64, v: &Value, why: MetaWhy) -> Result<String, Fault> {
    let key = name(alloc, v, "key")?;
    bad_meta_of(alloc, line, v, (why, key))
}

fn bad_meta_of(
    alloc: Global,
    line: u64,
    v: &Value,
    parts: (MetaWhy, Name),
) -> Result<String, Fault> {
    let events = numbers(alloc, v, "events")?;
    let (why, key) = parts;
    printed(alloc, line, Body::BadMeta { key, why, events })
}
