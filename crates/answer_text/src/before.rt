// The members of an answer that come before its line.
ghost use Rattle.std.specs.Prelude.{◌≡◌, ◌++◌, codes, OnOk};
ghost use Rattle.answer_text.specs.Causes.{meta_why, chunk_why};
ghost use Rattle.answer_text.specs.Pieces.{text_of};
ghost use Rattle.answer_text.specs.Text.{domain_text, events_text, events_if, met_text, dtype_text, conflict_text, before_line};

use crate::answer::{Body, MetaWhy, Why};
use crate::causes::{put_chunk_why, put_meta_why};
use crate::members::{
    put_around, put_domain, put_dtype, put_events, put_events_if, put_met, put_numbers_around,
    put_text_around,
};
use crate::pieces::put;
use cells::{Dtype, List};
use index_transform::Domain;
use std::alloc::{AllocError, Global};

/// Puts the members before `line`, each with a comma behind it.
pub(crate) fn put_before(alloc: Global, out: &mut Vec<u8>, body: &Body) -> Result<(), AllocError>
    ensures { OnOk result (out.new.items ≡ out.old.items ++ before_line body.now) }
{
    match body {
        Body::Opened {
            dtype,
            domain,
            events,
            ..
        } => put_opened(alloc, out, *dtype, domain, events),
        Body::Viewed { dtype, .. } => put_dtype(out, *dtype),
        Body::Written { events, .. } => {
            put_numbers_around(out, "\"commit\":", events.items(), ",")
        }
        Body::Begun => put(out, "\"begin\":true,"),
        Body::Committed { events } => put_numbers_around(out, "\"commit\":", events.items(), ","),
        Body::Aborted => put(out, "\"abort\":true,"),
        Body::Resolved { dtype, .. } => put_dtype(out, *dtype),
        Body::BadLine { text } => put_text_around(alloc, out, "\"bad_line\":", text.items(), ","),
        Body::BadSpec { path, events } => put_bad_spec(alloc, out, path.items(), events),
        Body::BadStep { step } => {
            put_around(out, "\"bad_step\":{\"step\":", u64::from(*step), "},")
        }
        Body::InTransaction => put(out, "\"in_transaction\":true,"),
        Body::RefusedSpec { events, .. } => put_events(out, events),
        Body::NotFound { events, .. } => put_events(out, events),
        Body::Exists { at, path, events } => put_exists(alloc, out, *at, path.items(), events),
        Body::PathTaken { events, .. } => put_events(out, events),
        Body::Mismatch { events, .. } => put_events(out, events),
        Body::BadMeta { key, why, events } => put_bad_meta(alloc, out, key.items(), why, events),
        Body::BadValues { path } => {
            put_numbers_around(out, "\"bad_values\":", path.items(), ",")
        }
        Body::Conflict { key, read, now } => put_conflict(alloc, out, key.items(), *read, *now),
        Body::StoreFailed { events, .. } => put_events_if(out, events),
        Body::Damaged { key, why } => put_damaged(alloc, out, key.items(), *why),
        _ => Ok(()),
    }
}

fn put_opened(
    alloc: Global,
    out: &mut Vec<u8>,
    dtype: Dtype,
    domain: &Domain,
    events: &List<u64>,
) -> Result<(), AllocError>
    ensures { OnOk result (out.new.items ≡ out.old.items
        ++ (codes "\"domain\":" ++ domain_text domain.now ++ codes "," ++ dtype_text dtype ++ events_text events.now)) }
{
    put(out, "\"domain\":")?;
    put_domain(alloc, out, domain)?;
    put(out, ",")?;
    put_dtype(out, dtype)?;
    put_events(out, events)
}

fn put_bad_spec(
    alloc: Global,
    out: &mut Vec<u8>,
    path: &str,
    events: &Option<List<u64>>,
) -> Result<(), AllocError>
    ensures { OnOk result (out.new.items ≡ out.old.items
        ++ (codes "\"bad_spec\":" ++ text_of path.now ++ codes "," ++ events_if events.now)) }
{
    put_text_around(alloc, out, "\"bad_spec\":", path, ",")?;
    put_events_if(out, events)
}

fn put_exists(
    alloc: Global,
    out: &mut Vec<u8>,
    at: u64,
    path: &str,
    events: &List<u64>,
) -> Result<(), AllocError>
    ensures { OnOk result (out.new.items ≡ out.old.items
        ++ (events_text events.now ++ codes "\"exists\":" ++ met_text at path.now ++ codes ",")) }
{
    put_events(out, events)?;
    put(out, "\"exists\":")?;
    put_met(alloc, out, at, path)?;
    put(out, ",")
}

fn put_bad_meta(
    alloc: Global,
    out: &mut Vec<u8>,
    key: &str,
    why: &MetaWhy,
    events: &List<u64>,
) -> Result<(), AllocError>
    ensures { OnOk result (out.new.items ≡ out.old.items
        ++ (codes "\"bad_meta\":" ++ meta_why key.now why.now ++ codes "," ++ events_text events.now)) }
{
    put(out, "\"bad_meta\":")?;
    put_meta_why(alloc, out, key, why)?;
    put(out, ",")?;
    put_events(out, events)
}

#[tactic(auto, unfolding(crate::specs::Text::conflict_text))]
fn put_conflict(
    alloc: Global,
    out: &mut Vec<u8>,
    key: &str,
    read: u64,
    now: u64,
) -> Result<(), AllocError>
    ensures { OnOk result (out.new.items ≡ out.old.items ++ conflict_text key.now read now) }
{
    put_text_around(alloc, out, "\"conflict\":{\"key\":", key, ",\"now\":")?;
    put_around(out, "", now, ",\"read\":")?;
    put_around(out, "", read, "},")
}

fn put_damaged(alloc: Global, out: &mut Vec<u8>, key: &str, why: Why) -> Result<(), AllocError>
    ensures { OnOk result (out.new.items ≡ out.old.items ++
        (codes "\"damaged\":" ++ chunk_why key.now why ++ codes ",")) }
{
    put(out, "\"damaged\":")?;
    put_chunk_why(alloc, out, key, why)?;
    put(out, ",")
}
