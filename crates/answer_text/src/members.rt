// Parts that several answers have.
ghost use Rattle.std.specs.Prelude.{◌≡◌, ◌++◌, decimal, IfOk, OnOk};
ghost use Rattle.serde_json.specs.Written.{compact_text};
ghost use Rattle.transform_json.specs.Written.{domain_data, transform_data};
ghost use Rattle.answer_text.specs.Pieces.{numbers_text, text_of};
ghost use Rattle.answer_text.specs.Text.{domain_text, transform_text, events_text, events_if, met_text, dtype_text};

use crate::pieces::{put, put_number, put_numbers, put_text};
use cells::{Dtype, List};
use index_transform::{Domain, Transform};
use json_forms::compact;
use std::alloc::{AllocError, Global};
use transform_json::{write_domain, write_transform};

/// Puts a number between two texts.
pub(crate) fn put_around(
    out: &mut Vec<u8>,
    before: &str,
    number: u64,
    behind: &str,
) -> Result<(), AllocError>
    ensures { OnOk result (out.new.items ≡ out.old.items ++ (before.now ++ decimal number ++ behind.now)) }
{
    put(out, before)?;
    put_number(out, number)?;
    put(out, behind)
}

/// Puts a text in quotes between two others.
pub(crate) fn put_text_around(
    alloc: Global,
    out: &mut Vec<u8>,
    before: &str,
    text: &str,
    behind: &str,
) -> Result<(), AllocError>
    ensures { OnOk result (out.new.items ≡ out.old.items ++ (before.now ++ text_of text.now ++ behind.now)) }
{
    put(out, before)?;
    put_text(alloc, out, text)?;
    put(out, behind)
}

/// Puts a list of numbers between two texts.
pub(crate) fn put_numbers_around(
    out: &mut Vec<u8>,
    before: &str,
    numbers: &[u64],
    behind: &str,
) -> Result<(), AllocError>
    ensures { OnOk result (out.new.items ≡ out.old.items ++ (before.now ++ numbers_text numbers.now ++ behind.now)) }
{
    put(out, before)?;
    put_numbers(out, numbers)?;
    put(out, behind)
}

/// Puts the events that a line added.
#[tactic(auto, unfolding(crate::specs::Text::events_text))]
pub(crate) fn put_events(out: &mut Vec<u8>, events: &List<u64>) -> Result<(), AllocError>
    ensures { OnOk result (out.new.items ≡ out.old.items ++ events_text events.now) }
{
    put_numbers_around(out, "\"events\":", events.items(), ",")
}

/// The same, where there are some to be told.
pub(crate) fn put_events_if(out: &mut Vec<u8>, events: &Option<List<u64>>) -> Result<(), AllocError>
    ensures { OnOk result (out.new.items ≡ out.old.items ++ events_if events.now) }
{
    match events {
        Some(events) => put_events(out, events),
        None => Ok(()),
    }
}

/// Puts how many events there are, and the path of an array.
#[tactic(auto, unfolding(crate::specs::Text::met_text))]
pub(crate) fn put_met(
    alloc: Global,
    out: &mut Vec<u8>,
    at: u64,
    path: &str,
) -> Result<(), AllocError>
    ensures { OnOk result (out.new.items ≡ out.old.items ++ met_text at path.now) }
{
    put_around(out, "{\"at\":", at, ",\"path\":")?;
    put_text_around(alloc, out, "", path, "}")
}

/// Puts a dtype.
#[tactic(auto, unfolding(crate::specs::Text::dtype_text))]
pub(crate) fn put_dtype(out: &mut Vec<u8>, dtype: Dtype) -> Result<(), AllocError>
    ensures { OnOk result (out.new.items ≡ out.old.items ++ dtype_text dtype) }
{
    put(out, "\"dtype\":\"")?;
    put(out, dtype.name())?;
    put(out, "\",")
}

/// Puts a domain.
#[tactic(auto, unfolding(crate::specs::Text::domain_text))]
pub(crate) fn put_domain(
    alloc: Global,
    out: &mut Vec<u8>,
    domain: &Domain,
) -> Result<(), AllocError>
    ensures { OnOk result (out.new.items ≡ out.old.items ++ domain_text domain.now) }
{
    let text = domain_bytes(alloc, domain)?;
    out.extend_from_slice(text.as_slice())
}

/// Puts a transform.
#[tactic(auto, unfolding(crate::specs::Text::transform_text))]
pub(crate) fn put_transform(
    alloc: Global,
    out: &mut Vec<u8>,
    transform: &Transform,
) -> Result<(), AllocError>
    ensures { OnOk result (out.new.items ≡ out.old.items ++ transform_text transform.now) }
{
    let text = transform_bytes(alloc, transform)?;
    out.extend_from_slice(text.as_slice())
}

fn domain_bytes(alloc: Global, domain: &Domain) -> Result<Vec<u8>, AllocError>
    ensures { IfOk result (λ text. text.items ≡ compact_text (domain_data domain.now)) }
{
    let value = write_domain(alloc, domain)?;
    compact(alloc, &value)
}

fn transform_bytes(alloc: Global, transform: &Transform) -> Result<Vec<u8>, AllocError>
    ensures { IfOk result (λ text. text.items ≡ compact_text (transform_data transform.now)) }
{
    let value = write_transform(alloc, transform)?;
    compact(alloc, &value)
}
