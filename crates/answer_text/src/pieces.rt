// Numbers and texts as JSON, put behind what was written.
ghost use Rattle.std.specs.Prelude.{◌≡◌, ◌++◌, decimal, OnOk};
ghost use Rattle.std.specs.Fmt.{signed_decimal};
ghost use Rattle.answer_text.specs.Pieces.{comma_if, numbers_text, indices_text, text_of, bound_text};

use index_intervals::INFINITY;
use itoa::Buffer;
use json_forms::compact;
use serde_json::Value;
use std::alloc::{AllocError, Global};

/// Puts a text as it is.
pub(crate) fn put(out: &mut Vec<u8>, text: &str) -> Result<(), AllocError>
    ensures { OnOk result (out.new.items ≡ out.old.items ++ text.now) }
{
    out.extend_from_slice(text.as_bytes())
}

/// Puts a number.
pub(crate) fn put_number(out: &mut Vec<u8>, number: u64) -> Result<(), AllocError>
    ensures { OnOk result (out.new.items ≡ out.old.items ++ decimal number) }
{
    let mut buffer = Buffer::new();
    out.extend_from_slice(buffer.format(number).as_bytes())
}

/// Puts a number that may be negative.
pub(crate) fn put_integer(out: &mut Vec<u8>, number: i64) -> Result<(), AllocError>
    ensures { OnOk result (out.new.items ≡ out.old.items ++ signed_decimal number) }
{
    let mut buffer = Buffer::new();
    out.extend_from_slice(buffer.format(number).as_bytes())
}

/// Puts a text between quotes, its bytes escaped where JSON asks for it.
#[tactic(auto, unfolding(crate::specs::Pieces::text_of))]
pub(crate) fn put_text(alloc: Global, out: &mut Vec<u8>, text: &str) -> Result<(), AllocError>
    ensures { OnOk result (out.new.items ≡ out.old.items ++ text_of text.now) }
{
    let value = Value::String(String::from_str(alloc, text)?);
    let quoted = compact(alloc, &value)?;
    out.extend_from_slice(quoted.as_slice())
}

/// Puts an effective bound.
#[tactic(auto, unfolding(crate::specs::Pieces::bound_text))]
pub(crate) fn put_bound(out: &mut Vec<u8>, bound: i64) -> Result<(), AllocError>
    ensures { OnOk result (out.new.items ≡ out.old.items ++ bound_text bound) }
{
    if bound == -INFINITY {
        return put(out, "\"-inf\"");
    }
    if bound == INFINITY {
        return put(out, "\"+inf\"");
    }
    put_integer(out, bound)
}

/// Puts a comma, where something stands before.
pub(crate) fn put_comma(out: &mut Vec<u8>, later: bool) -> Result<(), AllocError>
    ensures { OnOk result (out.new.items ≡ out.old.items ++ comma_if later) }
{
    if later { put(out, ",") } else { Ok(()) }
}

/// Puts a list of numbers.
#[tactic(auto, unfolding(crate::specs::Pieces::numbers_text))]
pub(crate) fn put_numbers(out: &mut Vec<u8>, numbers: &[u64]) -> Result<(), AllocError>
    ensures { OnOk result (out.new.items ≡ out.old.items ++ numbers_text numbers.now) }
{
    put(out, "[")?;
    for k in 0..numbers.len() {
        put_comma(out, 0 < k)?;
        put_number(out, numbers[k])?;
    }
    put(out, "]")
}

/// Puts an index vector.
#[tactic(auto, unfolding(crate::specs::Pieces::indices_text))]
pub(crate) fn put_indices(out: &mut Vec<u8>, indices: &[i64]) -> Result<(), AllocError>
    ensures { OnOk result (out.new.items ≡ out.old.items ++ indices_text indices.now) }
{
    put(out, "[")?;
    for k in 0..indices.len() {
        put_comma(out, 0 < k)?;
        put_integer(out, indices[k])?;
    }
    put(out, "]")
}
