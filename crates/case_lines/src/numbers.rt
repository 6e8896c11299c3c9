// Lists of numbers, and numbers of a dtype.
ghost use Rattle.std.specs.Prelude.{IfOk};
ghost use Rattle.cells.specs.Numbers.{IsWord};

use crate::fault::Fault;
use crate::reading::{member, text};
use cells::Dtype;
use json_forms::{i64_list, u64_list, whole_number};
use serde_json::Value;
use std::alloc::Global;

/// The numbers of a list, which may be negative.
pub fn numbers_of(alloc: Global, v: &Value) -> Result<Vec<i64>, Fault> {
    i64_list(alloc, v)?.ok_or(Fault::Line)
}

/// The numbers of a list.
pub fn sizes_of(alloc: Global, v: &Value) -> Result<Vec<u64>, Fault> {
    u64_list(alloc, v)?.ok_or(Fault::Line)
}

/// The numbers of a member.
pub fn sizes(alloc: Global, v: &Value, name: &str) -> Result<Vec<u64>, Fault> {
    u64_list(alloc, member(v, name)?)?.ok_or(Fault::Line)
}

/// The bytes that numbers are.
pub fn bytes(alloc: Global, items: &[Value]) -> Result<Vec<u8>, Fault> {
    let mut bytes = Vec::with_capacity(alloc, items.len())?;
    for item in items {
        bytes.push(byte(item)?)?;
    }
    Ok(bytes)
}

fn byte(v: &Value) -> Result<u8, Fault> {
    u8::try_from(v.as_u64().ok_or(Fault::Line)?).map_err(|_| Fault::Line)
}

/// The dtype that a member names.
pub fn dtype(v: &Value, name: &str) -> Result<Dtype, Fault> {
    Dtype::named(text(v, name)?).ok_or(Fault::Line)
}

/// The word of a number of the dtype.
pub fn word_of(dtype: Dtype, v: &Value) -> Result<u64, Fault>
    ensures { IfOk result (λ word. IsWord dtype word) }
{
    let number = whole_number(v).ok_or(Fault::Line)?;
    if dtype.holds(number) {
        Ok(dtype.word(number))
    } else {
        Err(Fault::Line)
    }
}

/// The word of 0.
pub fn zero(dtype: Dtype) -> Result<u64, Fault>
    ensures { IfOk result (λ word. IsWord dtype word) }
{
    if dtype.holds(0) {
        Ok(dtype.word(0))
    } else {
        Err(Fault::Line)
    }
}
