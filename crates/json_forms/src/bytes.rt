ghost use Rattle.std.specs.Prelude.{◌≡◌, ◌≤◌, Some, None, false, IfOk};
ghost use Rattle.serde_json.specs.Data.{depth};
ghost use Rattle.serde_json.specs.Read.{max_depth};
ghost use Rattle.serde_json.specs.View.{view};
ghost use Rattle.serde_json.specs.Written.{compact_text, has_float};
ghost use Rattle.json_forms.specs.Bytes.{data_of};

use serde_json::Value;
use std::alloc::{AllocError, Global};
use std::error::Error;
use std::fmt;

/// Why bytes gave no value.
#[derive(Clone, Copy, Debug, PartialEq, Eq)]
pub enum ParseError {
    /// The bytes are no JSON: they aren't UTF-8, break the grammar, nest deeper than 127, or hold a number that is too
    /// large for a float.
    NotJson,
    /// An allocation failed.
    Memory,
}

impl fmt::Display for ParseError {
    fn fmt<W: fmt::Write>(&self, f: &mut fmt::Formatter<W>) -> fmt::Result {
        f.write_str(match self {
            ParseError::NotJson => "the bytes are no JSON",
            ParseError::Memory => "out of memory",
        })
    }
}

impl Error for ParseError {}

/// The value that the bytes are.
///
/// # Errors
/// `NotJson` where the bytes are no JSON, and `Memory` where an allocation failed.
pub fn parse(alloc: Global, bytes: &[u8]) -> Result<Value, ParseError>
    ensures ok { IfOk result (λ v. data_of bytes.now ≡ Some (view v)) }
    ensures nests { IfOk result (λ v. depth (view v) ≤ max_depth) }
    ensures not_json { result ≡ Err ParseError.NotJson → data_of bytes.now ≡ None }
{
    match Value::from_slice(alloc, bytes) {
        Ok(value) => Ok(value),
        Err(e) => {
            if e.is_memory() {
                Err(ParseError::Memory)
            } else {
                Err(ParseError::NotJson)
            }
        }
    }
}

/// The value's JSON, with no space between tokens. It reads back as the value.
///
/// # Errors
/// An allocation failed.
pub fn compact(alloc: Global, value: &Value) -> Result<Vec<u8>, AllocError>
    requires { has_float (view value.now) ≡ false }
    ensures text { IfOk result (λ bytes. bytes.items ≡ compact_text (view value.now)) }
    ensures reads_back { IfOk result (λ bytes. depth (view value.now) ≤ max_depth
        → data_of bytes.items ≡ Some (view value.now)) }
{
    value.to_vec(alloc)
}
