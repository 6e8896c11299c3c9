// Texts that may stand as a name.
ghost use Rattle.std.specs.Prelude.{◌≡◌, IfOk, option_map, option_and_then};
ghost use Rattle.std.specs.List.{list_all};
ghost use Rattle.serde_json.specs.View.{view};
ghost use Rattle.line_parts.specs.Names.{is_name_byte, is_name, as_name, name_of};

use cells::Name;
use serde_json::Value;
use std::alloc::{AllocError, Global};

/// A text of its own.
///
/// # Errors
/// An allocation failed.
pub fn owned(alloc: Global, text: &str) -> Result<Name, AllocError>
    ensures { IfOk result (λ name. name ≡ text.now) }
{
    Ok(Name::wrap(String::from_str(alloc, text)?))
}

/// The name that a value is: a text of 1 to 64 ASCII letters, digits or `_`.
pub fn name_of(value: &Value) -> Option<&str>
    ensures { option_map (λ s. s.now) result ≡ name_of (view value.now) }
{
    let text = value.as_str()?;
    if is_name(text) { Some(text) } else { None }
}

fn is_name(text: &str) -> bool
    ensures { result ≡ is_name text.now }
{
    if text.len() < 1 {
        return false;
    }
    if 64 < text.len() {
        return false;
    }
    are_name_bytes(text.as_bytes())
}

fn are_name_bytes(text: &[u8]) -> bool
    ensures { result ≡ list_all is_name_byte text.now }
{
    text.iter().all(|b| b.is_ascii_alphanumeric() || *b == b'_')
}
