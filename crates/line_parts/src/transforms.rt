// The transform of a line.
ghost use Rattle.std.specs.Prelude.{◌≡◌, ◌≢◌, ◌++◌, Ok, Err, IfOk, IfErr, codes, option_map, string_bytes};
ghost use Rattle.serde_json.specs.View.{view};
ghost use Rattle.transform_json.specs.Transforms.{transform_of};
ghost use Rattle.line_parts.specs.Within.{first_fault, behind, transform_path, transform_fault, transform_read, transform_in};

use crate::error::LineError;
use crate::faults::first_fault;
use crate::parts::at_fault;
use cells::Name;
use index_transform::Transform;
use serde_json::Value;
use std::alloc::{AllocError, Global};
use transform_json::{JsonError, read_transform};

/// The transform of a line, if there is one.
///
/// # Errors
/// `BadMember` at `transform`, or behind `transform/` at the path in it that is at fault; `Memory` where an allocation failed.
#[tactic(auto, unfolding(crate::specs::Within::transform_in))]
pub fn transform_in(alloc: Global, value: &Value) -> Result<Option<Transform>, JsonError>
    ensures ok { IfOk result (λ transform. transform_in (view value.now) ≡ Ok transform) }
    ensures err { IfErr result (λ e. e ≢ JsonError.Memory → transform_in (view value.now) ≡ Err (transform_path e)) }
{
    match value.get("transform") {
        Some(transform) => transform_of(alloc, transform),
        None => Ok(None),
    }
}

fn transform_of(alloc: Global, value: &Value) -> Result<Option<Transform>, JsonError>
    ensures ok { IfOk result (λ transform. transform_read (view value.now) (transform_of (view value.now))
        ≡ Ok transform) }
    ensures err { IfErr result (λ e. e ≢ JsonError.Memory
        → transform_read (view value.now) (transform_of (view value.now)) ≡ Err (transform_path e)) }
{
    match read_transform(alloc, value) {
        Ok(transform) => Ok(Some(transform)),
        Err(e) => Err(at_transform(alloc, value, e)),
    }
}

// The error with its path from the line on.
fn at_transform(alloc: Global, value: &Value, error: JsonError) -> JsonError
    ensures { result ≢ JsonError.Memory
        → (error ≢ JsonError.Memory) × (transform_fault (view value.now) error ≡ transform_path result) }
{
    match error {
        JsonError::BadMember { path } => match behind(alloc, value, path.items()) {
            Ok(path) => JsonError::BadMember {
                path: Name::wrap(path),
            },
            Err(_) => JsonError::Memory,
        },
        JsonError::Memory => JsonError::Memory,
    }
}

/// The fault of a transform, or that of another member that comes before it; `Memory` where an allocation failed.
pub fn faulty_transform(alloc: Global, others: Option<&str>, error: &JsonError) -> LineError
    ensures { result ≢ LineError.Memory → (error.now ≢ JsonError.Memory)
        × (result ≡ LineError.Member (first_fault (codes "transform") (option_map (λ s.
        s.now) others.entry) (transform_path error.now))) }
{
    match error {
        JsonError::BadMember { path } => {
            at_fault(alloc, first_fault("transform", others, path.items()))
        }
        JsonError::Memory => LineError::Memory,
    }
}

fn behind(alloc: Global, value: &Value, path: &str) -> Result<String, AllocError>
    ensures { IfOk result (λ whole. string_bytes whole ≡ behind (codes "transform") (view value.now) path.now) }
{
    if value.as_object().is_none() {
        return String::from_str(alloc, "transform");
    }
    let mut whole = String::from_str(alloc, "transform/")?;
    whole.push_str(path)?;
    Ok(whole)
}
