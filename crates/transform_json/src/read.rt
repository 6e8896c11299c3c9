// A transform from JSON.
ghost use Rattle.std.specs.Prelude.{◌≡◌, ◌≢◌, Ok, Err, IfOk, IfErr, option_map};
ghost use Rattle.json_forms.specs.Members.{least_unknown};
ghost use Rattle.serde_json.specs.View.{view};
ghost use Rattle.transform_json.specs.Transforms.{transform_members, transform_in, transform_of};

use crate::error::{JsonError, bad_member};
use crate::input::domain_of;
use crate::output::maps_of;
use index_transform::Transform;
use json_forms::least_unknown;
use serde_json::Value;
use std::alloc::Global;

/// The transform that a value is.
///
/// TensorStore, "Index space", JSON of index transforms.
///
/// # Errors
/// `BadMember` with the path of the first member at fault, in this order: the value itself where it is no object, unknown
/// members in byte order, `input_rank`, `input_inclusive_min`, the member of upper bounds, an interval out of order,
/// `input_labels`, and `output` with its maps one after another, their members in byte order. `Memory` where an allocation
/// failed.
pub fn read_transform(alloc: Global, v: &Value) -> Result<Transform, JsonError>
    ensures value { IfOk result (λ t. transform_of (view v.now) ≡ Ok t) }
    ensures causes { IfErr result (λ e. e ≢ JsonError.Memory → transform_of (view v.now) ≡ Err e) }
{
    if v.as_object().is_none() {
        return Err(bad_member(alloc, ""));
    }
    match unknown_member(v) {
        Some(name) => Err(bad_member(alloc, name)),
        None => transform_in(alloc, v),
    }
}

// The least member in byte order that a transform doesn't have.
fn unknown_member(value: &Value) -> Option<&str>
    ensures { option_map (λ name. name.now) result ≡ least_unknown transform_members (view value.now) }
{
    let known = [
        "input_rank",
        "output",
        "input_inclusive_min",
        "input_exclusive_max",
        "input_inclusive_max",
        "input_shape",
        "input_labels",
    ];
    least_unknown(value, &known)
}

// The transform by its members.
fn transform_in(alloc: Global, value: &Value) -> Result<Transform, JsonError>
    ensures value { IfOk result (λ t. transform_in (view value.now) ≡ Ok t) }
    ensures causes { IfErr result (λ e. e ≢ JsonError.Memory → transform_in (view value.now) ≡ Err e) }
{
    let domain = domain_of(alloc, value)?;
    let maps = maps_of(alloc, value, domain.dims.items())?;
    match Transform::new(domain, maps) {
        Ok(transform) => Ok(transform),
        Err(_) => unreachable!(),
    }
}
