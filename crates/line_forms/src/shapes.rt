// `{"resize":NAME,"shape":SHAPE}`, `{"resolve":NAME}`.
ghost use Rattle.std.specs.Prelude.{◌≡◌, ◌≢◌, Ok, Err, IfOk, IfErr, IfSome, ◌∷◌, [], codes, option_map, option_and_then};
ghost use Rattle.serde_json.specs.View.{view};
ghost use Rattle.cells.specs.Shapes.{IsShape};
ghost use Rattle.json_forms.specs.Lists.{u64_list};
ghost use Rattle.json_forms.specs.Members.{least_unknown};
ghost use Rattle.line_forms.specs.Form.{form_of, IsSoundOther};
ghost use Rattle.line_parts.specs.Parts.{earlier, unless_so, no_name};
ghost use Rattle.line_forms.specs.Small.{as_shape, shape_at, resized_as, resized, resize_form, resolved, resolve_form};

use crate::command::Command;
use cells::{Name, Sizes, is_shape};
use json_forms::{least_unknown, u64_list};
use line_parts::{LineError, at_fault, earlier, name_in, no_name, unless_so};
use serde_json::Value;
use std::alloc::{AllocError, Global};

/// The command that gives an array another shape.
#[tactic(auto, unfolding(crate::specs::Small::resize_form))]
pub(crate) fn resize_line(alloc: Global, value: &Value) -> Result<Command, LineError>
    ensures ok { IfOk result (λ command. resize_form (view value.now) ≡ Ok (form_of command)) }
    ensures err { IfErr result (λ e. e ≢ LineError.Memory → resize_form (view value.now) ≡ Err e) }
    ensures sound { IfOk result IsSoundOther }
{
    let shape = shape_at(alloc, value)?;
    match resize_fault(value, shape.is_some()) {
        Some(fault) => Err(at_fault(alloc, fault)),
        None => resized(alloc, value, shape),
    }
}

// The shape of a line, where it has one that an array may have.
fn shape_at(alloc: Global, value: &Value) -> Result<Option<Sizes>, AllocError>
    ensures shape { IfOk result (λ shape. shape_at (view value.now) ≡ shape) }
    ensures sound { IfOk result (λ shape. IfSome shape IsShape) }
{
    match value.get("shape") {
        Some(list) => shape_of(alloc, list),
        None => Ok(None),
    }
}

fn shape_of(alloc: Global, list: &Value) -> Result<Option<Sizes>, AllocError>
    ensures shape { IfOk result (λ shape. option_and_then as_shape (u64_list (view list.now)) ≡ shape) }
    ensures sound { IfOk result (λ shape. IfSome shape IsShape) }
{
    match u64_list(alloc, list)? {
        Some(sizes) => Ok(as_shape(sizes)),
        None => Ok(None),
    }
}

fn as_shape(sizes: Vec<u64>) -> Option<Sizes>
    ensures shape { result ≡ as_shape sizes.items }
    ensures sound { IfSome result IsShape }
{
    if is_shape(&sizes) {
        Some(Sizes::wrap(sizes))
    } else {
        None
    }
}

fn resize_fault(value: &Value, has_shape: bool) -> Option<&str>
    ensures { option_map (λ s. s.now) result
        ≡ earlier (least_unknown (codes "resize" ∷ codes "shape" ∷ []) (view value.now))
        (earlier (no_name (codes "resize") (view value.now)) (unless_so has_shape (codes "shape"))) }
{
    let unknown = least_unknown(value, &["resize", "shape"]);
    let wrong = earlier(no_name(value, "resize"), unless_so(has_shape, "shape"));
    earlier(unknown, wrong)
}

fn resized(alloc: Global, value: &Value, shape: Option<Sizes>) -> Result<Command, LineError>
    requires { IfSome shape IsShape }
    ensures ok { IfOk result (λ command. resized shape (view value.now) ≡ Ok (form_of command)) }
    ensures err { IfErr result (λ e. e ≢ LineError.Memory → resized shape (view value.now) ≡ Err e) }
    ensures sound { IfOk result IsSoundOther }
{
    match name_in(alloc, value, "resize") {
        Ok(name) => with_shape(alloc, name, shape),
        Err(e) => Err(e),
    }
}

fn with_shape(alloc: Global, name: Name, shape: Option<Sizes>) -> Result<Command, LineError>
    requires { IfSome shape IsShape }
    ensures ok { IfOk result (λ command. resized_as shape name ≡ Ok (form_of command)) }
    ensures err { IfErr result (λ e. e ≢ LineError.Memory → resized_as shape name ≡ Err e) }
    ensures sound { IfOk result IsSoundOther }
{
    match shape {
        Some(shape) => Ok(Command::Resize { name, shape }),
        None => Err(at_fault(alloc, "shape")),
    }
}

/// The command that takes the bounds of a view anew.
#[tactic(auto, unfolding(crate::specs::Small::resolve_form))]
pub(crate) fn resolve_line(alloc: Global, value: &Value) -> Result<Command, LineError>
    ensures ok { IfOk result (λ command. resolve_form (view value.now) ≡ Ok (form_of command)) }
    ensures err { IfErr result (λ e. e ≢ LineError.Memory → resolve_form (view value.now) ≡ Err e) }
    ensures sound { IfOk result IsSoundOther }
{
    match resolve_fault(value) {
        Some(fault) => Err(at_fault(alloc, fault)),
        None => resolved(alloc, value),
    }
}

fn resolve_fault(value: &Value) -> Option<&str>
    ensures { option_map (λ s. s.now) result
        ≡ earlier (least_unknown (codes "resolve" ∷ []) (view value.now)) (no_name (codes "resolve") (view value.now)) }
{
    earlier(
        least_unknown(value, &["resolve"]),
        no_name(value, "resolve"),
    )
}

fn resolved(alloc: Global, value: &Value) -> Result<Command, LineError>
    ensures ok { IfOk result (λ command. resolved (view value.now) ≡ Ok (form_of command)) }
    ensures err { IfErr result (λ e. e ≢ LineError.Memory → resolved (view value.now) ≡ Err e) }
    ensures sound { IfOk result IsSoundOther }
{
    match name_in(alloc, value, "resolve") {
        Ok(name) => Ok(Command::Resolve { name }),
        Err(e) => Err(e),
    }
}
