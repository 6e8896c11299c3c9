// `{"view":NAME,"overlay":NAMES,"transform":TRANSFORM,"steps":STEPS}`, and with `concat` or `stack` and an `axis`.
ghost use Rattle.std.specs.Prelude.{◌≡◌, ◌≢◌, ◌∷◌, ◌++◌, [], Ok, Err, IfOk, IfErr, IfSome, OnOk, Some, codes, is_some, map, option_map, option_and_then};
ghost use Rattle.serde_json.specs.View.{view};
ghost use Rattle.json_forms.specs.Lists.{list_items, all_of};
ghost use Rattle.json_forms.specs.Members.{least_unknown};
ghost use Rattle.line_forms.specs.Form.{form_of, AreLayers, IsSoundOther};
ghost use Rattle.line_parts.specs.Names.{name_of};
ghost use Rattle.line_parts.specs.Parts.{earlier, unless_so, no_name, where_sound};
ghost use Rattle.line_forms.specs.Views.{as_layers, layers_at, as_axis, axis_at, overlay_members, axis_members, overlay_fault, axis_fault, join_of, join_by, join_as, join_in, joined, overlay_form, concat_form, stack_form};

use crate::command::{Command, JoinForm};
use cells::{List, Name};
use index_transform::Transform;
use json_forms::{least_unknown, list_items};
use line_parts::{
    LineError, at_fault, earlier, faulty_transform, name_in, name_of, no_name, owned, steps_in,
    transform_in, unless_so,
};
use serde_json::Value;
use std::alloc::{AllocError, Global};

/// The command that sees views over one another.
#[tactic(auto, unfolding(crate::specs::Views::overlay_form))]
pub(crate) fn overlay_line(alloc: Global, value: &Value) -> Result<Command, LineError>
    ensures ok { IfOk result (λ command. overlay_form (view value.now) ≡ Ok (form_of command)) }
    ensures err { IfErr result (λ e. e ≢ LineError.Memory → overlay_form (view value.now) ≡ Err e) }
    ensures sound { IfOk result IsSoundOther }
{
    let layers = layers_at(alloc, value, "overlay")?;
    let fault = overlay_fault(value, layers.is_some());
    joined(
        alloc,
        value,
        "overlay",
        fault,
        Some(JoinForm::Overlay),
        layers,
    )
}

/// The command that sees views behind one another.
#[tactic(auto, unfolding(crate::specs::Views::concat_form))]
pub(crate) fn concat_line(alloc: Global, value: &Value) -> Result<Command, LineError>
    ensures ok { IfOk result (λ command. concat_form (view value.now) ≡ Ok (form_of command)) }
    ensures err { IfErr result (λ e. e ≢ LineError.Memory → concat_form (view value.now) ≡ Err e) }
    ensures sound { IfOk result IsSoundOther }
{
    let layers = layers_at(alloc, value, "concat")?;
    let axis = axis_at(value);
    let fault = axis_fault(value, "concat", axis.is_some(), layers.is_some());
    joined(alloc, value, "concat", fault, concat_by(axis), layers)
}

/// The command that sees views beside one another.
#[tactic(auto, unfolding(crate::specs::Views::stack_form))]
pub(crate) fn stack_line(alloc: Global, value: &Value) -> Result<Command, LineError>
    ensures ok { IfOk result (λ command. stack_form (view value.now) ≡ Ok (form_of command)) }
    ensures err { IfErr result (λ e. e ≢ LineError.Memory → stack_form (view value.now) ≡ Err e) }
    ensures sound { IfOk result IsSoundOther }
{
    let layers = layers_at(alloc, value, "stack")?;
    let axis = axis_at(value);
    let fault = axis_fault(value, "stack", axis.is_some(), layers.is_some());
    joined(alloc, value, "stack", fault, stack_by(axis), layers)
}

fn concat_by(axis: Option<u32>) -> Option<JoinForm>
    ensures { result ≡ option_map JoinForm.Concat axis }
{
    match axis {
        Some(axis) => Some(JoinForm::Concat { axis }),
        None => None,
    }
}

fn stack_by(axis: Option<u32>) -> Option<JoinForm>
    ensures { result ≡ option_map JoinForm.Stack axis }
{
    match axis {
        Some(axis) => Some(JoinForm::Stack { axis }),
        None => None,
    }
}

fn axis_at(value: &Value) -> Option<u32>
    ensures { result ≡ axis_at (view value.now) }
{
    as_axis(value.get("axis")?.as_u64()?)
}

fn as_axis(number: u64) -> Option<u32>
    ensures { result ≡ as_axis number }
{
    if number <= 31 {
        Some(number as u32)
    } else {
        None
    }
}

fn layers_at(alloc: Global, value: &Value, key: &str) -> Result<Option<List<Name>>, AllocError>
    ensures layers { IfOk result (λ layers. layers_at key.now (view value.now) ≡ layers) }
    ensures few { IfOk result (λ layers. IfSome layers AreLayers) }
{
    match value.get(key) {
        Some(list) => layers_of(alloc, list),
        None => Ok(None),
    }
}

fn layers_of(alloc: Global, list: &Value) -> Result<Option<List<Name>>, AllocError>
    ensures layers { IfOk result (λ layers. option_and_then as_layers
        (option_and_then (all_of name_of) (list_items (view list.now))) ≡ layers) }
    ensures few { IfOk result (λ layers. IfSome layers AreLayers) }
{
    match list_items(list) {
        Some(items) => layers_in(alloc, items),
        None => Ok(None),
    }
}

fn layers_in(alloc: Global, items: &[Value]) -> Result<Option<List<Name>>, AllocError>
    ensures layers { IfOk result (λ layers. option_and_then as_layers (all_of name_of (map view items.now)) ≡ layers) }
    ensures few { IfOk result (λ layers. IfSome layers AreLayers) }
{
    match names_in(alloc, items)? {
        Some(names) => Ok(as_layers(names)),
        None => Ok(None),
    }
}

fn as_layers(names: Vec<Name>) -> Option<List<Name>>
    ensures layers { result ≡ as_layers names.items }
    ensures few { IfSome result AreLayers }
{
    if 1 <= names.len() && names.len() <= 256 {
        Some(List::wrap(names))
    } else {
        None
    }
}

fn names_in(alloc: Global, items: &[Value]) -> Result<Option<Vec<Name>>, AllocError>
    ensures { IfOk result (λ names. option_map (λ v. v.items) names ≡ all_of name_of (map view items.now)) }
{
    let mut names = Vec::with_capacity(alloc, items.len())?;
    for k in 0..items.len() {
        let Some(name) = name_of(&items[k]) else {
            return Ok(None);
        };
        put_name(alloc, &mut names, name)?;
    }
    Ok(Some(names))
}

fn put_name(alloc: Global, names: &mut Vec<Name>, name: &str) -> Result<(), AllocError>
    ensures { OnOk result (names.new.items ≡ names.old.items ++ name.now ∷ []) }
{
    let name = owned(alloc, name)?;
    match names.push(name) {
        Ok(()) => Ok(()),
        Err(_) => Err(AllocError),
    }
}

#[tactic(auto, unfolding(crate::specs::Views::overlay_fault))]
fn overlay_fault(value: &Value, has_layers: bool) -> Option<&str>
    ensures { option_map (λ s. s.now) result ≡ overlay_fault has_layers (view value.now) }
{
    earlier(
        unknown_in_overlay(value),
        wrong_layers(value, "overlay", has_layers),
    )
}

#[tactic(auto, unfolding(crate::specs::Views::overlay_members))]
fn unknown_in_overlay(value: &Value) -> Option<&str>
    ensures { option_map (λ s. s.now) result ≡ least_unknown overlay_members (view value.now) }
{
    least_unknown(value, &["overlay", "steps", "transform", "view"])
}

#[tactic(auto, unfolding(crate::specs::Views::axis_fault))]
fn axis_fault<'v>(
    value: &'v Value,
    key: &'v str,
    has_axis: bool,
    has_layers: bool,
) -> Option<&'v str>
    ensures { option_map (λ s. s.now) result ≡ axis_fault key.now has_axis has_layers (view value.now) }
{
    earlier(
        unknown_by_axis(value, key),
        wrong_axis(value, key, has_axis, has_layers),
    )
}

#[tactic(auto, unfolding(crate::specs::Views::axis_members))]
fn unknown_by_axis<'v>(value: &'v Value, key: &str) -> Option<&'v str>
    ensures { option_map (λ s. s.now) result ≡ least_unknown (axis_members key.now) (view value.now) }
{
    least_unknown(value, &["axis", key, "steps", "transform", "view"])
}

fn wrong_axis<'v>(
    value: &'v Value,
    key: &'v str,
    has_axis: bool,
    has_layers: bool,
) -> Option<&'v str>
    ensures { option_map (λ s. s.now) result
        ≡ earlier (unless_so has_axis (codes "axis"))
        (earlier (unless_so has_layers key.now) (no_name (codes "view") (view value.now))) }
{
    earlier(
        unless_so(has_axis, "axis"),
        wrong_layers(value, key, has_layers),
    )
}

fn wrong_layers<'v>(value: &'v Value, key: &'v str, has_layers: bool) -> Option<&'v str>
    ensures { option_map (λ s. s.now) result
        ≡ earlier (unless_so has_layers key.now) (no_name (codes "view") (view value.now)) }
{
    earlier(unless_so(has_layers, key), no_name(value, "view"))
}

#[tactic(auto, unfolding(crate::specs::Views::joined))]
fn joined(
    alloc: Global,
    value: &Value,
    key: &str,
    fault: Option<&str>,
    form: Option<JoinForm>,
    layers: Option<List<Name>>,
) -> Result<Command, LineError>
    requires { IfSome layers AreLayers }
    ensures ok { IfOk result (λ command. joined key.now (option_map (λ s.
        s.now) fault.entry) form layers (view value.now)
        ≡ Ok (form_of command)) }
    ensures err { IfErr result (λ e. e ≢ LineError.Memory
        → joined key.now (option_map (λ s. s.now) fault.entry) form layers (view value.now) ≡ Err e) }
    ensures sound { IfOk result IsSoundOther }
{
    match transform_in(alloc, value) {
        Ok(transform) => where_sound(alloc, value, key, fault, form, layers, transform),
        Err(error) => Err(faulty_transform(alloc, fault, &error)),
    }
}

fn where_sound(
    alloc: Global,
    value: &Value,
    key: &str,
    fault: Option<&str>,
    form: Option<JoinForm>,
    layers: Option<List<Name>>,
    transform: Option<Transform>,
) -> Result<Command, LineError>
    requires { IfSome layers AreLayers }
    ensures ok { IfOk result (λ command. where_sound (option_map (λ s.
        s.now) fault.entry) (join_in key.now form layers (view value.now) transform) ≡ Ok (form_of command)) }
    ensures err { IfErr result (λ e. e ≢ LineError.Memory
        → where_sound (option_map (λ s. s.now) fault.entry) (join_in key.now form layers (view value.now) transform)
        ≡ Err e) }
    ensures sound { IfOk result IsSoundOther }
{
    match fault {
        Some(fault) => Err(at_fault(alloc, fault)),
        None => named(alloc, value, key, form, layers, transform),
    }
}

fn named(
    alloc: Global,
    value: &Value,
    key: &str,
    form: Option<JoinForm>,
    layers: Option<List<Name>>,
    transform: Option<Transform>,
) -> Result<Command, LineError>
    requires { IfSome layers AreLayers }
    ensures ok { IfOk result (λ command. join_in key.now form layers (view value.now) transform
        ≡ Ok (form_of command)) }
    ensures err { IfErr result (λ e. e ≢ LineError.Memory
        → join_in key.now form layers (view value.now) transform ≡ Err e) }
    ensures sound { IfOk result IsSoundOther }
{
    match name_in(alloc, value, "view") {
        Ok(name) => formed(alloc, value, key, form, layers, transform, name),
        Err(e) => Err(e),
    }
}

fn formed(
    alloc: Global,
    value: &Value,
    key: &str,
    form: Option<JoinForm>,
    layers: Option<List<Name>>,
    transform: Option<Transform>,
    name: Name,
) -> Result<Command, LineError>
    requires { IfSome layers AreLayers }
    ensures ok { IfOk result (λ command. join_as key.now form layers (view value.now) transform name
        ≡ Ok (form_of command)) }
    ensures err { IfErr result (λ e. e ≢ LineError.Memory
        → join_as key.now form layers (view value.now) transform name ≡ Err e) }
    ensures sound { IfOk result IsSoundOther }
{
    match form {
        Some(kind) => layered(alloc, value, key, kind, layers, transform, name),
        None => Err(at_fault(alloc, "axis")),
    }
}

fn layered(
    alloc: Global,
    value: &Value,
    key: &str,
    kind: JoinForm,
    layers: Option<List<Name>>,
    transform: Option<Transform>,
    name: Name,
) -> Result<Command, LineError>
    requires { IfSome layers AreLayers }
    ensures ok { IfOk result (λ command. join_by key.now layers (view value.now) transform name kind
        ≡ Ok (form_of command)) }
    ensures err { IfErr result (λ e. e ≢ LineError.Memory
        → join_by key.now layers (view value.now) transform name kind ≡ Err e) }
    ensures sound { IfOk result IsSoundOther }
{
    match layers {
        Some(layers) => stepped(alloc, value, kind, layers, transform, name),
        None => Err(at_fault(alloc, key)),
    }
}

fn stepped(
    alloc: Global,
    value: &Value,
    kind: JoinForm,
    names: List<Name>,
    transform: Option<Transform>,
    name: Name,
) -> Result<Command, LineError>
    requires { AreLayers names }
    ensures ok { IfOk result (λ command. join_of (view value.now) transform name kind names ≡ Ok (form_of command)) }
    ensures err { IfErr result (λ e. e ≢ LineError.Memory
        → join_of (view value.now) transform name kind names ≡ Err e) }
    ensures sound { IfOk result IsSoundOther }
{
    match steps_in(alloc, value) {
        Ok(steps) => Ok(Command::Join {
            name,
            form: kind,
            layers: names,
            transform,
            steps,
        }),
        Err(e) => Err(e),
    }
}
