// Steps as JSON.
ghost use Rattle.std.specs.List.{All};
ghost use Rattle.std.specs.Prelude.{◌≡◌, ◌≢◌, Err, IfErr, IfOk, None, Ok, Some, count_by, option_map};
ghost use Rattle.serde_json.specs.View.{view};
ghost use Rattle.step_forms.specs.Acts.{act_of, numbers_of, only_true, per_dim_of, slices_of, taking_act, texts_of};
ghost use Rattle.step_forms.specs.Forms.{has, index_of, list_by};
ghost use Rattle.step_forms.specs.Given.{IsGiven};
ghost use Rattle.step_forms.specs.Steps.{dims_of, names_step, step_names, step_of_json, step_on, steps_of_json};
ghost use Rattle.step_forms.specs.declared.act.Act.TheVariants as kind;

use crate::act::{Act, Select, Step};
use crate::error::StepsError;
use crate::numbers::{arrays_of, indices_of, numbers_of, per_dim_of, texts_of};
use crate::selector::{positions_of, selectors_of};
use crate::slices::{has_only, marks_of, slices_of};
use index_transform::{Index, List};
use json_forms::list_items;
use serde_json::Value;
use std::alloc::{AllocError, Global};

fn only_true(act: Act, value: &Value) -> Option<Act>
    ensures { result ≡ only_true act (view value.now) }
{
    if value.as_bool()? { Some(act) } else { None }
}

fn label_act(alloc: Global, value: &Value) -> Result<Option<Act>, AllocError>
    ensures { IfOk result (λ o. o ≡ option_map kind.Label (texts_of (view value.now))) }
{
    match texts_of(alloc, value)? {
        Some(labels) => Ok(Some(Act::Label { labels })),
        None => Ok(None),
    }
}

fn translate_to_act(alloc: Global, value: &Value) -> Result<Option<Act>, AllocError>
    ensures { IfOk result (λ o. o ≡ option_map kind.TranslateTo (per_dim_of (view value.now))) }
{
    match per_dim_of(alloc, value)? {
        Some(by) => Ok(Some(Act::TranslateTo { by })),
        None => Ok(None),
    }
}

fn translate_by_act(alloc: Global, value: &Value) -> Result<Option<Act>, AllocError>
    ensures { IfOk result (λ o. o ≡ option_map kind.TranslateBy (per_dim_of (view value.now))) }
{
    match per_dim_of(alloc, value)? {
        Some(by) => Ok(Some(Act::TranslateBy { by })),
        None => Ok(None),
    }
}

fn translate_backward_by_act(alloc: Global, value: &Value) -> Result<Option<Act>, AllocError>
    ensures { IfOk result (λ o. o ≡ option_map kind.TranslateBackwardBy (per_dim_of (view value.now))) }
{
    match per_dim_of(alloc, value)? {
        Some(by) => Ok(Some(Act::TranslateBackwardBy { by })),
        None => Ok(None),
    }
}

fn stride_act(alloc: Global, value: &Value) -> Result<Option<Act>, AllocError>
    ensures { IfOk result (λ o. o ≡ option_map kind.Stride (per_dim_of (view value.now))) }
{
    match per_dim_of(alloc, value)? {
        Some(by) => Ok(Some(Act::Stride { by })),
        None => Ok(None),
    }
}

fn transpose_act(alloc: Global, value: &Value) -> Result<Option<Act>, AllocError>
    ensures { IfOk result (λ o. o ≡ option_map kind.Transpose (list_by index_of (view value.now))) }
{
    match indices_of(alloc, value)? {
        Some(targets) => Ok(Some(Act::Transpose {
            targets: Index::wrap(targets),
        })),
        None => Ok(None),
    }
}

fn at_act(alloc: Global, value: &Value) -> Result<Option<Act>, AllocError>
    ensures { IfOk result (λ o. o ≡ option_map kind.At (numbers_of (view value.now))) }
{
    match numbers_of(alloc, value)? {
        Some(by) => Ok(Some(Act::At { by })),
        None => Ok(None),
    }
}

fn slice_act(alloc: Global, value: &Value) -> Result<Option<Act>, AllocError>
    ensures { IfOk result (λ o. o ≡ option_map kind.Slice (slices_of (view value.now))) }
{
    match slices_of(alloc, value)? {
        Some(by) => Ok(Some(Act::Slice { by })),
        None => Ok(None),
    }
}

fn oindex_act(alloc: Global, value: &Value) -> Result<Option<Act>, AllocError>
    ensures { IfOk result (λ o. o ≡ option_map kind.Oindex (list_by (list_by index_of) (view value.now))) }
{
    match arrays_of(alloc, value)? {
        Some(arrays) => Ok(Some(Act::Oindex { arrays })),
        None => Ok(None),
    }
}

fn vindex_act(alloc: Global, value: &Value) -> Result<Option<Act>, AllocError>
    ensures { IfOk result (λ o. o ≡ option_map kind.Vindex (list_by (list_by index_of) (view value.now))) }
{
    match arrays_of(alloc, value)? {
        Some(arrays) => Ok(Some(Act::Vindex { arrays })),
        None => Ok(None),
    }
}

// A step that takes indices out, or one that adds dimensions or sets flags.
fn taking_act(alloc: Global, value: &Value) -> Result<Option<Act>, AllocError>
    ensures { IfOk result (λ o. o ≡ taking_act (view value.now)) }
{
    if let Some(found) = value.get("at") {
        return at_act(alloc, found);
    }
    if let Some(found) = value.get("slice") {
        return slice_act(alloc, found);
    }
    if let Some(found) = value.get("oindex") {
        return oindex_act(alloc, found);
    }
    if let Some(found) = value.get("vindex") {
        return vindex_act(alloc, found);
    }
    if let Some(found) = value.get("newaxis") {
        return Ok(only_true(Act::Newaxis, found));
    }
    match value.get("mark_bounds_implicit") {
        Some(found) => marks_of(alloc, found),
        None => Ok(None),
    }
}

// What a step does.
fn act_of(alloc: Global, value: &Value) -> Result<Option<Act>, AllocError>
    ensures { IfOk result (λ o. o ≡ act_of (view value.now)) }
{
    if let Some(found) = value.get("label") {
        return label_act(alloc, found);
    }
    if let Some(found) = value.get("translate_to") {
        return translate_to_act(alloc, found);
    }
    if let Some(found) = value.get("translate_by") {
        return translate_by_act(alloc, found);
    }
    if let Some(found) = value.get("translate_backward_by") {
        return translate_backward_by_act(alloc, found);
    }
    if let Some(found) = value.get("stride") {
        return stride_act(alloc, found);
    }
    if let Some(found) = value.get("transpose") {
        return transpose_act(alloc, found);
    }
    match value.get("diagonal") {
        Some(found) => Ok(only_true(Act::Diagonal, found)),
        None => taking_act(alloc, value),
    }
}

// The selectors of a list; new dimensions are given by positions alone.
fn dims_of(
    alloc: Global,
    is_newaxis: bool,
    dims: &Value,
) -> Result<Option<List<Select>>, AllocError>
    ensures { IfOk result (λ o. o ≡ dims_of is_newaxis (view dims.now)) }
{
    if is_newaxis {
        positions_of(alloc, dims)
    } else {
        selectors_of(alloc, dims)
    }
}

// The step on all dimensions, which a step that adds some can't be.
fn step_on_all(alloc: Global, act: Act) -> Option<Step>
    ensures { result ≡ step_on act None }
{
    if matches!(&act, Act::Newaxis) {
        return None;
    }
    Some(Step {
        dims: List::wrap(Vec::new(alloc)),
        all: true,
        act,
    })
}

fn step_on_some(alloc: Global, act: Act, dims: &Value) -> Result<Option<Step>, AllocError>
    ensures { IfOk result (λ o. o ≡ step_on act (Some (view dims.now))) }
{
    match dims_of(alloc, matches!(&act, Act::Newaxis), dims)? {
        Some(dims) => Ok(Some(Step {
            dims,
            all: false,
            act,
        })),
        None => Ok(None),
    }
}

// The dimensions that a step is for.
fn step_on(alloc: Global, act: Act, dims: Option<&Value>) -> Result<Option<Step>, AllocError>
    ensures { IfOk result (λ o. o ≡ step_on act (option_map (λ v. view v.now) dims.entry)) }
{
    match dims {
        Some(dims) => step_on_some(alloc, act, dims),
        None => Ok(step_on_all(alloc, act)),
    }
}

/// Whether a value is an object with exactly one step name, and maybe `dims`.
fn names_step(value: &Value) -> bool
    ensures { result ≡ names_step (view value.now) }
{
    if !has_only(
        value,
        &[
            "dims",
            "label",
            "translate_to",
            "translate_by",
            "translate_backward_by",
            "stride",
            "transpose",
            "diagonal",
            "at",
            "slice",
            "oindex",
            "vindex",
            "newaxis",
            "mark_bounds_implicit",
        ],
    ) {
        return false;
    }
    count_names(value) == 1
}

fn count_names(value: &Value) -> usize
    ensures { result ≡ count_by (λ name. has name (view value.now)) step_names }
{
    count_members(
        value,
        &[
            "label",
            "translate_to",
            "translate_by",
            "translate_backward_by",
            "stride",
            "transpose",
            "diagonal",
            "at",
            "slice",
            "oindex",
            "vindex",
            "newaxis",
            "mark_bounds_implicit",
        ],
    )
}

fn count_members(value: &Value, names: &[&str]) -> usize
    ensures { result ≡ count_by (λ name. has name.now (view value.now)) names.now }
{
    names
        .iter()
        .filter(|name| value.get(**name).is_some())
        .count()
}

fn step_of(alloc: Global, value: &Value) -> Result<Option<Step>, AllocError>
    ensures { IfOk result (λ o. o ≡ step_of_json (view value.now)) }
{
    if !names_step(value) {
        return Ok(None);
    }
    let Some(act) = act_of(alloc, value)? else {
        return Ok(None);
    };
    step_on(alloc, act, value.get("dims"))
}

/// The steps of a JSON value: a list of objects, each with one step name and maybe `dims`. They can be applied.
///
/// # Errors
///
/// - `BadStep` with the number of the first step that has no form, the first with 0; 0 also where the value is no list.
/// - `Memory`.
///
/// TensorStore, "Index space", "Dimension expressions".
#[tactic(auto, using(crate::proofs::StepLists::read_more, crate::proofs::StepLists::read_none, crate::proofs::StepLists::read_all))]
pub fn read_steps(alloc: Global, value: &Value) -> Result<List<Step>, StepsError>
    ensures ok { IfOk result (λ steps. steps_of_json (view value.now) ≡ Ok steps) }
    ensures err { IfErr result (λ e. e ≢ StepsError.Memory → steps_of_json (view value.now) ≡ Err e) }
    ensures given { IfOk result (All IsGiven) }
{
    let Some(items) = list_items(value) else {
        return Err(StepsError::BadStep { step: 0 });
    };
    let mut steps = Vec::with_capacity(alloc, items.len())?;
    for k in 0..items.len() {
        let Some(step) = step_of(alloc, &items[k])? else {
            return Err(bad_step(k));
        };
        if steps.push(step).is_err() {
            return Err(StepsError::Memory);
        }
    }
    Ok(List::wrap(steps))
}

// So many steps would not fit the memory.
fn bad_step(number: usize) -> StepsError
    ensures { result ≢ StepsError.Memory → result ≡ StepsError.BadStep number }
{
    match u32::try_from(number) {
        Ok(step) => StepsError::BadStep { step },
        Err(_) => StepsError::Memory,
    }
}
