// The members that Specs share.
ghost use Rattle.std.specs.Prelude.{◌≡◌, ◌≢◌, Ok, Err, IfOk, IfErr, OnOk, codes, option_map};
ghost use Rattle.serde_json.specs.Find.{get};
ghost use Rattle.serde_json.specs.View.{view};
ghost use Rattle.transform_json.specs.Transforms.{transform_of};
ghost use Rattle.transform_json.specs.declared.error.JsonError.TheVariants as json;
ghost use Rattle.spec_forms.specs.Faults.{joined, in_turn};
ghost use Rattle.spec_forms.specs.Members.{judged_absent, said, judged_false, flag_of, judged_flag, known, dtype_of, judged_dtype, required, agrees, agreeing, fault_in, placed, transform_at, tail_at, false_at};
ghost use Rattle.spec_forms.specs.declared.error.SpecError.{SpecError};

use crate::error::SpecError;
use crate::places::{fault_at, joined, judged_in_turn, none_before, none_left, own_fault};
use cells::{Dtype, Name};
use index_transform::Transform;
use meta_forms::Fault;
use serde_json::Value;
use std::alloc::Global;
use transform_json::{JsonError, read_transform};

/// The transform of a Spec, if it has one, and its path.
#[derive(Debug, Drop)]
pub struct Tail {
    pub transform: Option<Transform>,
    pub at: Name,
}

/// The members of every Spec that come behind those of its driver; the transform is the last.
#[tactic(auto, unfolding(crate::specs::Members::tail_at))]
pub fn tail_at(
    alloc: Global,
    path: &str,
    unknown: Option<&str>,
    value: &Value,
) -> Result<Tail, SpecError>
    ensures value { IfOk result (λ tail.
        tail_at path.now (option_map (λ s. s.now) unknown.entry) (view value.now) ≡ Ok tail.transform) }
    ensures at { IfOk result (λ tail. tail.at ≡ path.now) }
    ensures causes { IfErr result (λ e. e ≢ SpecError.Memory
        → tail_at path.now (option_map (λ s. s.now) unknown.entry) (view value.now) ≡ Err e) }
{
    judged_in_turn(alloc, path, unknown, "rank", judged_absent(value, "rank"))?;
    judged_in_turn(
        alloc,
        path,
        unknown,
        "schema",
        judged_absent(value, "schema"),
    )?;
    false_at(
        alloc,
        "store_data_equal_to_fill_value",
        path,
        unknown,
        value,
    )?;
    let transform = transform_in_turn(alloc, path, unknown, value)?;
    none_left(alloc, path, unknown)?;
    Ok(Tail {
        transform,
        at: Name::wrap(String::from_str(alloc, path)?),
    })
}

#[tactic(auto, unfolding(crate::specs::Faults::in_turn))]
fn transform_in_turn(
    alloc: Global,
    path: &str,
    unknown: Option<&str>,
    value: &Value,
) -> Result<Option<Transform>, SpecError>
    ensures value { IfOk result (λ t. in_turn path.now (option_map (λ s. s.now) unknown.entry) (codes "transform")
        (transform_at (joined path.now (codes "transform")) (get (codes "transform") (view value.now))) ≡ Ok t) }
    ensures causes { IfErr result (λ e. e ≢ SpecError.Memory
        → in_turn path.now (option_map (λ s. s.now) unknown.entry) (codes "transform")
        (transform_at (joined path.now (codes "transform")) (get (codes "transform") (view value.now))) ≡ Err e) }
{
    none_before(alloc, path, unknown, "transform")?;
    let at = joined(alloc, path, "transform")?;
    transform_at(alloc, at.items(), value.get("transform"))
}

#[tactic(auto, unfolding(crate::specs::Members::transform_at))]
fn transform_at(
    alloc: Global,
    path: &str,
    value: Option<&Value>,
) -> Result<Option<Transform>, SpecError>
    ensures value { IfOk result (λ t. transform_at path.now (option_map (λ v. view v.now) value.entry) ≡ Ok t) }
    ensures causes { IfErr result (λ e. e ≢ SpecError.Memory
        → transform_at path.now (option_map (λ v. view v.now) value.entry) ≡ Err e) }
{
    match value {
        None => Ok(None),
        Some(value) => match read_transform(alloc, value) {
            Ok(transform) => Ok(Some(transform)),
            Err(error) => Err(below(alloc, path, value, error)),
        },
    }
}

// The fault of a transform, as one of the Spec that it stands in.
fn below(alloc: Global, path: &str, value: &Value, error: JsonError) -> SpecError
    ensures { result ≢ SpecError.Memory → placed path.now (view value.now) (Err error) ≡ Err result }
{
    match error {
        JsonError::BadMember { path: inner } => bad_in(alloc, path, value, inner.items()),
        JsonError::Memory => SpecError::Memory,
    }
}

// That an object is at fault at a path in it, or another value itself.
fn bad_in(alloc: Global, path: &str, value: &Value, inner: &str) -> SpecError
    ensures { result ≢ SpecError.Memory → result ≡ SpecError.BadSpec (fault_in path.now (view value.now) inner.now) }
{
    if value.as_object().is_some() {
        fault_at(alloc, path, inner, Fault::Bad)
    } else {
        own_fault(alloc, path, Fault::Bad)
    }
}

/// A member of a Spec that may say false alone, in its turn.
#[tactic(auto, unfolding(crate::specs::Members::false_at))]
pub fn false_at(
    alloc: Global,
    name: &str,
    path: &str,
    unknown: Option<&str>,
    value: &Value,
) -> Result<(), SpecError>
    ensures value { OnOk result (false_at name.now path.now (option_map (λ s.
        s.now) unknown.entry) (view value.now) ≡ Ok tt) }
    ensures causes { IfErr result (λ e. e ≢ SpecError.Memory
        → false_at name.now path.now (option_map (λ s. s.now) unknown.entry) (view value.now) ≡ Err e) }
{
    judged_in_turn(alloc, path, unknown, name, judged_false(value, name))
}

fn judged_absent(value: &Value, name: &str) -> Result<(), Fault>
    ensures { result ≡ judged_absent (get name.now (view value.now)) }
{
    match value.get(name) {
        None => Ok(()),
        Some(_) => Err(Fault::Unsupported),
    }
}

fn judged_false(value: &Value, name: &str) -> Result<(), Fault>
    ensures { result ≡ judged_false (get name.now (view value.now)) }
{
    match value.get(name) {
        None => Ok(()),
        Some(member) => match member.as_bool() {
            Some(false) => Ok(()),
            _ => Err(Fault::Unsupported),
        },
    }
}

/// True or false, where the member is there.
pub(crate) fn judged_flag(value: &Value, name: &str) -> Result<Option<bool>, Fault>
    ensures { result ≡ judged_flag (get name.now (view value.now)) }
{
    match value.get(name) {
        None => Ok(None),
        Some(member) => match member.as_bool() {
            Some(flag) => Ok(Some(flag)),
            None => Err(Fault::Bad),
        },
    }
}

/// The dtype of a Spec's own, where it names one.
pub fn judged_dtype(value: &Value) -> Result<Option<Dtype>, Fault>
    ensures { result ≡ judged_dtype (get (codes "dtype") (view value.now)) }
{
    match value.get("dtype") {
        None => Ok(None),
        Some(member) => match member.as_str() {
            Some(text) => named(text),
            None => Err(Fault::Bad),
        },
    }
}

fn named(text: &str) -> Result<Option<Dtype>, Fault>
    ensures { result ≡ dtype_of (Some text.now) }
{
    match Dtype::named(text) {
        Some(dtype) => Ok(Some(dtype)),
        None => Err(Fault::Unsupported),
    }
}

/// A dtype that has to be there.
pub fn required(judged: Result<Option<Dtype>, Fault>) -> Result<Dtype, Fault>
    ensures { result ≡ required judged }
{
    match judged {
        Ok(Some(dtype)) => Ok(dtype),
        Ok(None) => Err(Fault::Bad),
        Err(fault) => Err(fault),
    }
}

/// A dtype that has to be the same as another one, where both are named.
pub(crate) fn agreeing(
    named: Option<Dtype>,
    judged: Result<Option<Dtype>, Fault>,
) -> Result<Option<Dtype>, Fault>
    ensures { result ≡ agreeing named judged }
{
    match judged {
        Ok(own) => if agrees(named, own) {
            Ok(own)
        } else {
            Err(Fault::Bad)
        },
        Err(fault) => Err(fault),
    }
}

fn agrees(named: Option<Dtype>, own: Option<Dtype>) -> bool
    ensures { result ≡ agrees named own }
{
    match named {
        Some(named) => match own {
            Some(own) => named.name() == own.name(),
            None => true,
        },
        None => true,
    }
}
