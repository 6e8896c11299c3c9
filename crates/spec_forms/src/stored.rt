// The Spec of a stored array.
ghost use Rattle.std.specs.Prelude.{◌≡◌, ◌≢◌, Ok, Err, IfOk, IfErr, codes, option_map, option_and_then};
ghost use Rattle.serde_json.specs.Find.{get};
ghost use Rattle.serde_json.specs.View.{view};
ghost use Rattle.meta_forms.specs.declared.error.MetaError.{MetaError};
ghost use Rattle.want_forms.specs.Wants.{want_of, named_dtype};
ghost use Rattle.spec_forms.specs.Faults.{joined, in_turn, judged_in_turn};
ghost use Rattle.spec_forms.specs.Members.{judged_flag};
ghost use Rattle.spec_forms.specs.Stored.{one_of_both, judged_open, asked_at, stored_leaf, own_dtype, asked_in, stored_at};
ghost use Rattle.spec_forms.specs.declared.error.SpecError.{SpecError};

use crate::error::SpecError;
use crate::kvstore::{Location, location_in_turn};
use crate::leaf::SpecLeaf;
use crate::members::{agreeing, false_at, judged_dtype, judged_flag};
use crate::places::{fault_at, joined, judged_in_turn, none_before, own_fault};
use cells::{Dtype, Name};
use meta_forms::{Fault, MetaError};
use serde_json::Value;
use std::alloc::Global;
use want_forms::{Format, Want};

/// The leaf of a stored array, whose members come in byte order.
#[tactic(auto, unfolding(crate::specs::Stored::stored_at))]
pub fn stored_at(
    alloc: Global,
    names: &[Name],
    format: Format,
    path: &str,
    unknown: Option<&str>,
    value: &Value,
) -> Result<SpecLeaf, SpecError>
    ensures value { IfOk result (λ leaf.
        stored_at names.now format path.now (option_map (λ s. s.now) unknown.entry) (view value.now) ≡ Ok leaf) }
    ensures causes { IfErr result (λ e. e ≢ SpecError.Memory
        → stored_at names.now format path.now (option_map (λ s. s.now) unknown.entry) (view value.now) ≡ Err e) }
{
    false_at(alloc, "assume_metadata", path, unknown, value)?;
    let create = judged_flag(value, "create");
    let create = judged_in_turn(alloc, path, unknown, "create", create)?;
    false_at(alloc, "delete_existing", path, unknown, value)?;
    let own = judged_in_turn(alloc, path, unknown, "dtype", own_dtype(format, value))?;
    let location = location_in_turn(alloc, names, path, unknown, value)?;
    let asked = asked_in(alloc, format, path, unknown, value, create, own)?;
    Ok(stored_leaf(location, asked, create.unwrap_or(false)))
}

/// What is asked of the metadata of an array, and whether it may be opened where it is there.
#[derive(Debug, Drop)]
pub(crate) struct Asked {
    pub want: Want,
    pub may_open: bool,
}

#[tactic(auto, unfolding(crate::specs::Stored::asked_in))]
fn asked_in(
    alloc: Global,
    format: Format,
    path: &str,
    unknown: Option<&str>,
    value: &Value,
    create: Option<bool>,
    own: Option<Dtype>,
) -> Result<Asked, SpecError>
    ensures value { IfOk result (λ asked. asked_in format path.now (option_map (λ s.
        s.now) unknown.entry) (view value.now)
        create own ≡ Ok asked) }
    ensures causes { IfErr result (λ e. e ≢ SpecError.Memory
        → asked_in format path.now (option_map (λ s. s.now) unknown.entry) (view value.now) create own ≡ Err e) }
{
    let want = want_in_turn(alloc, format, path, unknown, own, value)?;
    let open = judged_open(create, judged_flag(value, "open"));
    let may_open = judged_in_turn(alloc, path, unknown, "open", open)?;
    Ok(Asked { want, may_open })
}

fn stored_leaf(location: Location, asked: Asked, may_create: bool) -> SpecLeaf
    ensures { result ≡ stored_leaf location asked.want asked.may_open may_create }
{
    let Location { mount, path } = location;
    let Asked { want, may_open } = asked;
    match want {
        Want::Zarr { want } => SpecLeaf::Zarr {
            mount,
            path,
            want,
            may_open,
            may_create,
        },
        Want::N5 { want } => SpecLeaf::N5 {
            mount,
            path,
            want,
            may_open,
            may_create,
        },
        Want::Zarr3 { want } => SpecLeaf::Zarr3 {
            mount,
            path,
            want,
            may_open,
            may_create,
        },
    }
}

#[tactic(auto, unfolding(crate::specs::Faults::in_turn))]
fn want_in_turn(
    alloc: Global,
    format: Format,
    path: &str,
    unknown: Option<&str>,
    own: Option<Dtype>,
    value: &Value,
) -> Result<Want, SpecError>
    ensures value { IfOk result (λ w. in_turn path.now (option_map (λ s. s.now) unknown.entry) (codes "metadata")
        (asked_at (joined path.now (codes "metadata")) (want_of format own (get (codes "metadata") (view value.now))))
        ≡ Ok w) }
    ensures causes { IfErr result (λ e. e ≢ SpecError.Memory
        → in_turn path.now (option_map (λ s. s.now) unknown.entry) (codes "metadata")
        (asked_at (joined path.now (codes "metadata")) (want_of format own (get (codes "metadata") (view value.now))))
        ≡ Err e) }
{
    none_before(alloc, path, unknown, "metadata")?;
    let at = joined(alloc, path, "metadata")?;
    want_at(alloc, at.items(), format, own, value.get("metadata"))
}

#[tactic(auto, unfolding(crate::specs::Stored::asked_at))]
fn want_at(
    alloc: Global,
    path: &str,
    format: Format,
    own: Option<Dtype>,
    metadata: Option<&Value>,
) -> Result<Want, SpecError>
    ensures value { IfOk result (λ w. asked_at path.now (want_of format own (option_map (λ v.
        view v.now) metadata.entry)) ≡ Ok w) }
    ensures causes { IfErr result (λ e. e ≢ SpecError.Memory
        → asked_at path.now (want_of format own (option_map (λ v. view v.now) metadata.entry)) ≡ Err e) }
{
    match format.want(alloc, own, metadata) {
        Ok(want) => Ok(want),
        Err(error) => Err(below(alloc, path, error)),
    }
}

// A fault of metadata, as one of the Spec that it stands in.
#[tactic(auto, unfolding(crate::specs::Stored::asked_at))]
fn below(alloc: Global, path: &str, error: MetaError) -> SpecError
    ensures { result ≢ SpecError.Memory → asked_at path.now (Err error) ≡ Err result }
{
    match error {
        MetaError::NotJson => own_fault(alloc, path, Fault::Bad),
        MetaError::BadMember { name } => fault_at(alloc, path, name.items(), Fault::Bad),
        MetaError::Unsupported { name } => {
            fault_at(alloc, path, name.items(), Fault::Unsupported)
        }
        MetaError::Memory => SpecError::Memory,
    }
}

// Whether an array may be opened that is there; it may be opened or made.
fn judged_open(create: Option<bool>, said: Result<Option<bool>, Fault>) -> Result<bool, Fault>
    ensures { result ≡ judged_open create said }
{
    match said {
        Ok(said) => one_of_both(create.unwrap_or(false), said),
        Err(fault) => Err(fault),
    }
}

fn one_of_both(may_create: bool, said: Option<bool>) -> Result<bool, Fault>
    ensures { result ≡ one_of_both may_create said }
{
    let may_open = said.unwrap_or(!may_create);
    if may_open || may_create {
        Ok(may_open)
    } else {
        Err(Fault::Bad)
    }
}

#[tactic(auto, unfolding(crate::specs::Stored::own_dtype))]
fn own_dtype(format: Format, value: &Value) -> Result<Option<Dtype>, Fault>
    ensures { result ≡ own_dtype format (view value.now) }
{
    agreeing(named_dtype(format, value), judged_dtype(value))
}

fn named_dtype(format: Format, value: &Value) -> Option<Dtype>
    ensures { result ≡ option_and_then (named_dtype format) (get (codes "metadata") (view value.now)) }
{
    match value.get("metadata") {
        Some(metadata) => format.named_dtype(metadata),
        None => None,
    }
}
