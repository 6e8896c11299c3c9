// Where a stored array lies.
ghost use Rattle.std.specs.Prelude.{◌≡◌, ◌≢◌, Ok, Err, IfOk, IfErr, codes, option_map, option_and_then};
ghost use Rattle.serde_json.specs.Find.{get};
ghost use Rattle.serde_json.specs.View.{view};
ghost use Rattle.json_forms.specs.Members.{is_among, least_unknown};
ghost use Rattle.meta_forms.specs.Judged.{text_in};
ghost use Rattle.spec_forms.specs.Faults.{joined, at_path, in_turn, judged_in_turn};
ghost use Rattle.spec_forms.specs.Kvstores.{judged_mount, judged_path, kvstore_members, below_in, location_in, location_at};
ghost use Rattle.spec_forms.specs.Paths.{path_of};
ghost use Rattle.spec_forms.specs.declared.error.SpecError.{SpecError};

use crate::error::SpecError;
use crate::paths::path_of;
use crate::places::{fault_at, joined, none_before, none_left, own_fault};
use cells::Name;
use json_forms::least_unknown;
use meta_forms::{Fault, text_in};
use serde_json::Value;
use std::alloc::Global;

/// Where a stored array lies: its mount, and its path there.
#[derive(Debug, Drop)]
pub(crate) struct Location {
    pub mount: Name,
    pub path: Name,
}

/// The location that the member `kvstore` of a Spec names, in its turn.
#[tactic(auto, unfolding(crate::specs::Faults::in_turn))]
pub(crate) fn location_in_turn(
    alloc: Global,
    names: &[Name],
    path: &str,
    unknown: Option<&str>,
    value: &Value,
) -> Result<Location, SpecError>
    ensures value { IfOk result (λ l. in_turn path.now (option_map (λ s. s.now) unknown.entry) (codes "kvstore")
        (location_at names.now (joined path.now (codes "kvstore")) (get (codes "kvstore") (view value.now))) ≡ Ok l) }
    ensures causes { IfErr result (λ e. e ≢ SpecError.Memory
        → in_turn path.now (option_map (λ s. s.now) unknown.entry) (codes "kvstore")
        (location_at names.now (joined path.now (codes "kvstore")) (get (codes "kvstore") (view value.now))) ≡ Err e) }
{
    none_before(alloc, path, unknown, "kvstore")?;
    let at = joined(alloc, path, "kvstore")?;
    location_at(alloc, names, at.items(), value.get("kvstore"))
}

#[tactic(auto, unfolding(crate::specs::Kvstores::location_at))]
fn location_at(
    alloc: Global,
    names: &[Name],
    path: &str,
    value: Option<&Value>,
) -> Result<Location, SpecError>
    ensures value { IfOk result (λ l. location_at names.now path.now (option_map (λ v.
        view v.now) value.entry) ≡ Ok l) }
    ensures causes { IfErr result (λ e. e ≢ SpecError.Memory
        → location_at names.now path.now (option_map (λ v. view v.now) value.entry) ≡ Err e) }
{
    let Some(value) = value else {
        return Err(own_fault(alloc, path, Fault::Bad));
    };
    if value.as_object().is_some() {
        return location_in(alloc, names, path, value);
    }
    if value.as_str().is_some() {
        Err(own_fault(alloc, path, Fault::Unsupported))
    } else {
        Err(own_fault(alloc, path, Fault::Bad))
    }
}

#[tactic(auto, unfolding(crate::specs::Kvstores::location_in))]
fn location_in(
    alloc: Global,
    names: &[Name],
    path: &str,
    value: &Value,
) -> Result<Location, SpecError>
    ensures value { IfOk result (λ l. location_in names.now path.now (view value.now) ≡ Ok l) }
    ensures causes { IfErr result (λ e. e ≢ SpecError.Memory
        → location_in names.now path.now (view value.now) ≡ Err e) }
{
    let mount = mount_at(alloc, names, path, value)?;
    let path = below_in(alloc, path, unknown_member(value), value)?;
    Ok(Location { mount, path })
}

#[tactic(auto, unfolding(crate::specs::Faults::at_path))]
fn mount_at(alloc: Global, names: &[Name], path: &str, value: &Value) -> Result<Name, SpecError>
    ensures value { IfOk result (λ name. at_path (joined path.now (codes "driver"))
        (judged_mount names.now (text_in (codes "driver") (view value.now))) ≡ Ok name) }
    ensures causes { IfErr result (λ e. e ≢ SpecError.Memory → at_path (joined path.now (codes "driver"))
        (judged_mount names.now (text_in (codes "driver") (view value.now))) ≡ Err e) }
{
    let Some(text) = text_in(value, "driver") else {
        return Err(fault_at(alloc, path, "driver", Fault::Bad));
    };
    if is_among(text, names) {
        Ok(Name::wrap(String::from_str(alloc, text)?))
    } else {
        Err(fault_at(alloc, path, "driver", Fault::Unsupported))
    }
}

#[tactic(auto, unfolding(crate::specs::Kvstores::below_in))]
fn below_in(
    alloc: Global,
    path: &str,
    unknown: Option<&str>,
    value: &Value,
) -> Result<Name, SpecError>
    ensures value { IfOk result (λ name. below_in path.now (option_map (λ s.
        s.now) unknown.entry) (view value.now) ≡ Ok name) }
    ensures causes { IfErr result (λ e. e ≢ SpecError.Memory
        → below_in path.now (option_map (λ s. s.now) unknown.entry) (view value.now) ≡ Err e) }
{
    let below = path_in_turn(alloc, path, unknown, value)?;
    none_left(alloc, path, unknown)?;
    Ok(below)
}

#[tactic(auto, unfolding(crate::specs::Faults::judged_in_turn, crate::specs::Faults::in_turn, crate::specs::Faults::at_path))]
fn path_in_turn(
    alloc: Global,
    path: &str,
    unknown: Option<&str>,
    value: &Value,
) -> Result<Name, SpecError>
    ensures value { IfOk result (λ name. judged_in_turn path.now (option_map (λ s. s.now) unknown.entry) (codes "path")
        (judged_path (text_in (codes "path") (view value.now))) ≡ Ok name) }
    ensures causes { IfErr result (λ e. e ≢ SpecError.Memory
        → judged_in_turn path.now (option_map (λ s. s.now) unknown.entry) (codes "path")
        (judged_path (text_in (codes "path") (view value.now))) ≡ Err e) }
{
    none_before(alloc, path, unknown, "path")?;
    match path_in(value) {
        Some(below) => Ok(Name::wrap(String::from_str(alloc, below)?)),
        None => Err(fault_at(alloc, path, "path", Fault::Bad)),
    }
}

fn path_in(value: &Value) -> Option<&str>
    ensures { option_map (λ s. s.now) result ≡ option_and_then path_of (text_in (codes "path") (view value.now)) }
{
    path_of(text_in(value, "path")?)
}

fn unknown_member(value: &Value) -> Option<&str>
    ensures { option_map (λ s. s.now) result ≡ least_unknown kvstore_members (view value.now) }
{
    least_unknown(value, &["context", "driver", "path"])
}

fn is_among(text: &str, names: &[Name]) -> bool
    ensures { result ≡ is_among text.now names.now }
{
    names.iter().any(|name| name.items() == text)
}
