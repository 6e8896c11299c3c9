// `{"open":NAME,"spec":SPEC}`.
ghost use Rattle.std.specs.Prelude.{◌≡◌, ◌≢◌, Ok, Err, IfOk, IfErr, codes, option_map};
ghost use Rattle.serde_json.specs.View.{view};
ghost use Rattle.spec_open.specs.Conditions.{IsSoundPlan};
ghost use Rattle.spec_open.specs.Specs.{plan_of_spec};
ghost use Rattle.line_forms.specs.Form.{form_of, IsSound};
ghost use Rattle.line_forms.specs.Small.{plan_read, plan_in, open_fault, opened_as, opened, open_form};

use crate::command::Command;
use cells::Name;
use json_forms::least_unknown;
use line_parts::{LineError, at_fault, earlier, missing, name_in, no_name};
use serde_json::Value;
use spec_open::{OpenPlan, SpecError, read_spec};
use std::alloc::Global;

/// The command that opens a Spec.
#[tactic(auto, unfolding(crate::specs::Small::open_form))]
pub(crate) fn open_line(alloc: Global, value: &Value, names: &[Name]) -> Result<Command, LineError>
    ensures ok { IfOk result (λ command. open_form names.now (view value.now) ≡ Ok (form_of command)) }
    ensures err { IfErr result (λ e. e ≢ LineError.Memory → open_form names.now (view value.now) ≡ Err e) }
    ensures sound { IfOk result (IsSound names.now) }
{
    match open_fault(value) {
        Some(fault) => Err(at_fault(alloc, fault)),
        None => opened(alloc, value, names),
    }
}

fn open_fault(value: &Value) -> Option<&str>
    ensures { option_map (λ s. s.now) result ≡ open_fault (view value.now) }
{
    let unknown = least_unknown(value, &["open", "spec"]);
    let wrong = earlier(no_name(value, "open"), missing(value, "spec"));
    earlier(unknown, wrong)
}

fn opened(alloc: Global, value: &Value, names: &[Name]) -> Result<Command, LineError>
    ensures ok { IfOk result (λ command. opened names.now (view value.now) ≡ Ok (form_of command)) }
    ensures err { IfErr result (λ e. e ≢ LineError.Memory → opened names.now (view value.now) ≡ Err e) }
    ensures sound { IfOk result (IsSound names.now) }
{
    match name_in(alloc, value, "open") {
        Ok(name) => named(alloc, value, names, name),
        Err(e) => Err(e),
    }
}

fn named(alloc: Global, value: &Value, names: &[Name], name: Name) -> Result<Command, LineError>
    ensures ok { IfOk result (λ command. opened_as names.now (view value.now) name ≡ Ok (form_of command)) }
    ensures err { IfErr result (λ e. e ≢ LineError.Memory → opened_as names.now (view value.now) name ≡ Err e) }
    ensures sound { IfOk result (IsSound names.now) }
{
    match plan_in(alloc, value, names) {
        Ok(plan) => Ok(Command::Open { name, plan }),
        Err(e) => Err(e),
    }
}

#[tactic(auto, unfolding(crate::specs::Small::plan_in))]
fn plan_in(alloc: Global, value: &Value, names: &[Name]) -> Result<OpenPlan, LineError>
    ensures ok { IfOk result (λ plan. plan_in names.now (view value.now) ≡ Ok plan) }
    ensures err { IfErr result (λ e. e ≢ LineError.Memory → plan_in names.now (view value.now) ≡ Err e) }
    ensures sound { IfOk result (IsSoundPlan names.now) }
{
    match value.get("spec") {
        Some(spec) => plan_of(alloc, spec, names),
        None => Err(at_fault(alloc, "spec")),
    }
}

fn plan_of(alloc: Global, spec: &Value, names: &[Name]) -> Result<OpenPlan, LineError>
    ensures ok { IfOk result (λ plan. plan_read (plan_of_spec names.now (view spec.now)) ≡ Ok plan) }
    ensures err { IfErr result (λ e. e ≢ LineError.Memory
        → plan_read (plan_of_spec names.now (view spec.now)) ≡ Err e) }
    ensures sound { IfOk result (IsSoundPlan names.now) }
{
    match read_spec(alloc, spec, names) {
        Ok(plan) => Ok(plan),
        Err(cause) => Err(faulty_spec(cause)),
    }
}

fn faulty_spec(cause: SpecError) -> LineError
    ensures { result ≢ LineError.Memory → (cause ≢ SpecError.Memory) × (result ≡ LineError.Spec cause) }
{
    match cause {
        SpecError::Memory => LineError::Memory,
        cause => LineError::Spec { cause },
    }
}
