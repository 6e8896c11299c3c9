// Parts of a line: its name, its steps, and what a fault is told by.
ghost use Rattle.std.specs.Prelude.{◌≡◌, ◌≢◌, Ok, Err, IfOk, IfErr};
ghost use Rattle.std.specs.List.{All};
ghost use Rattle.serde_json.specs.View.{view};
ghost use Rattle.step_forms.specs.Given.{IsGiven};
ghost use Rattle.step_forms.specs.Steps.{steps_of_json};
ghost use Rattle.line_parts.specs.Parts.{name_in, steps_in, steps_read};

use crate::error::LineError;
use crate::faults::name_at;
use crate::names::owned;
use cells::{List, Name};
use serde_json::Value;
use std::alloc::Global;
use step_forms::{Step, StepsError, read_steps};

/// The fault of the member at a path; `Memory` where an allocation failed.
pub fn at_fault(alloc: Global, path: &str) -> LineError
    ensures { result ≢ LineError.Memory → result ≡ LineError.Member path.now }
{
    match owned(alloc, path) {
        Ok(path) => LineError::Member { path },
        Err(_) => LineError::Memory,
    }
}

/// The name that a member has to be.
///
/// # Errors
/// `Member` where it is missing or no name, and `Memory` where an allocation failed.
pub fn name_in(alloc: Global, value: &Value, key: &str) -> Result<Name, LineError>
    ensures ok { IfOk result (λ name. name_in key.now (view value.now) ≡ Ok name) }
    ensures err { IfErr result (λ e. e ≢ LineError.Memory → name_in key.now (view value.now) ≡ Err e) }
{
    match name_at(value, key) {
        Some(name) => Ok(owned(alloc, name)?),
        None => Err(at_fault(alloc, key)),
    }
}

/// The steps of a line; none where it has no such member.
///
/// # Errors
/// `Steps` by what stands there, and `Memory` where an allocation failed.
#[tactic(auto, unfolding(crate::specs::Parts::steps_in))]
pub fn steps_in(alloc: Global, value: &Value) -> Result<List<Step>, LineError>
    ensures ok { IfOk result (λ steps. steps_in (view value.now) ≡ Ok steps) }
    ensures err { IfErr result (λ e. e ≢ LineError.Memory → steps_in (view value.now) ≡ Err e) }
    ensures given { IfOk result (All IsGiven) }
{
    match value.get("steps") {
        Some(steps) => steps_of(alloc, steps),
        None => Ok(List::wrap(Vec::new(alloc))),
    }
}

fn steps_of(alloc: Global, value: &Value) -> Result<List<Step>, LineError>
    ensures ok { IfOk result (λ steps. steps_read (steps_of_json (view value.now)) ≡ Ok steps) }
    ensures err { IfErr result (λ e. e ≢ LineError.Memory → steps_read (steps_of_json (view value.now)) ≡ Err e) }
    ensures given { IfOk result (All IsGiven) }
{
    match read_steps(alloc, value) {
        Ok(steps) => Ok(steps),
        Err(cause) => Err(faulty_steps(cause)),
    }
}

fn faulty_steps(cause: StepsError) -> LineError
    ensures { result ≢ LineError.Memory → (cause ≢ StepsError.Memory) × (result ≡ LineError.Steps cause) }
{
    match cause {
        StepsError::BadStep { .. } => LineError::Steps { cause },
        StepsError::Memory => LineError::Memory,
    }
}
