// `{"write":NAME,"steps":STEPS,"values":VALUES}`.
ghost use Rattle.std.specs.Prelude.{◌≡◌, ◌≢◌, Ok, Err, IfOk, IfErr, option_map};
ghost use Rattle.std.specs.List.{All};
ghost use Rattle.serde_json.specs.View.{view};
ghost use Rattle.step_forms.specs.Given.{IsGiven};
ghost use Rattle.line_forms.specs.Form.{form_of, IsSoundOther};
ghost use Rattle.line_forms.specs.Reads.{write_fault, written_by, written_as, written, write_form};

use crate::command::Command;
use cells::{List, Name};
use json_forms::least_unknown;
use line_parts::{LineError, at_fault, earlier, missing, name_in, no_name, steps_in};
use serde_json::Value;
use std::alloc::Global;
use step_forms::Step;

/// The command that writes values, which are moved out of the line.
#[tactic(auto, unfolding(crate::specs::Reads::write_form))]
pub(crate) fn write_line(alloc: Global, value: &mut Value) -> Result<Command, LineError>
    ensures ok { IfOk result (λ command. write_form (view value.old) ≡ Ok (form_of command)) }
    ensures err { IfErr result (λ e. e ≢ LineError.Memory → write_form (view value.old) ≡ Err e) }
    ensures sound { IfOk result IsSoundOther }
{
    match write_fault(value) {
        Some(fault) => Err(at_fault(alloc, fault)),
        None => named(alloc, value),
    }
}

fn write_fault(value: &Value) -> Option<&str>
    ensures { option_map (λ s. s.now) result ≡ write_fault (view value.now) }
{
    let unknown = least_unknown(value, &["steps", "values", "write"]);
    let wrong = earlier(missing(value, "values"), no_name(value, "write"));
    earlier(unknown, wrong)
}

fn named(alloc: Global, value: &mut Value) -> Result<Command, LineError>
    ensures ok { IfOk result (λ command. written (view value.old) ≡ Ok (form_of command)) }
    ensures err { IfErr result (λ e. e ≢ LineError.Memory → written (view value.old) ≡ Err e) }
    ensures sound { IfOk result IsSoundOther }
{
    match name_in(alloc, value, "write") {
        Ok(name) => stepped(alloc, value, name),
        Err(e) => Err(e),
    }
}

fn stepped(alloc: Global, value: &mut Value, name: Name) -> Result<Command, LineError>
    ensures ok { IfOk result (λ command. written_as (view value.old) name ≡ Ok (form_of command)) }
    ensures err { IfErr result (λ e. e ≢ LineError.Memory → written_as (view value.old) name ≡ Err e) }
    ensures sound { IfOk result IsSoundOther }
{
    match steps_in(alloc, value) {
        Ok(steps) => valued(alloc, value, name, steps),
        Err(e) => Err(e),
    }
}

fn valued(
    alloc: Global,
    value: &mut Value,
    name: Name,
    steps: List<Step>,
) -> Result<Command, LineError>
    requires { All IsGiven steps }
    ensures ok { IfOk result (λ command. written_by (view value.old) name steps ≡ Ok (form_of command)) }
    ensures err { IfErr result (λ e. e ≢ LineError.Memory → written_by (view value.old) name steps ≡ Err e) }
    ensures sound { IfOk result IsSoundOther }
{
    match value.get_mut("values") {
        Some(values) => Ok(Command::Write {
            name,
            steps,
            values: values.take(),
        }),
        None => Err(at_fault(alloc, "values")),
    }
}
