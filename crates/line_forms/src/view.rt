// `{"view":NAME,"of":NAME,"transform":TRANSFORM,"steps":STEPS}`.
ghost use Rattle.std.specs.Prelude.{◌≡◌, ◌≢◌, Ok, Err, IfOk, IfErr, option_map};
ghost use Rattle.serde_json.specs.View.{view};
ghost use Rattle.line_forms.specs.Form.{form_of, IsSoundOther};
ghost use Rattle.line_parts.specs.Parts.{where_sound};
ghost use Rattle.line_forms.specs.Views.{view_fault, viewed_of, viewed_as, viewed, of_form};

use crate::command::Command;
use cells::Name;
use index_transform::Transform;
use json_forms::least_unknown;
use line_parts::{
    LineError, at_fault, earlier, faulty_transform, name_in, no_name, steps_in, transform_in,
};
use serde_json::Value;
use std::alloc::Global;

/// The command that sees a view anew.
#[tactic(auto, unfolding(crate::specs::Views::of_form))]
pub(crate) fn of_line(alloc: Global, value: &Value) -> Result<Command, LineError>
    ensures ok { IfOk result (λ command. of_form (view value.now) ≡ Ok (form_of command)) }
    ensures err { IfErr result (λ e. e ≢ LineError.Memory → of_form (view value.now) ≡ Err e) }
    ensures sound { IfOk result IsSoundOther }
{
    match transform_in(alloc, value) {
        Ok(transform) => sound_view(alloc, value, transform),
        Err(error) => Err(faulty_transform(alloc, view_fault(value), &error)),
    }
}

fn view_fault(value: &Value) -> Option<&str>
    ensures { option_map (λ s. s.now) result ≡ view_fault (view value.now) }
{
    let unknown = least_unknown(value, &["of", "steps", "transform", "view"]);
    let wrong = earlier(no_name(value, "of"), no_name(value, "view"));
    earlier(unknown, wrong)
}

fn sound_view(
    alloc: Global,
    value: &Value,
    transform: Option<Transform>,
) -> Result<Command, LineError>
    ensures ok { IfOk result (λ command. where_sound (view_fault (view value.now)) (viewed (view value.now) transform)
        ≡ Ok (form_of command)) }
    ensures err { IfErr result (λ e. e ≢ LineError.Memory
        → where_sound (view_fault (view value.now)) (viewed (view value.now) transform) ≡ Err e) }
    ensures sound { IfOk result IsSoundOther }
{
    match view_fault(value) {
        Some(fault) => Err(at_fault(alloc, fault)),
        None => named(alloc, value, transform),
    }
}

fn named(alloc: Global, value: &Value, transform: Option<Transform>) -> Result<Command, LineError>
    ensures ok { IfOk result (λ command. viewed (view value.now) transform ≡ Ok (form_of command)) }
    ensures err { IfErr result (λ e. e ≢ LineError.Memory → viewed (view value.now) transform ≡ Err e) }
    ensures sound { IfOk result IsSoundOther }
{
    match name_in(alloc, value, "view") {
        Ok(name) => of_another(alloc, value, transform, name),
        Err(e) => Err(e),
    }
}

fn of_another(
    alloc: Global,
    value: &Value,
    transform: Option<Transform>,
    name: Name,
) -> Result<Command, LineError>
    ensures ok { IfOk result (λ command. viewed_as transform (view value.now) name ≡ Ok (form_of command)) }
    ensures err { IfErr result (λ e. e ≢ LineError.Memory → viewed_as transform (view value.now) name ≡ Err e) }
    ensures sound { IfOk result IsSoundOther }
{
    match name_in(alloc, value, "of") {
        Ok(of) => stepped(alloc, value, transform, name, of),
        Err(e) => Err(e),
    }
}

fn stepped(
    alloc: Global,
    value: &Value,
    transform: Option<Transform>,
    name: Name,
    of: Name,
) -> Result<Command, LineError>
    ensures ok { IfOk result (λ command. viewed_of transform (view value.now) name of ≡ Ok (form_of command)) }
    ensures err { IfErr result (λ e. e ≢ LineError.Memory → viewed_of transform (view value.now) name of ≡ Err e) }
    ensures sound { IfOk result IsSoundOther }
{
    match steps_in(alloc, value) {
        Ok(steps) => Ok(Command::View {
            name,
            of,
            transform,
            steps,
        }),
        Err(e) => Err(e),
    }
}
