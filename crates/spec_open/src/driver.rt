ghost use Rattle.std.specs.Prelude.{◌≡◌, ◌≢◌, Ok, Err, IfOk, IfErr, codes};
ghost use Rattle.serde_json.specs.View.{view};
ghost use Rattle.meta_forms.specs.Judged.{text_in};
ghost use Rattle.spec_open.specs.Specs.{driver_named, judged_driver, driver_at};
ghost use Rattle.spec_forms.specs.declared.error.SpecError.{SpecError};

use meta_forms::{Fault, text_in};
use serde_json::Value;
use spec_forms::{Format, SpecError, at_path, own_fault};
use std::alloc::Global;

/// The drivers of Specs.
#[derive(Clone, Copy, Debug, PartialEq, Eq)]
pub(crate) enum Driver {
    Stored(Format),
    Array,
    Cast,
    Stack,
}

/// The driver of a value at a path, which is looked at before all other members.
///
/// # Errors
/// `Unsupported` for a text, and for another driver; `BadSpec` for another value, and without a driver. `Memory`.
#[tactic(auto, unfolding(crate::specs::Specs::driver_at))]
pub(crate) fn driver_at(alloc: Global, path: &str, value: &Value) -> Result<Driver, SpecError>
    ensures value { IfOk result (λ driver. driver_at path.now (view value.now) ≡ Ok driver) }
    ensures causes { IfErr result (λ e. e ≢ SpecError.Memory → driver_at path.now (view value.now) ≡ Err e) }
{
    if value.as_object().is_some() {
        return at_path(alloc, path, "driver", judged_driver(value));
    }
    if value.as_str().is_some() {
        Err(own_fault(alloc, path, Fault::Unsupported))
    } else {
        Err(own_fault(alloc, path, Fault::Bad))
    }
}

fn judged_driver(value: &Value) -> Result<Driver, Fault>
    ensures { result ≡ judged_driver (text_in (codes "driver") (view value.now)) }
{
    match text_in(value, "driver") {
        Some(text) => driver_named(text),
        None => Err(Fault::Bad),
    }
}

fn driver_named(text: &str) -> Result<Driver, Fault>
    ensures { result ≡ driver_named text.now }
{
    match text {
        "zarr" => Ok(Driver::Stored(Format::Zarr)),
        "n5" => Ok(Driver::Stored(Format::N5)),
        "zarr3" => Ok(Driver::Stored(Format::Zarr3)),
        "array" => Ok(Driver::Array),
        "cast" => Ok(Driver::Cast),
        "stack" => Ok(Driver::Stack),
        _ => Err(Fault::Unsupported),
    }
}
