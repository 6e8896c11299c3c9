ghost use Rattle.std.specs.Prelude.{◌≡◌, ◌≢◌, Ok, Err, IfOk, IfErr};
ghost use Rattle.serde_json.specs.View.{view};
ghost use Rattle.spec_open.specs.Conditions.{IsSoundPlan};
ghost use Rattle.spec_open.specs.Specs.{plan_of_spec};
ghost use Rattle.spec_forms.specs.declared.error.SpecError.{SpecError};

use crate::nodes::read_node;
use crate::plan::OpenPlan;
use cells::{List, Name};
use serde_json::Value;
use spec_forms::SpecError;
use std::alloc::Global;

const MOST_NESTED: u32 = 16;

/// What a Spec asks to be opened, where these are the names of the mounts.
///
/// TensorStore, "Spec", drivers `zarr`, `n5`, `zarr3`, `array`, `cast` and `stack`.
///
/// # Errors
/// The first fault, at its path: at each node its driver first, then casts and stacks that nest more than 16 deep and the 257th
/// leaf, then the other members in byte order, those that are missing at their place; `kvstore`, `metadata`, `base` and `layers`
/// are entered at theirs. `Unsupported` for what TensorStore knows and this workspace doesn't do, `BadSpec` for all else.
/// `Memory` where an allocation failed.
pub fn read_spec(alloc: Global, v: &Value, names: &[Name]) -> Result<OpenPlan, SpecError>
    ensures value { IfOk result (λ plan. plan_of_spec names.now (view v.now) ≡ Ok plan) }
    ensures sound { IfOk result (IsSoundPlan names.now) }
    ensures causes { IfErr result (λ e. e ≢ SpecError.Memory → plan_of_spec names.now (view v.now) ≡ Err e) }
{
    let mut leaves = Vec::new(alloc);
    let tree = read_node(alloc, names, MOST_NESTED, "", &mut leaves, v)?;
    Ok(OpenPlan {
        leaves: List::wrap(leaves),
        tree,
    })
}
