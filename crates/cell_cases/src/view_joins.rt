// Joins of all views that there are.
ghost use Rattle.std.specs.Prelude.{◌<◌, ◌≤◌, IfOk, length};
ghost use Rattle.std.specs.List.{AllByRecursion};
ghost use Rattle.stack_driver.specs.Conditions.{IsView};

use crate::refused::Refused;
use layer_join::{concat, overlay, stack};
use serde_json::Value;
use stack_driver::View;
use std::alloc::Global;

// Whether an act joins views.
pub(crate) fn is_join(act: &Value) -> bool {
    act.get("overlay").is_some() || act.get("concat").is_some() || act.get("beside").is_some()
}

// The views laid over one another by `overlay`, put behind one another by `concat`, or beside one another by `beside`.
pub(crate) fn joined(alloc: Global, layers: Vec<View>, act: &Value) -> Result<View, Refused>
    requires some { 0 < length layers.items }
    requires few { length layers.items ≤ 256 }
    requires views { AllByRecursion IsView layers.items }
    ensures { IfOk result IsView }
{
    if let Some(at) = act.get("concat") {
        return Ok(concat(alloc, layers, axis(at)?)?);
    }
    if let Some(at) = act.get("beside") {
        return Ok(stack(alloc, layers, axis(at)?)?);
    }
    Ok(overlay(alloc, layers)?)
}

fn axis(v: &Value) -> Result<u32, Refused> {
    let axis = v.as_u64().ok_or(Refused::Line)?;
    u32::try_from(axis).map_err(|_| Refused::Line)
}
