// The view over the arrays of a Spec's leaves.
ghost use Rattle.std.specs.Prelude.{length};
ghost use Rattle.spec_open.specs.Conditions.{IsTree};

use crate::spec_reading::refused;
use case_lines::{Fault, array_of, items, look, mount_names};
use serde_json::Value;
use spec_open::{BuildCause, BuildError, OpenPlan, Tree, build, read_spec};
use stack_driver::ArrayRef;
use std::alloc::Global;

/// The dtype and the own transform of the view that a Spec gives over arrays, or the node that gives none.
pub(crate) fn built(alloc: Global, spec: &Value, arrays: &Value) -> Result<String, Fault> {
    let arrays = arrays_of(alloc, arrays)?;
    over(alloc, spec, &arrays)
}

// The arrays of a list, each with its place there as its number.
fn arrays_of(alloc: Global, v: &Value) -> Result<Vec<ArrayRef>, Fault> {
    let items = items(v)?;
    let mut arrays = Vec::with_capacity(alloc, items.len())?;
    for item in items {
        let array = array_of(alloc, arrays.len() as u64, item)?;
        arrays.push(array)?;
    }
    Ok(arrays)
}

fn over(alloc: Global, spec: &Value, arrays: &[ArrayRef]) -> Result<String, Fault> {
    let names = mount_names(alloc)?;
    match read_spec(alloc, spec, &names) {
        Ok(plan) => planned(alloc, &plan, arrays),
        Err(error) => refused(alloc, &error),
    }
}

fn planned(alloc: Global, plan: &OpenPlan, arrays: &[ArrayRef]) -> Result<String, Fault>
    requires { IsTree (length plan.now.leaves) plan.now.tree }
{
    if plan.leaves.items().len() != arrays.len() {
        return Err(Fault::Line);
    }
    seen(alloc, &plan.tree, arrays)
}

fn seen(alloc: Global, tree: &Tree, arrays: &[ArrayRef]) -> Result<String, Fault>
    requires { IsTree (length arrays.now) tree.now }
{
    match build(alloc, tree, arrays) {
        Ok(view) => look(alloc, &view),
        Err(error) => not_built(alloc, &error),
    }
}

fn not_built(alloc: Global, error: &BuildError) -> Result<String, Fault> {
    match error {
        BuildError::Refused { path, cause } => caused(alloc, path.items(), *cause),
        BuildError::Memory => Err(Fault::Memory),
    }
}

fn caused(alloc: Global, path: &str, cause: BuildCause) -> Result<String, Fault> {
    Ok(format!(in alloc; "refused {path} {cause:?}")?)
}
