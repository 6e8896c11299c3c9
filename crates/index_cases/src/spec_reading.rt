// What is read of a Spec.
use case_lines::{Fault, mount_names, told};
use serde_json::Value;
use spec_open::{OpenPlan, SpecError, read_spec};
use std::alloc::Global;

/// The plan of a Spec, or its first fault.
pub(crate) fn read(alloc: Global, spec: &Value) -> Result<String, Fault> {
    let names = mount_names(alloc)?;
    match read_spec(alloc, spec, &names) {
        Ok(plan) => planned(alloc, &plan),
        Err(error) => refused(alloc, &error),
    }
}

fn planned(alloc: Global, plan: &OpenPlan) -> Result<String, Fault> {
    told(alloc, &(plan.leaves.items(), &plan.tree))
}

/// Why a Spec isn't read.
pub(crate) fn refused(alloc: Global, error: &SpecError) -> Result<String, Fault> {
    match error {
        SpecError::BadSpec { path } => with_path(alloc, "bad_spec", path.items()),
        SpecError::Unsupported { path } => with_path(alloc, "unsupported", path.items()),
        SpecError::Memory => Err(Fault::Memory),
    }
}

fn with_path(alloc: Global, word: &str, path: &str) -> Result<String, Fault> {
    Ok(format!(in alloc; "{word} {path}")?)
}
