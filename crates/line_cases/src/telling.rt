// Commands and refusals as text.
use case_lines::{Fault, told};
use line_forms::{Command, LineError};
use serde_json::Value;
use spec_open::SpecError;
use std::alloc::Global;
use std::fmt::Debug;
use step_forms::StepsError;

/// A command by its Debug, but for the values of a write, which stand as JSON behind its name and steps.
pub(crate) fn command(alloc: Global, command: &Command) -> Result<String, Fault> {
    match command {
        Command::Write {
            name,
            steps,
            values,
        } => write(alloc, name.items(), &steps.items(), values),
        other => told(alloc, other),
    }
}

fn write<T: Debug>(alloc: Global, name: &str, steps: &T, values: &Value) -> Result<String, Fault> {
    let values = values.to_string(alloc)?;
    with_values(alloc, name, steps, values.as_str())
}

fn with_values<T: Debug>(
    alloc: Global,
    name: &str,
    steps: &T,
    values: &str,
) -> Result<String, Fault> {
    Ok(format!(in alloc; "Write {name} {steps:?} {values}")?)
}

/// Why a line is no command.
pub(crate) fn refusal(alloc: Global, error: &LineError) -> Result<String, Fault> {
    match error {
        LineError::NotJson => worded(alloc, "bad_line", "json"),
        LineError::NotCommand => worded(alloc, "bad_line", "command"),
        LineError::Member { path } => worded(alloc, "member", path.items()),
        LineError::Spec { cause } => spec(alloc, cause),
        LineError::Steps { cause } => step(alloc, *cause),
        LineError::Memory => worded(alloc, "memory", ""),
    }
}

fn spec(alloc: Global, cause: &SpecError) -> Result<String, Fault> {
    match cause {
        SpecError::BadSpec { path } => worded(alloc, "bad_spec", path.items()),
        SpecError::Unsupported { path } => worded(alloc, "unsupported", path.items()),
        SpecError::Memory => worded(alloc, "memory", ""),
    }
}

fn step(alloc: Global, cause: StepsError) -> Result<String, Fault> {
    match cause {
        StepsError::BadStep { step } => Ok(format!(in alloc; "bad_step {step}")?),
        StepsError::Memory => worded(alloc, "memory", ""),
    }
}

fn worded(alloc: Global, word: &str, text: &str) -> Result<String, Fault> {
    Ok(format!(in alloc; "{word} {text}")?)
}
