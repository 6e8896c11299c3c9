// The answer to a line that is no command.
ghost use Rattle.std.specs.Prelude.{◌≡◌, ◌++◌, IfOk, codes};
ghost use Rattle.line_answers.specs.Refusals.{member_text, spec_body, steps_body, refusal_body};

use answer_text::Body;
use cells::Name;
use line_parts::{LineError, SpecError};
use std::alloc::{AllocError, Global};
use step_forms::StepsError;

/// The answer to a line that is no command.
///
/// # Errors
/// An allocation failed.
pub fn refusal(alloc: Global, error: LineError) -> Result<Body, AllocError>
    ensures { IfOk result (λ body. body ≡ refusal_body error) }
{
    match error {
        LineError::NotJson => bad_line(alloc, "json"),
        LineError::NotCommand => bad_line(alloc, "command"),
        LineError::Member { path } => bad_member(alloc, path.items()),
        LineError::Spec { cause } => Ok(spec_body(cause)),
        LineError::Steps { cause } => Ok(steps_body(cause)),
        LineError::Memory => Ok(Body::Memory),
    }
}

fn bad_line(alloc: Global, text: &str) -> Result<Body, AllocError>
    ensures { IfOk result (λ body. body ≡ Body.BadLine text.now) }
{
    let text = String::from_str(alloc, text)?;
    Ok(Body::BadLine {
        text: Name::wrap(text),
    })
}

fn bad_member(alloc: Global, path: &str) -> Result<Body, AllocError>
    ensures { IfOk result (λ body. body ≡ Body.BadLine (member_text path.now)) }
{
    let mut text = String::from_str(alloc, "member:")?;
    text.push_str(path)?;
    Ok(Body::BadLine {
        text: Name::wrap(text),
    })
}

fn spec_body(cause: SpecError) -> Body
    ensures { result ≡ spec_body cause }
{
    match cause {
        SpecError::BadSpec { path } => Body::BadSpec { path, events: None },
        SpecError::Unsupported { path } => Body::Unsupported { path },
        SpecError::Memory => Body::Memory,
    }
}

fn steps_body(cause: StepsError) -> Body
    ensures { result ≡ steps_body cause }
{
    match cause {
        StepsError::BadStep { step } => Body::BadStep { step },
        StepsError::Memory => Body::Memory,
    }
}
