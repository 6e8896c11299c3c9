// Whether the answer to an open line is the one where each leaf has its array.
ghost use Rattle.std.specs.Prelude.{◌≡◌, ◌≢◌, IfOk, Ok, length, false};
ghost use Rattle.history.specs.Answers.{Body as BodyOf, refused_spec};
ghost use Rattle.history.specs.Viewing.{opened_body};
ghost use Rattle.read_fits.specs.Bodies.{body_of};
ghost use Rattle.read_fits.specs.Openings.{build_cause_of};
ghost use Rattle.read_fits.specs.Conditions.{IsTree};
ghost use Rattle.stack_driver.specs.Views.{own_transform};
ghost use Rattle.open_fits.specs.Built.{IsToldSo, IsBuiltAs};

use crate::questions::{OpenTold, WantedPlan};
use cells::{List, Name};
use history::ArrayRef;
use index_transform::Domain;
use read_fits::{Answer, Body, BuildCause, BuildError, Tree, build, is_told};
use stack_driver::{View, dtype, transform_of};
use std::alloc::{AllocError, Global};

/// Whether there is an array for each leaf, and the answer is that the view over them was opened, or that a node of the
/// Spec is refused.
///
/// # Errors
/// An allocation failed.
pub(crate) fn is_built(
    alloc: Global,
    plan: &WantedPlan,
    arrays: &[ArrayRef],
    told: &OpenTold,
) -> Result<bool, AllocError>
    requires { IsTree (length plan.now.leaves) plan.now.tree }
    ensures all { length arrays.now ≡ length plan.now.leaves
        → IfOk result (IsBuiltAs plan.now.tree arrays.now told.now) }
    ensures lack { length arrays.now ≢ length plan.now.leaves → IfOk result (λ is. is ≡ false) }
{
    if arrays.len() != plan.leaves.items().len() {
        return Ok(false);
    }
    is_built_over(alloc, &plan.tree, arrays, told)
}

fn is_built_over(
    alloc: Global,
    tree: &Tree,
    arrays: &[ArrayRef],
    told: &OpenTold,
) -> Result<bool, AllocError>
    requires { IsTree (length arrays.now) tree.now }
    ensures { IfOk result (IsBuiltAs tree.now arrays.now told.now) }
{
    match build(alloc, tree, arrays) {
        Ok(view) => is_opened(alloc, &view, told),
        Err(BuildError::Refused { path, cause }) => is_refused(alloc, path, cause, told),
        Err(BuildError::Memory) => Err(AllocError),
    }
}

fn is_opened(alloc: Global, view: &View, told: &OpenTold) -> Result<bool, AllocError>
    ensures { IfOk result (IsToldSo told.now (opened_body told.now.name view.now told.now.numbers)) }
{
    match opened(alloc, view, told) {
        Ok(body) => is_answer(alloc, body, told),
        Err(e) => Err(e),
    }
}

fn opened(alloc: Global, view: &View, told: &OpenTold) -> Result<Body, AllocError>
    ensures { IfOk result (λ b. b ≡ body_of (opened_body told.now.name view.now told.now.numbers)) }
{
    let (name, domain) = name_and_domain(alloc, told.name.items(), view)?;
    let events = numbers_told(alloc, told)?;
    Ok(Body::Opened {
        name,
        dtype: dtype(view),
        domain,
        events,
    })
}

fn name_and_domain(alloc: Global, name: &str, view: &View) -> Result<(Name, Domain), AllocError>
    ensures { IfOk result (λ p. (p.0 ≡ name.now) × (p.1 ≡ (own_transform view.now).domain)) }
{
    let name = String::from_str(alloc, name)?;
    let domain = transform_of(view).domain().copy(alloc)?;
    Ok((Name::wrap(name), domain))
}

fn is_refused(
    alloc: Global,
    path: Name,
    cause: BuildCause,
    told: &OpenTold,
) -> Result<bool, AllocError>
    ensures { IfOk result (IsToldSo told.now (refused_spec path (build_cause_of cause) told.now.numbers)) }
{
    match numbers_told(alloc, told) {
        Ok(events) => is_answer(
            alloc,
            Body::RefusedSpec {
                path,
                cause,
                events,
            },
            told,
        ),
        Err(e) => Err(e),
    }
}

/// The numbers of new arrays that the answer prints.
pub(crate) fn numbers_told(alloc: Global, told: &OpenTold) -> Result<List<u64>, AllocError>
    ensures { IfOk result (λ numbers. numbers ≡ told.now.numbers) }
{
    Ok(List::wrap(Vec::from_slice(alloc, told.numbers.items())?))
}

/// Whether the line was answered so.
///
/// # Errors
/// An allocation failed.
pub(crate) fn is_answer(alloc: Global, body: Body, told: &OpenTold) -> Result<bool, AllocError>
    ensures { IfOk result (λ is. (answer : BodyOf) → body ≡ body_of answer → IsToldSo told.now answer is) }
{
    let answer = Answer {
        line: told.line,
        body,
    };
    is_told(alloc, &answer, told.text.items())
}
