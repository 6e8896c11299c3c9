// Whether a leaf is refused at a moment as an answer says.
ghost use Rattle.std.specs.Prelude.{◌≡◌, ◌<◌, ◌+◌, ◌^◌, [], IfOk, Some, unwrap_or};
ghost use Rattle.read_fits.specs.declared.Body.TheVariants as body;
ghost use Rattle.chunk_forms.specs.Members.{member_name};
ghost use Rattle.history.specs.Lines.{member_of_node};
ghost use Rattle.history.specs.Answers.{store_failed};
ghost use Rattle.read_fits.specs.Bodies.{body_of};
ghost use Rattle.read_fits.specs.Openings.{node_of};
ghost use Rattle.read_fits.specs.Asked.{location_asked};
ghost use Rattle.open_fits.specs.Refusals.{IsRefusalFor, is_free_told};

use crate::built::numbers_told;
use crate::nodes::member_path;
use crate::questions::OpenQuestion;
use cells::{List, Name};
use chunk_forms::Member;
use read_fits::{Asked, Body, LeafOutcome};
use std::alloc::{AllocError, Global};

/// The answer by which a leaf of a question is refused that comes to this, if it is refused.
///
/// # Errors
/// An allocation failed.
pub(crate) fn refusal_of(
    alloc: Global,
    q: &OpenQuestion,
    place: usize,
    asked: &Asked,
    outcome: LeafOutcome,
) -> Result<Option<Body>, AllocError>
    ensures { IfOk result (IsRefusalFor q.now place asked.now outcome) }
{
    match outcome {
        LeafOutcome::Taken { other } => taken(alloc, q, other),
        LeafOutcome::There { .. } => Ok(None),
        LeafOutcome::Exists => exists(alloc, q, asked),
        LeafOutcome::Mismatch { member } => mismatch(alloc, q, asked, member),
        LeafOutcome::NotFound => not_found(alloc, q, asked),
        LeafOutcome::BadWant { member } => undetermined(alloc, q, place, member),
        LeafOutcome::Made { .. } => Ok(None),
    }
}

fn taken(alloc: Global, q: &OpenQuestion, other: Name) -> Result<Option<Body>, AllocError>
    ensures { IfOk result (λ b. b ≡ Some (body.PathTaken q.now.moment other q.now.told.numbers)) }
{
    match numbers_told(alloc, &q.told) {
        Ok(events) => Ok(Some(Body::PathTaken {
            at: q.moment,
            path: other,
            events,
        })),
        Err(e) => Err(e),
    }
}

fn exists(alloc: Global, q: &OpenQuestion, asked: &Asked) -> Result<Option<Body>, AllocError>
    ensures { IfOk result (λ b. b ≡ Some (body.Exists q.now.moment (location_asked asked.now) q.now.told.numbers)) }
{
    let path = location(alloc, asked)?;
    let events = numbers_told(alloc, &q.told)?;
    Ok(Some(Body::Exists {
        at: q.moment,
        path,
        events,
    }))
}

fn not_found(alloc: Global, q: &OpenQuestion, asked: &Asked) -> Result<Option<Body>, AllocError>
    ensures { IfOk result (λ b. b ≡ Some (body.NotFound q.now.moment (location_asked asked.now) q.now.told.numbers)) }
{
    let path = location(alloc, asked)?;
    let events = numbers_told(alloc, &q.told)?;
    Ok(Some(Body::NotFound {
        at: q.moment,
        path,
        events,
    }))
}

fn mismatch(
    alloc: Global,
    q: &OpenQuestion,
    asked: &Asked,
    member: &str,
) -> Result<Option<Body>, AllocError>
    ensures { IfOk result (λ b. b
        ≡ Some (body.Mismatch q.now.moment member.now (location_asked asked.now) q.now.told.numbers)) }
{
    let path = location(alloc, asked)?;
    let member = Name::wrap(String::from_str(alloc, member)?);
    let events = numbers_told(alloc, &q.told)?;
    Ok(Some(Body::Mismatch {
        at: q.moment,
        member,
        path,
        events,
    }))
}

fn undetermined(
    alloc: Global,
    q: &OpenQuestion,
    place: usize,
    member: Member,
) -> Result<Option<Body>, AllocError>
    ensures { IfOk result (λ b. b ≡ Some (body.BadSpec (member_of_node (unwrap_or (node_of place q.now.plan.tree) [])
        (member_name member)) (Some q.now.told.numbers))) }
{
    let path = member_path(alloc, &q.plan.tree, place, member)?;
    let events = numbers_told(alloc, &q.told)?;
    Ok(Some(Body::BadSpec {
        path,
        events: Some(events),
    }))
}

// Where the array lies that a leaf asks for.
fn location(alloc: Global, asked: &Asked) -> Result<Name, AllocError>
    ensures { IfOk result (λ location. location ≡ location_asked asked.now) }
{
    let mount = asked.mount.items();
    let path = asked.path.items();
    Ok(Name::wrap(format!(in alloc; "{mount}/{path}")?))
}

/// The answer where a store call failed at the moment of a question.
///
/// # Errors
/// An allocation failed.
pub(crate) fn failure_of(alloc: Global, q: &OpenQuestion) -> Result<Body, AllocError>
    requires { q.now.moment + 1 < 2 ^ 64 }
    ensures { IfOk result (λ b. b ≡ body_of (store_failed (q.now.moment + 1) [] (Some q.now.told.numbers))) }
{
    let events = numbers_told(alloc, &q.told)?;
    Ok(Body::StoreFailed {
        event: q.moment + 1,
        done: List::wrap(Vec::new(alloc)),
        events: Some(events),
    })
}

/// Whether a leaf that comes to this finds nothing at its place, above or below it.
pub(crate) fn is_free(outcome: &LeafOutcome) -> bool
    ensures { result ≡ is_free_told outcome.now }
{
    match outcome {
        LeafOutcome::Taken { .. } => false,
        LeafOutcome::There { .. } => false,
        LeafOutcome::Exists => false,
        LeafOutcome::Mismatch { .. } => false,
        LeafOutcome::NotFound => true,
        LeafOutcome::BadWant { .. } => true,
        LeafOutcome::Made { .. } => true,
    }
}
