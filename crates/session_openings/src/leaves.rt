// The leaves of a Spec, as they are asked of the state.
ghost use Rattle.std.specs.Prelude.{◌≡◌, ◌⊎◌, [], IfOk, Some, unwrap_or};
ghost use Rattle.sessions.specs.declared.Body.TheVariants as body;
ghost use Rattle.chunk_forms.specs.Members.{member_name};
ghost use Rattle.history.specs.Answers.{Text};
ghost use Rattle.history.specs.Leaves.{location_of_leaf};
ghost use Rattle.history.specs.Lines.{member_of_node};
ghost use Rattle.sessions.specs.AnswerBodies.{body_of};
ghost use Rattle.sessions.specs.MeaningOpenings.{leaf_of, node_of};
ghost use Rattle.session_openings.specs.Wanted.{wanted_leaf, cause_in};
ghost use Rattle.sessions.specs.Asked.{asked_leaf};
ghost use Rattle.sessions.specs.Opening.{open_answer, IsUnseen};

use crate::nodes::member_path;
use array_homes::MetaCause;
use cells::{Dense, List, Name};
use chunk_forms::{Member, Want};
use meta_forms::MetaError;
use sessions::{Asked, Body, OpenError, bad_metadata};
use spec_open::{SpecLeaf, Tree};
use std::alloc::{AllocError, Global};

/// What a leaf asks for: an array of a store, or one with numbers of its own.
#[derive(Debug, Drop)]
pub(crate) enum Wanted {
    Stored { asked: Asked },
    Given { start: Dense },
}

/// What a leaf of a Spec asks for.
pub(crate) fn leaf_wanted(leaf: SpecLeaf) -> Wanted
    ensures { (node : Text) → wanted_leaf node result ≡ leaf_of node leaf }
{
    match leaf {
        SpecLeaf::Zarr {
            mount,
            path,
            want,
            may_open,
            may_create,
        } => stored(mount, path, Want::Zarr { want }, may_open, may_create),
        SpecLeaf::N5 {
            mount,
            path,
            want,
            may_open,
            may_create,
        } => stored(mount, path, Want::N5 { want }, may_open, may_create),
        SpecLeaf::Zarr3 {
            mount,
            path,
            want,
            may_open,
            may_create,
        } => stored(mount, path, Want::Zarr3 { want }, may_open, may_create),
        SpecLeaf::Given { start } => Wanted::Given { start },
    }
}

fn stored(mount: Name, path: Name, want: Want, may_open: bool, may_create: bool) -> Wanted
    ensures { result
        ≡ Wanted.Stored
        (record { mount = mount; path = path; want = want; may_open = may_open; may_create = may_create }) }
{
    let asked = Asked {
        mount,
        path,
        want,
        may_open,
        may_create,
    };
    Wanted::Stored { asked }
}

/// The answer to the leaf of a number that isn't opened, with the numbers of the openings before it; or that memory is wanting, but never
/// for a failed call of the store.
pub(crate) fn unopened(
    alloc: Global,
    tree: &Tree,
    number: usize,
    asked: &Asked,
    e: OpenError,
    events: Vec<u64>,
) -> Body
    ensures { ((result ≡ body.Memory) × IsUnseen e)
        ⊎ (result ≡ body_of (open_answer (unwrap_or (node_of number tree.now) [])
        (asked_leaf asked.now) events.items e)) }
{
    match e {
        OpenError::PathTaken { path, at } => Body::PathTaken {
            at,
            path,
            events: List::wrap(events),
        },
        OpenError::StoreFailed { event } => Body::StoreFailed {
            event,
            done: List::wrap(Vec::new(alloc)),
            events: Some(List::wrap(events)),
        },
        OpenError::BadMeta { key, cause } => bad_metadata(key, cause_in(cause), List::wrap(events)),
        OpenError::Exists { at } => exists(alloc, asked, at, events),
        OpenError::Mismatch { member, at } => mismatch(alloc, asked, member, at, events),
        OpenError::NotFound { at } => not_found(alloc, asked, at, events),
        OpenError::BadWant { member } => bad_want(alloc, tree, number, member, events),
        OpenError::Memory => Body::Memory,
    }
}

fn cause_in(cause: MetaCause) -> MetaError
    ensures { cause_in cause ≡ result }
{
    match cause {
        MetaCause::Zarr { cause } => cause,
        MetaCause::N5 { cause } => cause,
    }
}

fn exists(alloc: Global, asked: &Asked, at: u64, events: Vec<u64>) -> Body
    ensures { (result ≡ body.Memory) ⊎ (result
        ≡ body.Exists at (location_of_leaf (asked_leaf asked.now)) events.items) }
{
    match location(alloc, asked) {
        Ok(path) => Body::Exists {
            at,
            path,
            events: List::wrap(events),
        },
        Err(_) => Body::Memory,
    }
}

fn not_found(alloc: Global, asked: &Asked, at: u64, events: Vec<u64>) -> Body
    ensures { (result ≡ body.Memory) ⊎ (result
        ≡ body.NotFound at (location_of_leaf (asked_leaf asked.now)) events.items) }
{
    match location(alloc, asked) {
        Ok(path) => Body::NotFound {
            at,
            path,
            events: List::wrap(events),
        },
        Err(_) => Body::Memory,
    }
}

fn mismatch(alloc: Global, asked: &Asked, member: &str, at: u64, events: Vec<u64>) -> Body
    ensures { (result ≡ body.Memory) ⊎ (result
        ≡ body.Mismatch at member.now (location_of_leaf (asked_leaf asked.now)) events.items) }
{
    match member_and_location(alloc, asked, member) {
        Ok((member, path)) => Body::Mismatch {
            at,
            member,
            path,
            events: List::wrap(events),
        },
        Err(_) => Body::Memory,
    }
}

fn bad_want(alloc: Global, tree: &Tree, number: usize, member: Member, events: Vec<u64>) -> Body
    ensures { (result ≡ body.Memory) ⊎ (result
        ≡ body.BadSpec (member_of_node (unwrap_or (node_of number tree.now) []) (member_name member))
        (Some events.items)) }
{
    match member_path(alloc, tree, number, member) {
        Ok(path) => Body::BadSpec {
            path,
            events: Some(List::wrap(events)),
        },
        Err(_) => Body::Memory,
    }
}

fn location(alloc: Global, asked: &Asked) -> Result<Name, AllocError>
    ensures { IfOk result (λ name. name ≡ location_of_leaf (asked_leaf asked.now)) }
{
    let mut text = String::from_str(alloc, asked.mount.items())?;
    text.push('/')?;
    text.push_str(asked.path.items())?;
    Ok(Name::wrap(text))
}

fn member_and_location(
    alloc: Global,
    asked: &Asked,
    member: &str,
) -> Result<(Name, Name), AllocError>
    ensures { IfOk result (λ p. (p.0 ≡ member.now) × (p.1 ≡ location_of_leaf (asked_leaf asked.now))) }
{
    let member = String::from_str(alloc, member)?;
    let path = location(alloc, asked)?;
    Ok((Name::wrap(member), path))
}
