// The members of an answer that come behind its line.
ghost use Rattle.std.specs.Prelude.{◌≡◌, ◌++◌, codes, decimal, OnOk};
ghost use Rattle.answer_text.specs.Causes.{step_cause, compose_cause, build_cause, join_cause};
ghost use Rattle.answer_text.specs.Nested.{values_text};
ghost use Rattle.answer_text.specs.Pieces.{indices_text, text_of};
ghost use Rattle.answer_text.specs.Text.{transform_text, met_text, mismatch_text, store_text, shrunk_text, cell_text, behind_line};

use crate::answer::Body;
use crate::causes::{put_build_cause, put_compose_cause, put_join_cause, put_step_cause};
use crate::lists::has_few_lists;
use crate::members::{put_around, put_met, put_numbers_around, put_text_around, put_transform};
use crate::pieces::{put, put_indices, put_number, put_text};
use crate::values::put_values;
use cells::Dtype;
use dim_changes::Cause;
use index_transform::Transform;
use layer_join::JoinError;
use spec_open::BuildCause;
use std::alloc::{AllocError, Global};
use transform_composition::ComposeError;

/// Puts the members behind `line`, each with a comma before it.
pub(crate) fn put_behind(alloc: Global, out: &mut Vec<u8>, body: &Body) -> Result<(), AllocError>
    ensures { OnOk result (out.new.items ≡ out.old.items ++ behind_line body.now) }
{
    match body {
        Body::Opened { name, .. } => put_named(alloc, out, ",\"open\":", name.items()),
        Body::Viewed {
            name,
            transform,
            ..
        } => put_viewed(alloc, out, transform, name.items()),
        Body::Values {
            origin,
            shape,
            dtype,
            words,
        } => put_numbers_of(out, origin.items(), *dtype, shape.items(), words.items()),
        Body::Staged { cells } => put_counted(out, ",\"write\":", *cells),
        Body::Written { cells, .. } => put_counted(out, ",\"write\":", *cells),
        Body::Resized { event } => put_counted(out, ",\"resize\":", *event),
        Body::Resolved {
            name,
            transform,
            ..
        } => put_resolved(alloc, out, name.items(), transform),
        Body::Unsupported { path } => put_named(alloc, out, ",\"unsupported\":", path.items()),
        Body::UnknownName { name } => put_named(alloc, out, ",\"unknown_name\":", name.items()),
        Body::NoTransaction => put(out, ",\"no_transaction\":true"),
        Body::UnknownDim { step } => {
            put_around(out, ",\"unknown_dim\":{\"step\":", u64::from(*step), "}")
        }
        Body::RepeatedDim { step } => {
            put_around(out, ",\"repeated_dim\":{\"step\":", u64::from(*step), "}")
        }
        Body::RefusedStep { step, cause } => put_refused_step(out, *cause, *step),
        Body::RefusedView { cause } => put_refused_view(out, *cause),
        Body::RefusedJoin { cause } => put_refused_join(out, *cause),
        Body::RefusedSpec { path, cause, .. } => {
            put_refused_spec(alloc, out, *cause, path.items())
        }
        Body::NotFound { at, path, .. } => put_at(alloc, out, ",\"not_found\":", *at, path.items()),
        Body::PathTaken { at, path, .. } => {
            put_at(alloc, out, ",\"path_taken\":", *at, path.items())
        }
        Body::Mismatch {
            at,
            member,
            path,
            ..
        } => put_mismatch(alloc, out, *at, member.items(), path.items()),
        Body::Unbounded { dim } => {
            put_around(out, ",\"unbounded\":{\"dim\":", u64::from(*dim), "}")
        }
        Body::TooMany { dim } => put_around(out, ",\"too_many\":{\"dim\":", u64::from(*dim), "}"),
        Body::OutOfRange { cell, dim } => put_cell(out, cell.items(), u64::from(*dim)),
        Body::Uncovered { cell } => put_uncovered(out, cell.items()),
        Body::Shrunk { key, now } => put_shrunk(alloc, out, key.items(), *now),
        Body::NotAtomic { keys } => put_around(out, ",\"not_atomic\":{\"keys\":", *keys, "}"),
        Body::NotArray => put(out, ",\"not_array\":true"),
        Body::TooManyChunks { at } => { put_around(out, ",\"too_many_chunks\":{\"at\":", *at, "}") }
        Body::StoreFailed { event, done, .. } => put_failed(out, done.items(), *event),
        Body::Memory => put(out, ",\"memory\":true"),
        _ => Ok(()),
    }
}

fn put_named(alloc: Global, out: &mut Vec<u8>, before: &str, name: &str) -> Result<(), AllocError>
    ensures { OnOk result (out.new.items ≡ out.old.items ++ (before.now ++ text_of name.now)) }
{
    put(out, before)?;
    put_text(alloc, out, name)
}

fn put_counted(out: &mut Vec<u8>, before: &str, number: u64) -> Result<(), AllocError>
    ensures { OnOk result (out.new.items ≡ out.old.items ++ (before.now ++ decimal number)) }
{
    put(out, before)?;
    put_number(out, number)
}

fn put_viewed(
    alloc: Global,
    out: &mut Vec<u8>,
    transform: &Transform,
    name: &str,
) -> Result<(), AllocError>
    ensures { OnOk result (out.new.items ≡ out.old.items
        ++ (codes ",\"transform\":" ++ transform_text transform.now ++ codes ",\"view\":" ++ text_of name.now)) }
{
    put(out, ",\"transform\":")?;
    put_transform(alloc, out, transform)?;
    put(out, ",\"view\":")?;
    put_text(alloc, out, name)
}

fn put_resolved(
    alloc: Global,
    out: &mut Vec<u8>,
    name: &str,
    transform: &Transform,
) -> Result<(), AllocError>
    ensures { OnOk result (out.new.items ≡ out.old.items
        ++ (codes ",\"resolve\":" ++ text_of name.now ++ codes ",\"transform\":" ++ transform_text transform.now)) }
{
    put_text_around(alloc, out, ",\"resolve\":", name, ",\"transform\":")?;
    put_transform(alloc, out, transform)
}

fn put_numbers_of(
    out: &mut Vec<u8>,
    origin: &[i64],
    dtype: Dtype,
    shape: &[u64],
    words: &[u64],
) -> Result<(), AllocError>
    ensures { OnOk result (out.new.items ≡ out.old.items
        ++ (codes ",\"origin\":" ++ indices_text origin.now ++ codes ",\"values\":"
        ++ values_text dtype shape.now words.now)) }
{
    if !has_few_lists(shape) {
        return Err(AllocError);
    }
    put(out, ",\"origin\":")?;
    put_indices(out, origin)?;
    put(out, ",\"values\":")?;
    put_values(out, dtype, shape, words)
}

fn put_refused_step(out: &mut Vec<u8>, cause: Cause, step: u32) -> Result<(), AllocError>
    ensures { OnOk result (out.new.items ≡ out.old.items ++ (codes ",\"refused\":" ++ step_cause cause step)) }
{
    put(out, ",\"refused\":")?;
    put_step_cause(out, cause, step)
}

fn put_refused_view(out: &mut Vec<u8>, cause: ComposeError) -> Result<(), AllocError>
    ensures { OnOk result (out.new.items ≡ out.old.items ++ (codes ",\"refused\":" ++ compose_cause cause)) }
{
    put(out, ",\"refused\":")?;
    put_compose_cause(out, cause)
}

fn put_refused_join(out: &mut Vec<u8>, cause: JoinError) -> Result<(), AllocError>
    ensures { OnOk result (out.new.items ≡ out.old.items ++ (codes ",\"refused\":" ++ join_cause cause)) }
{
    put(out, ",\"refused\":")?;
    put_join_cause(out, cause)
}

fn put_refused_spec(
    alloc: Global,
    out: &mut Vec<u8>,
    cause: BuildCause,
    path: &str,
) -> Result<(), AllocError>
    ensures { OnOk result (out.new.items ≡ out.old.items ++ (codes ",\"refused\":" ++ build_cause cause path.now)) }
{
    put(out, ",\"refused\":")?;
    put_build_cause(alloc, out, cause, path)
}

fn put_at(
    alloc: Global,
    out: &mut Vec<u8>,
    before: &str,
    at: u64,
    path: &str,
) -> Result<(), AllocError>
    ensures { OnOk result (out.new.items ≡ out.old.items ++ (before.now ++ met_text at path.now)) }
{
    put(out, before)?;
    put_met(alloc, out, at, path)
}

#[tactic(auto, unfolding(crate::specs::Text::mismatch_text))]
fn put_mismatch(
    alloc: Global,
    out: &mut Vec<u8>,
    at: u64,
    member: &str,
    path: &str,
) -> Result<(), AllocError>
    ensures { OnOk result (out.new.items ≡ out.old.items ++ mismatch_text at member.now path.now) }
{
    put_around(out, ",\"mismatch\":{\"at\":", at, ",\"member\":")?;
    put_text_around(alloc, out, "", member, ",\"path\":")?;
    put_text_around(alloc, out, "", path, "}")
}

#[tactic(auto, unfolding(crate::specs::Text::cell_text))]
fn put_cell(out: &mut Vec<u8>, cell: &[i64], dim: u64) -> Result<(), AllocError>
    ensures { OnOk result (out.new.items ≡ out.old.items ++ cell_text cell.now dim) }
{
    put(out, ",\"out_of_range\":{\"cell\":")?;
    put_indices(out, cell)?;
    put_around(out, ",\"dim\":", dim, "}")
}

fn put_uncovered(out: &mut Vec<u8>, cell: &[i64]) -> Result<(), AllocError>
    ensures { OnOk result (out.new.items ≡ out.old.items
        ++ (codes ",\"uncovered\":{\"cell\":" ++ indices_text cell.now ++ codes "}")) }
{
    put(out, ",\"uncovered\":{\"cell\":")?;
    put_indices(out, cell)?;
    put(out, "}")
}

#[tactic(auto, unfolding(crate::specs::Text::shrunk_text))]
fn put_shrunk(alloc: Global, out: &mut Vec<u8>, key: &str, now: u64) -> Result<(), AllocError>
    ensures { OnOk result (out.new.items ≡ out.old.items ++ shrunk_text key.now now) }
{
    put_text_around(alloc, out, ",\"shrunk\":{\"key\":", key, ",\"now\":")?;
    put_around(out, "", now, "}")
}

#[tactic(auto, unfolding(crate::specs::Text::store_text))]
fn put_failed(out: &mut Vec<u8>, done: &[u64], event: u64) -> Result<(), AllocError>
    ensures { OnOk result (out.new.items ≡ out.old.items ++ store_text done.now event) }
{
    put_numbers_around(out, ",\"store_failed\":{\"done\":", done, ",\"event\":")?;
    put_around(out, "", event, "}")
}
