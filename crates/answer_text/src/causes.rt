// Why something was refused.
ghost use Rattle.std.specs.Prelude.{◌≡◌, ◌++◌, OnOk, codes, decimal};
ghost use Rattle.answer_text.specs.Pieces.{text_of};
ghost use Rattle.answer_text.specs.Causes.{bounds_text, step_why, step_cause, compose_why, compose_cause, build_why, build_cause, join_cause, meta_why, chunk_why};

use crate::answer::{MetaWhy, Why};
use crate::members::{put_around, put_text_around};
use crate::pieces::{put, put_bound};
use dim_changes::Cause;
use layer_join::JoinError;
use spec_open::BuildCause;
use std::alloc::{AllocError, Global};
use transform_composition::ComposeError;

/// Puts why a step is refused, and the step's number.
#[tactic(auto, unfolding(crate::specs::Causes::step_cause))]
pub(crate) fn put_step_cause(out: &mut Vec<u8>, cause: Cause, step: u32) -> Result<(), AllocError>
    ensures { OnOk result (out.new.items ≡ out.old.items ++ step_cause cause step) }
{
    put_step_why(out, cause)?;
    put_around(out, ",\"step\":", u64::from(step), "}")
}

#[tactic(auto, unfolding(crate::specs::Causes::step_why))]
fn put_step_why(out: &mut Vec<u8>, cause: Cause) -> Result<(), AllocError>
    ensures { OnOk result (out.new.items ≡ out.old.items ++ step_why cause) }
{
    match cause {
        Cause::Count => put(out, "{\"cause\":\"count\""),
        Cause::Rank => put(out, "{\"cause\":\"rank\""),
        Cause::Target => put(out, "{\"cause\":\"target\""),
        Cause::Label => put(out, "{\"cause\":\"label\""),
        Cause::ZeroStep => put(out, "{\"cause\":\"zero_step\""),
        Cause::Unbounded => put(out, "{\"cause\":\"unbounded\""),
        Cause::BadOrder => put(out, "{\"cause\":\"bad_order\""),
        Cause::OutOfRange { lo, hi } => put_bounds(out, lo, hi),
        Cause::IndexDim => put(out, "{\"cause\":\"index_dim\""),
        Cause::Overflow => put(out, "{\"cause\":\"overflow\""),
        Cause::TooLarge => put(out, "{\"cause\":\"too_large\""),
    }
}

#[tactic(auto, unfolding(crate::specs::Causes::bounds_text))]
fn put_bounds(out: &mut Vec<u8>, lo: i64, hi: i64) -> Result<(), AllocError>
    ensures { OnOk result (out.new.items ≡ out.old.items ++ bounds_text lo hi) }
{
    put(out, "{\"cause\":\"out_of_range\",\"hi\":")?;
    put_bound(out, hi)?;
    put(out, ",\"lo\":")?;
    put_bound(out, lo)
}

/// Puts why transforms don't compose.
#[tactic(auto, unfolding(crate::specs::Causes::compose_cause))]
pub(crate) fn put_compose_cause(out: &mut Vec<u8>, cause: ComposeError) -> Result<(), AllocError>
    ensures { OnOk result (out.new.items ≡ out.old.items ++ compose_cause cause) }
{
    put_compose_why(out, cause)?;
    put(out, "}")
}

#[tactic(auto, unfolding(crate::specs::Causes::compose_why))]
fn put_compose_why(out: &mut Vec<u8>, cause: ComposeError) -> Result<(), AllocError>
    ensures { OnOk result (out.new.items ≡ out.old.items ++ compose_why cause) }
{
    match cause {
        ComposeError::Rank => put(out, "{\"cause\":\"rank\""),
        ComposeError::Overflow { output } => {
            let output = u64::from(output);
            put_around(out, "{\"cause\":\"overflow\",\"output\":", output, "")
        }
        ComposeError::Outside { output } => {
            let output = u64::from(output);
            put_around(out, "{\"cause\":\"outside\",\"output\":", output, "")
        }
        ComposeError::TooLarge { output } => {
            let output = u64::from(output);
            put_around(out, "{\"cause\":\"too_large\",\"output\":", output, "")
        }
        ComposeError::Memory => put(out, "{\"cause\":\"memory\""),
    }
}

/// Puts why a node of a Spec gives no view.
#[tactic(auto, unfolding(crate::specs::Causes::build_cause))]
pub(crate) fn put_build_cause(
    alloc: Global,
    out: &mut Vec<u8>,
    cause: BuildCause,
    path: &str,
) -> Result<(), AllocError>
    ensures { OnOk result (out.new.items ≡ out.old.items ++ build_cause cause path.now) }
{
    put_build_why(out, cause)?;
    put_text_around(alloc, out, ",\"path\":", path, "}")
}

#[tactic(auto, unfolding(crate::specs::Causes::build_why))]
fn put_build_why(out: &mut Vec<u8>, cause: BuildCause) -> Result<(), AllocError>
    ensures { OnOk result (out.new.items ≡ out.old.items ++ build_why cause) }
{
    match cause {
        BuildCause::Transform { cause } => put_compose_why(out, cause),
        BuildCause::Layers => put(out, "{\"cause\":\"layers\""),
    }
}

/// Puts why views aren't joined.
#[tactic(auto, unfolding(crate::specs::Causes::join_cause))]
pub(crate) fn put_join_cause(out: &mut Vec<u8>, cause: JoinError) -> Result<(), AllocError>
    ensures { OnOk result (out.new.items ≡ out.old.items ++ join_cause cause) }
{
    match cause {
        JoinError::Depth => put(out, "{\"cause\":\"depth\"}"),
        JoinError::Layers { layer } => {
            let layer = u64::from(layer);
            put_around(out, "{\"cause\":\"layers\",\"layer\":", layer, "}")
        }
        JoinError::Axis => put(out, "{\"cause\":\"axis\"}"),
        JoinError::Rank => put(out, "{\"cause\":\"rank\"}"),
        JoinError::Unbounded { layer } => {
            let layer = u64::from(layer);
            put_around(out, "{\"cause\":\"unbounded\",\"layer\":", layer, "}")
        }
        JoinError::Overflow { layer } => {
            let layer = u64::from(layer);
            put_around(out, "{\"cause\":\"overflow\",\"layer\":", layer, "}")
        }
        JoinError::Memory => put(out, "{\"cause\":\"memory\"}"),
    }
}

/// Puts why bytes are no metadata.
#[tactic(auto, unfolding(crate::specs::Causes::meta_why))]
pub(crate) fn put_meta_why(
    alloc: Global,
    out: &mut Vec<u8>,
    key: &str,
    why: &MetaWhy,
) -> Result<(), AllocError>
    ensures { OnOk result (out.new.items ≡ out.old.items ++ meta_why key.now why.now) }
{
    match why {
        MetaWhy::Json => put_text_around(alloc, out, "{\"key\":", key, ",\"why\":\"json\"}"),
        MetaWhy::Member { name } => put_member_why(
            alloc,
            out,
            key,
            name.items(),
            ",\"why\":\"member\"}",
        ),
        MetaWhy::Unsupported { name } => {
            put_member_why(alloc, out, key, name.items(), ",\"why\":\"unsupported\"}")
        }
    }
}

fn put_member_why(
    alloc: Global,
    out: &mut Vec<u8>,
    key: &str,
    name: &str,
    behind: &str,
) -> Result<(), AllocError>
    ensures { OnOk result (out.new.items ≡ out.old.items
        ++ (codes "{\"key\":" ++ text_of key.now ++ codes ",\"member\":" ++ text_of name.now ++ behind.now)) }
{
    put_text_around(alloc, out, "{\"key\":", key, ",\"member\":")?;
    put_text_around(alloc, out, "", name, behind)
}

/// Puts why bytes are no chunk.
#[tactic(auto, unfolding(crate::specs::Causes::chunk_why))]
pub(crate) fn put_chunk_why(
    alloc: Global,
    out: &mut Vec<u8>,
    key: &str,
    why: Why,
) -> Result<(), AllocError>
    ensures { OnOk result (out.new.items ≡ out.old.items ++ chunk_why key.now why) }
{
    match why {
        Why::Length { have, want } => put_length_why(alloc, out, have, key, want),
        Why::Mode { have } => put_header_why(alloc, out, have, key, ",\"why\":\"mode\"}"),
        Why::Rank { have } => put_header_why(alloc, out, have, key, ",\"why\":\"rank\"}"),
        Why::Size { dim, have } => {
            put_size_why(alloc, out, u64::from(dim), u64::from(have), key)
        }
    }
}

fn put_length_why(
    alloc: Global,
    out: &mut Vec<u8>,
    have: u64,
    key: &str,
    want: u64,
) -> Result<(), AllocError>
    ensures { OnOk result (out.new.items ≡ out.old.items
        ++ (codes "{\"have\":" ++ decimal have ++ codes ",\"key\":" ++ text_of key.now ++ codes ",\"want\":"
        ++ decimal want ++ codes ",\"why\":\"length\"}")) }
{
    put_around(out, "{\"have\":", have, ",\"key\":")?;
    put_text_around(alloc, out, "", key, ",\"want\":")?;
    put_around(out, "", want, ",\"why\":\"length\"}")
}

fn put_header_why(
    alloc: Global,
    out: &mut Vec<u8>,
    have: u16,
    key: &str,
    behind: &str,
) -> Result<(), AllocError>
    ensures { OnOk result (out.new.items ≡ out.old.items
        ++ (codes "{\"have\":" ++ decimal have ++ codes ",\"key\":" ++ text_of key.now ++ behind.now)) }
{
    put_around(out, "{\"have\":", u64::from(have), ",\"key\":")?;
    put_text_around(alloc, out, "", key, behind)
}

fn put_size_why(
    alloc: Global,
    out: &mut Vec<u8>,
    dim: u64,
    have: u64,
    key: &str,
) -> Result<(), AllocError>
    ensures { OnOk result (out.new.items ≡ out.old.items
        ++ (codes "{\"dim\":" ++ decimal dim ++ codes ",\"have\":" ++ decimal have ++ codes ",\"key\":"
        ++ text_of key.now ++ codes ",\"why\":\"size\"}")) }
{
    put_around(out, "{\"dim\":", dim, ",\"have\":")?;
    put_around(out, "", have, ",\"key\":")?;
    put_text_around(alloc, out, "", key, ",\"why\":\"size\"}")
}
