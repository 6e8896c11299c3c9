// What is asked in Zarr version 3.
ghost use Rattle.std.specs.Prelude.{◌≡◌, ◌≢◌, Ok, Err, Some, None, IfOk, IfErr, IfSome, IfNone, codes, false, length, option_map};
ghost use Rattle.serde_json.specs.Find.{get};
ghost use Rattle.serde_json.specs.View.{view};
ghost use Rattle.cells.specs.Bytes.{byte_count};
ghost use Rattle.cells.specs.Numbers.{IsWord};
ghost use Rattle.cells.specs.Shapes.{IsShape, IsChunkShape};
ghost use Rattle.meta_forms.specs.Faults.{named};
ghost use Rattle.json_forms.specs.Members.{least_unknown};
ghost use Rattle.meta_forms.specs.Judged.{list_len_at};
ghost use Rattle.meta_forms.specs.declared.error.MetaError.{MetaError};
ghost use Rattle.zarr3_chunks.specs.Read.{grid_sizes, judged_codecs, judged_dtype, judged_keys, judged_node};
ghost use Rattle.want_forms.specs.Asking.{in_turn};
ghost use Rattle.want_forms.specs.Sizes.{HasRank};
ghost use Rattle.want_forms.specs.Zarr3.{dtype_at, codecs_asked, zarr3_members, zarr3_dtype, grid_asked, rest_asked, shape_asked, members_asked, zarr3_object, zarr3_want};

use crate::asking::{if_right, in_turn, none_before, none_left, word_asked};
use crate::sizes::{chunks_beside, shape_in_turn};
use cells::{Dtype, Sizes};
use json_forms::least_unknown;
use meta_forms::{Fault, MetaError, fault_of, judged_format, list_len_at, text_in, whole_at};
use serde_json::Value;
use std::alloc::Global;
use zarr3_chunks::{Zarr3Want, grid_sizes, judged_codecs, judged_dtype, judged_keys, judged_node};

/// What is asked of an array by the `metadata` of a Spec, which may be left out, beside a dtype of the Spec's own. The dtype of
/// `metadata` counts before the Spec's. A fill is a word of the dtype that is asked, or of 64 bits where none is; where none is
/// asked, the codec "bytes" names its byte order.
///
/// Zarr version 3, "Array metadata"; TensorStore, driver `zarr3`.
///
/// # Errors
/// `NotJson` where `metadata` is no object. Else the first member in byte order that is at fault: `BadMember` where it is
/// unknown, or has a value that it may never have; `Unsupported` where it has a value that the format knows and this workspace
/// doesn't read. There are as many sizes in the grid as `shape` has items, if that is a list, else at most 32. `Memory` where
/// an allocation failed.
#[tactic(auto, unfolding(crate::specs::Zarr3::zarr3_want))]
pub fn zarr3_want(
    alloc: Global,
    own: Option<Dtype>,
    metadata: Option<&Value>,
) -> Result<Zarr3Want, MetaError>
    ensures value { IfOk result (λ w. zarr3_want own (option_map (λ v. view v.now) metadata.entry) ≡ Ok w) }
    ensures causes { IfErr result (λ e. e ≢ MetaError.Memory
        → zarr3_want own (option_map (λ v. view v.now) metadata.entry) ≡ Err e) }
{
    match metadata {
        Some(metadata) => want_of(alloc, own, metadata),
        None => Ok(Zarr3Want {
            shape: None,
            chunks: None,
            dtype: own,
            big: None,
            fill: None,
            dot: None,
        }),
    }
}

#[tactic(auto, unfolding(crate::specs::Zarr3::zarr3_want, crate::specs::Zarr3::zarr3_object))]
fn want_of(alloc: Global, own: Option<Dtype>, metadata: &Value) -> Result<Zarr3Want, MetaError>
    ensures value { IfOk result (λ w. zarr3_want own (Some (view metadata.now)) ≡ Ok w) }
    ensures causes { IfErr result (λ e. e ≢ MetaError.Memory → zarr3_want own (Some (view metadata.now)) ≡ Err e) }
{
    if metadata.as_object().is_none() {
        return Err(MetaError::NotJson);
    }
    let dtype = zarr3_dtype(metadata).or(own);
    members_asked(alloc, unknown_member(metadata), dtype, metadata)
}

fn unknown_member(value: &Value) -> Option<&str>
    ensures { option_map (λ s. s.now) result ≡ least_unknown zarr3_members (view value.now) }
{
    least_unknown(
        value,
        &[
            "chunk_grid",
            "chunk_key_encoding",
            "codecs",
            "data_type",
            "fill_value",
            "node_type",
            "shape",
            "zarr_format",
        ],
    )
}

#[tactic(auto, unfolding(crate::specs::Zarr3::members_asked))]
fn members_asked(
    alloc: Global,
    unknown: Option<&str>,
    dtype: Option<Dtype>,
    value: &Value,
) -> Result<Zarr3Want, MetaError>
    ensures value { IfOk result (λ w. members_asked (option_map (λ s.
        s.now) unknown.entry) dtype (view value.now) ≡ Ok w) }
    ensures causes { IfErr result (λ e. e ≢ MetaError.Memory
        → members_asked (option_map (λ s. s.now) unknown.entry) dtype (view value.now) ≡ Err e) }
{
    let chunks = grid_in_turn(alloc, unknown, value)?;
    let rest = rest_asked(alloc, unknown, dtype, value)?;
    let shape = shape_asked(alloc, unknown, value)?;
    Ok(Zarr3Want {
        shape,
        chunks,
        dtype,
        big: rest.big,
        fill: rest.fill,
        dot: rest.dot,
    })
}

/// What the members between the grid and the shape ask.
#[derive(Clone, Copy, Debug, PartialEq, Eq)]
pub(crate) struct Rest {
    pub big: Option<bool>,
    pub fill: Option<u64>,
    pub dot: Option<bool>,
}

#[tactic(auto, unfolding(crate::specs::Zarr3::rest_asked))]
fn rest_asked(
    alloc: Global,
    unknown: Option<&str>,
    dtype: Option<Dtype>,
    value: &Value,
) -> Result<Rest, MetaError>
    ensures value { IfOk result (λ rest. rest_asked (option_map (λ s.
        s.now) unknown.entry) dtype (view value.now) ≡ Ok rest) }
    ensures word { IfOk result (λ rest. IfSome dtype (λ d. IfSome rest.fill (λ word. IsWord d word))) }
    ensures one_byte { IfOk result (λ rest. IfSome dtype (λ d. byte_count d ≡ 1
        → IfSome rest.big (λ big. big ≡ false))) }
    ensures causes { IfErr result (λ e. e ≢ MetaError.Memory
        → rest_asked (option_map (λ s. s.now) unknown.entry) dtype (view value.now) ≡ Err e) }
{
    let dot = in_turn(
        alloc,
        unknown,
        "chunk_key_encoding",
        value,
        judged_keys(value),
    )?;
    let big = in_turn(alloc, unknown, "codecs", value, codecs_asked(dtype, value))?;
    in_turn(alloc, unknown, "data_type", value, dtype_at(value))?;
    let word = word_asked(dtype, whole_at(value, "fill_value"));
    let fill = in_turn(alloc, unknown, "fill_value", value, word)?;
    in_turn(alloc, unknown, "node_type", value, judged_node(value))?;
    Ok(Rest { big, fill, dot })
}

#[tactic(auto, unfolding(crate::specs::Zarr3::shape_asked))]
fn shape_asked(
    alloc: Global,
    unknown: Option<&str>,
    value: &Value,
) -> Result<Option<Sizes>, MetaError>
    ensures value { IfOk result (λ o. shape_asked (option_map (λ s. s.now) unknown.entry) (view value.now) ≡ Ok o) }
    ensures rules { IfOk result (λ o. IfSome o (λ sizes. IsShape sizes)) }
    ensures there { IfOk result (λ o. IfSome o (λ sizes.
        list_len_at (codes "shape") (view value.now) ≡ Some (length sizes))) }
    ensures absent { IfOk result (λ o. IfNone o (list_len_at (codes "shape") (view value.now) ≡ None)) }
    ensures causes { IfErr result (λ e. e ≢ MetaError.Memory
        → shape_asked (option_map (λ s. s.now) unknown.entry) (view value.now) ≡ Err e) }
{
    let shape = shape_in_turn(alloc, unknown, "shape", value)?;
    let format = judged_format(whole_at(value, "zarr_format"), 3);
    in_turn(alloc, unknown, "zarr_format", value, format)?;
    none_left(alloc, unknown)?;
    Ok(shape)
}

#[tactic(auto, unfolding(crate::specs::Asking::in_turn, crate::specs::Asking::asked))]
fn grid_in_turn(
    alloc: Global,
    unknown: Option<&str>,
    value: &Value,
) -> Result<Option<Sizes>, MetaError>
    ensures value { IfOk result (λ o. in_turn (option_map (λ s.
        s.now) unknown.entry) (codes "chunk_grid") (view value.now)
        (grid_asked (list_len_at (codes "shape") (view value.now)) (get (codes "chunk_grid") (view value.now)))
        ≡ Ok o) }
    ensures rules { IfOk result (λ o. IfSome o (λ sizes. IsChunkShape sizes)) }
    ensures rank { IfOk result (λ o. IfSome o (HasRank 0 (list_len_at (codes "shape") (view value.now)))) }
    ensures causes { IfErr result (λ e. e ≢ MetaError.Memory
        → in_turn (option_map (λ s. s.now) unknown.entry) (codes "chunk_grid") (view value.now)
        (grid_asked (list_len_at (codes "shape") (view value.now)) (get (codes "chunk_grid") (view value.now)))
        ≡ Err e) }
{
    none_before(alloc, unknown, "chunk_grid")?;
    let Some(grid) = value.get("chunk_grid") else {
        return Ok(None);
    };
    let chunks = checked_grid(alloc, list_len_at(value, "shape"), grid)?;
    Ok(Some(Sizes::wrap(chunks)))
}

#[tactic(auto, unfolding(crate::specs::Zarr3::grid_asked))]
fn checked_grid(alloc: Global, rank: Option<usize>, grid: &Value) -> Result<Vec<u64>, MetaError>
    ensures value { IfOk result (λ v. named (codes "chunk_grid") (grid_asked rank (Some (view grid.now)))
        ≡ Ok v.items) }
    ensures rules { IfOk result (λ v. IsChunkShape v.items) }
    ensures rank { IfOk result (λ v. HasRank 0 rank v.items) }
    ensures causes { IfErr result (λ e. e ≢ MetaError.Memory
        → named (codes "chunk_grid") (grid_asked rank (Some (view grid.now))) ≡ Err e) }
{
    match text_in(grid, "name") {
        Some("regular") => chunks_beside(alloc, "chunk_grid", 0, rank, grid_sizes(alloc, grid)?),
        Some(_) => Err(fault_of(alloc, "chunk_grid", Fault::Unsupported)),
        None => Err(fault_of(alloc, "chunk_grid", Fault::Bad)),
    }
}

/// The dtype that `metadata` names, where its member `data_type` is right.
#[tactic(auto, unfolding(crate::specs::Zarr3::zarr3_dtype))]
pub fn zarr3_dtype(metadata: &Value) -> Option<Dtype>
    ensures { result ≡ zarr3_dtype (view metadata.now) }
{
    if_right(dtype_at(metadata))
}

#[tactic(auto, unfolding(crate::specs::Zarr3::dtype_at))]
fn dtype_at(value: &Value) -> Result<Dtype, Fault>
    ensures { result ≡ dtype_at (view value.now) }
{
    judged_dtype(value)
}

/// The byte order that codecs name; where no dtype is named, it has to be there.
#[tactic(auto, unfolding(crate::specs::Zarr3::codecs_asked))]
fn codecs_asked(dtype: Option<Dtype>, value: &Value) -> Result<bool, Fault>
    ensures value { result ≡ codecs_asked dtype (view value.now) }
    ensures one_byte { IfSome dtype (λ d. IfOk result (λ big. byte_count d ≡ 1 → big ≡ false)) }
{
    judged_codecs(dtype.unwrap_or(Dtype::I16), value)
}
