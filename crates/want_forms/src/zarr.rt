// What is asked in Zarr version 2.
ghost use Rattle.std.specs.Prelude.{◌≡◌, ◌≢◌, Ok, Err, Some, None, IfOk, IfErr, IfSome, IfNone, codes, false, length, option_map};
ghost use Rattle.serde_json.specs.View.{view};
ghost use Rattle.cells.specs.Bytes.{byte_count};
ghost use Rattle.cells.specs.Numbers.{IsWord};
ghost use Rattle.cells.specs.Shapes.{IsShape};
ghost use Rattle.json_forms.specs.Members.{least_unknown};
ghost use Rattle.meta_forms.specs.Judged.{whole_at, is_null_at, list_len_at};
ghost use Rattle.meta_forms.specs.declared.error.MetaError.{MetaError};
ghost use Rattle.chunk_forms.specs.ZarrRead.{judged_type, judged_compressor, judged_order, judged_filters, judged_separator};
ghost use Rattle.want_forms.specs.Zarr.{type_at, type_asked, zarr_dtype, fill_asked, rest_asked, shape_asked, members_asked, zarr_members, zarr_object, zarr_want};

use crate::asking::{if_right, in_turn, none_left, word_asked};
use crate::sizes::{chunks_in_turn, shape_in_turn};
use cells::{Dtype, Order, Sizes};
use chunk_forms::{
    ElementType, ZarrWant, judged_compressor, judged_filters, judged_order, judged_separator,
    judged_type,
};
use json_forms::least_unknown;
use meta_forms::{Fault, MetaError, is_null_at, judged_format, list_len_at, whole_at};
use serde_json::Value;
use std::alloc::Global;

/// What is asked of an array by the `metadata` of a Spec, which may be left out, beside a dtype of the Spec's own. The dtype of
/// `metadata` counts before the Spec's. A fill is a word of the dtype that is asked, or of 64 bits where none is.
///
/// Zarr version 2, "Metadata"; TensorStore, driver `zarr`.
///
/// # Errors
/// `NotJson` where `metadata` is no object. Else the first member in byte order that is at fault: `BadMember` where it is
/// unknown, or has a value that it may never have; `Unsupported` where it has a value that the format knows and this workspace
/// doesn't read. There are as many `chunks` as `shape` has items, if that is a list, else at most 32. `Memory` where an
/// allocation failed.
#[tactic(auto, unfolding(crate::specs::Zarr::zarr_want))]
pub fn zarr_want(
    alloc: Global,
    own: Option<Dtype>,
    metadata: Option<&Value>,
) -> Result<ZarrWant, MetaError>
    ensures value { IfOk result (λ w. zarr_want own (option_map (λ v. view v.now) metadata.entry) ≡ Ok w) }
    ensures causes { IfErr result (λ e. e ≢ MetaError.Memory
        → zarr_want own (option_map (λ v. view v.now) metadata.entry) ≡ Err e) }
{
    match metadata {
        Some(metadata) => want_of(alloc, own, metadata),
        None => Ok(ZarrWant {
            shape: None,
            chunks: None,
            dtype: own,
            big: None,
            fill: None,
            order: None,
            slash: None,
        }),
    }
}

#[tactic(auto, unfolding(crate::specs::Zarr::zarr_want, crate::specs::Zarr::zarr_object))]
fn want_of(alloc: Global, own: Option<Dtype>, metadata: &Value) -> Result<ZarrWant, MetaError>
    ensures value { IfOk result (λ w. zarr_want own (Some (view metadata.now)) ≡ Ok w) }
    ensures causes { IfErr result (λ e. e ≢ MetaError.Memory → zarr_want own (Some (view metadata.now)) ≡ Err e) }
{
    if metadata.as_object().is_none() {
        return Err(MetaError::NotJson);
    }
    let t = type_asked(own, if_right(type_at(metadata)));
    members_asked(alloc, unknown_member(metadata), t, metadata)
}

/// The dtype that `metadata` names, where its member `dtype` is right.
#[tactic(auto, unfolding(crate::specs::Zarr::zarr_dtype))]
pub fn zarr_dtype(metadata: &Value) -> Option<Dtype>
    ensures { result ≡ zarr_dtype (view metadata.now) }
{
    match if_right(type_at(metadata)) {
        Some(t) => Some(t.dtype),
        None => None,
    }
}

fn unknown_member(value: &Value) -> Option<&str>
    ensures { option_map (λ s. s.now) result ≡ least_unknown zarr_members (view value.now) }
{
    least_unknown(
        value,
        &[
            "chunks",
            "compressor",
            "dimension_separator",
            "dtype",
            "fill_value",
            "filters",
            "order",
            "shape",
            "zarr_format",
        ],
    )
}

#[tactic(auto, unfolding(crate::specs::Zarr::members_asked))]
fn members_asked(
    alloc: Global,
    unknown: Option<&str>,
    t: TypeAsked,
    value: &Value,
) -> Result<ZarrWant, MetaError>
    requires { IfSome t.dtype (λ d. byte_count d ≡ 1 → IfSome t.big (λ big. big ≡ false)) }
    ensures value { IfOk result (λ w. members_asked (option_map (λ s. s.now) unknown.entry) t (view value.now) ≡ Ok w) }
    ensures causes { IfErr result (λ e. e ≢ MetaError.Memory
        → members_asked (option_map (λ s. s.now) unknown.entry) t (view value.now) ≡ Err e) }
{
    let chunks = chunks_in_turn(alloc, unknown, "chunks", 0, "shape", value)?;
    let rest = rest_asked(alloc, unknown, t.dtype, value)?;
    let shape = shape_asked(alloc, unknown, value)?;
    Ok(ZarrWant {
        shape,
        chunks,
        dtype: t.dtype,
        big: t.big,
        fill: rest.fill,
        order: rest.order,
        slash: rest.slash,
    })
}

/// What the members between the two shapes ask.
#[derive(Clone, Copy, Debug, PartialEq, Eq)]
pub(crate) struct Rest {
    pub fill: Option<Option<u64>>,
    pub order: Option<Order>,
    pub slash: Option<bool>,
}

#[tactic(auto, unfolding(crate::specs::Zarr::rest_asked))]
fn rest_asked(
    alloc: Global,
    unknown: Option<&str>,
    dtype: Option<Dtype>,
    value: &Value,
) -> Result<Rest, MetaError>
    ensures value { IfOk result (λ rest. rest_asked (option_map (λ s.
        s.now) unknown.entry) dtype (view value.now) ≡ Ok rest) }
    ensures word { IfOk result (λ rest. IfSome dtype (λ d.
        IfSome rest.fill (λ fill. IfSome fill (λ word. IsWord d word)))) }
    ensures causes { IfErr result (λ e. e ≢ MetaError.Memory
        → rest_asked (option_map (λ s. s.now) unknown.entry) dtype (view value.now) ≡ Err e) }
{
    in_turn(
        alloc,
        unknown,
        "compressor",
        value,
        judged_compressor(value),
    )?;
    let slash = in_turn(
        alloc,
        unknown,
        "dimension_separator",
        value,
        judged_separator(value),
    )?;
    in_turn(alloc, unknown, "dtype", value, type_at(value))?;
    let fill = in_turn(
        alloc,
        unknown,
        "fill_value",
        value,
        fill_asked(dtype, value),
    )?;
    in_turn(alloc, unknown, "filters", value, judged_filters(value))?;
    let order = in_turn(alloc, unknown, "order", value, judged_order(value))?;
    Ok(Rest { fill, order, slash })
}

#[tactic(auto, unfolding(crate::specs::Zarr::shape_asked))]
fn shape_asked(
    alloc: Global,
    unknown: Option<&str>,
    value: &Value,
) -> Result<Option<Sizes>, MetaError>
    ensures value { IfOk result (λ o. shape_asked (option_map (λ s. s.now) unknown.entry) (view value.now) ≡ Ok o) }
    ensures rules { IfOk result (λ o. IfSome o (λ sizes. IsShape sizes)) }
    ensures there { IfOk result (λ o. IfSome o (λ sizes.
        list_len_at (codes "shape") (view value.now) ≡ Some (length sizes))) }
    ensures absent { IfOk result (λ o. IfNone o (list_len_at (codes "shape") (view value.now) ≡ None)) }
    ensures causes { IfErr result (λ e. e ≢ MetaError.Memory
        → shape_asked (option_map (λ s. s.now) unknown.entry) (view value.now) ≡ Err e) }
{
    let shape = shape_in_turn(alloc, unknown, "shape", value)?;
    let format = judged_format(whole_at(value, "zarr_format"), 2);
    in_turn(alloc, unknown, "zarr_format", value, format)?;
    none_left(alloc, unknown)?;
    Ok(shape)
}

/// The dtype and the byte order that are asked.
#[derive(Clone, Copy, Debug, PartialEq, Eq)]
pub(crate) struct TypeAsked {
    pub dtype: Option<Dtype>,
    pub big: Option<bool>,
}

#[tactic(auto, unfolding(crate::specs::Zarr::type_asked))]
fn type_asked(own: Option<Dtype>, named: Option<ElementType>) -> TypeAsked
    requires { IfSome named (λ t. byte_count t.dtype ≡ 1 → t.big ≡ false) }
    ensures value { result ≡ type_asked own named }
    ensures one_byte { IfSome result.dtype (λ d. byte_count d ≡ 1 → IfSome result.big (λ big. big ≡ false)) }
{
    match named {
        Some(t) => TypeAsked {
            dtype: Some(t.dtype),
            big: Some(t.big),
        },
        None => TypeAsked {
            dtype: own,
            big: None,
        },
    }
}

#[tactic(auto, unfolding(crate::specs::Zarr::type_at))]
fn type_at(value: &Value) -> Result<ElementType, Fault>
    ensures value { result ≡ type_at (view value.now) }
    ensures one_byte { IfOk result (λ t. byte_count t.dtype ≡ 1 → t.big ≡ false) }
{
    judged_type(value)
}

#[tactic(auto, unfolding(crate::specs::Zarr::fill_asked))]
fn fill_asked(dtype: Option<Dtype>, value: &Value) -> Result<Option<u64>, Fault>
    ensures value { result ≡ fill_asked dtype (is_null_at (codes "fill_value") (view value.now))
        (whole_at (codes "fill_value") (view value.now)) }
    ensures word { IfSome dtype (λ d. IfOk result (λ fill. IfSome fill (λ word. IsWord d word))) }
{
    if is_null_at(value, "fill_value") {
        return Ok(None);
    }
    match word_asked(dtype, whole_at(value, "fill_value")) {
        Ok(word) => Ok(Some(word)),
        Err(fault) => Err(fault),
    }
}
