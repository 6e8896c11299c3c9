// What is asked in N5.
ghost use Rattle.std.specs.Prelude.{◌≡◌, ◌≢◌, ◌≤◌, Ok, Err, Some, None, IfOk, IfErr, IfSome, IfNone, codes, length, option_map};
ghost use Rattle.serde_json.specs.View.{view};
ghost use Rattle.cells.specs.Shapes.{IsShape};
ghost use Rattle.json_forms.specs.Members.{least_unknown};
ghost use Rattle.meta_forms.specs.Judged.{sizes_at, list_len_at};
ghost use Rattle.meta_forms.specs.declared.error.MetaError.{MetaError};
ghost use Rattle.chunk_forms.specs.N5Read.{judged_dimensions, judged_dtype, judged_compression};
ghost use Rattle.want_forms.specs.Asking.{in_turn};
ghost use Rattle.want_forms.specs.N5.{n5_members, n5_dtype, dimensions_asked, members_asked, n5_object, n5_want};

use crate::asking::{if_right, in_turn, none_before, none_left};
use crate::sizes::chunks_in_turn;
use cells::{Dtype, Sizes};
use chunk_forms::{N5Want, judged_compression, judged_dtype};
use json_forms::least_unknown;
use meta_forms::{Fault, MetaError, checked_shape, fault_of, is_there, sizes_at};
use serde_json::Value;
use std::alloc::Global;

/// What is asked of an array by the `metadata` of a Spec, which may be left out, beside a dtype of the Spec's own. The dtype of
/// `metadata` counts before the Spec's.
///
/// N5, "attributes.json"; TensorStore, driver `n5`.
///
/// # Errors
/// `NotJson` where `metadata` is no object. Else the first member in byte order that is at fault: `BadMember` where it is
/// unknown, or has a value that it may never have; `Unsupported` where it has a value that the format knows and this workspace
/// doesn't read, and for no dimension at all. There are as many sizes in `blockSize` as `dimensions` has items, if that is a
/// list, else from 1 to 32. `Memory` where an allocation failed.
#[tactic(auto, unfolding(crate::specs::N5::n5_want))]
pub fn n5_want(
    alloc: Global,
    own: Option<Dtype>,
    metadata: Option<&Value>,
) -> Result<N5Want, MetaError>
    ensures value { IfOk result (λ w. n5_want own (option_map (λ v. view v.now) metadata.entry) ≡ Ok w) }
    ensures causes { IfErr result (λ e. e ≢ MetaError.Memory
        → n5_want own (option_map (λ v. view v.now) metadata.entry) ≡ Err e) }
{
    match metadata {
        Some(metadata) => want_of(alloc, own, metadata),
        None => Ok(N5Want {
            dimensions: None,
            block: None,
            dtype: own,
        }),
    }
}

#[tactic(auto, unfolding(crate::specs::N5::n5_want, crate::specs::N5::n5_object))]
fn want_of(alloc: Global, own: Option<Dtype>, metadata: &Value) -> Result<N5Want, MetaError>
    ensures value { IfOk result (λ w. n5_want own (Some (view metadata.now)) ≡ Ok w) }
    ensures causes { IfErr result (λ e. e ≢ MetaError.Memory → n5_want own (Some (view metadata.now)) ≡ Err e) }
{
    if metadata.as_object().is_none() {
        return Err(MetaError::NotJson);
    }
    let dtype = n5_dtype(metadata).or(own);
    members_asked(alloc, unknown_member(metadata), dtype, metadata)
}

/// The dtype that `metadata` names, where its member `dataType` is right.
#[tactic(auto, unfolding(crate::specs::N5::n5_dtype))]
pub fn n5_dtype(metadata: &Value) -> Option<Dtype>
    ensures { result ≡ n5_dtype (view metadata.now) }
{
    if_right(judged_dtype(metadata))
}

fn unknown_member(value: &Value) -> Option<&str>
    ensures { option_map (λ s. s.now) result ≡ least_unknown n5_members (view value.now) }
{
    least_unknown(
        value,
        &["blockSize", "compression", "dataType", "dimensions"],
    )
}

#[tactic(auto, unfolding(crate::specs::N5::members_asked))]
fn members_asked(
    alloc: Global,
    unknown: Option<&str>,
    dtype: Option<Dtype>,
    value: &Value,
) -> Result<N5Want, MetaError>
    ensures value { IfOk result (λ w. members_asked (option_map (λ s.
        s.now) unknown.entry) dtype (view value.now) ≡ Ok w) }
    ensures causes { IfErr result (λ e. e ≢ MetaError.Memory
        → members_asked (option_map (λ s. s.now) unknown.entry) dtype (view value.now) ≡ Err e) }
{
    let block = chunks_in_turn(alloc, unknown, "blockSize", 1, "dimensions", value)?;
    let dimensions = dimensions_asked(alloc, unknown, value)?;
    Ok(N5Want {
        dimensions,
        block,
        dtype,
    })
}

#[tactic(auto, unfolding(crate::specs::N5::dimensions_asked))]
fn dimensions_asked(
    alloc: Global,
    unknown: Option<&str>,
    value: &Value,
) -> Result<Option<Sizes>, MetaError>
    ensures value { IfOk result (λ o. dimensions_asked (option_map (λ s.
        s.now) unknown.entry) (view value.now) ≡ Ok o) }
    ensures rules { IfOk result (λ o. IfSome o (λ sizes. IsShape sizes × (1 ≤ length sizes))) }
    ensures there { IfOk result (λ o. IfSome o (λ sizes.
        list_len_at (codes "dimensions") (view value.now) ≡ Some (length sizes))) }
    ensures absent { IfOk result (λ o. IfNone o (list_len_at (codes "dimensions") (view value.now) ≡ None)) }
    ensures causes { IfErr result (λ e. e ≢ MetaError.Memory
        → dimensions_asked (option_map (λ s. s.now) unknown.entry) (view value.now) ≡ Err e) }
{
    in_turn(
        alloc,
        unknown,
        "compression",
        value,
        judged_compression(value),
    )?;
    in_turn(alloc, unknown, "dataType", value, judged_dtype(value))?;
    let dimensions = dimensions_in_turn(alloc, unknown, value)?;
    none_left(alloc, unknown)?;
    Ok(dimensions)
}

#[tactic(auto, unfolding(crate::specs::Asking::in_turn, crate::specs::Asking::asked))]
fn dimensions_in_turn(
    alloc: Global,
    unknown: Option<&str>,
    value: &Value,
) -> Result<Option<Sizes>, MetaError>
    ensures value { IfOk result (λ o. in_turn (option_map (λ s.
        s.now) unknown.entry) (codes "dimensions") (view value.now)
        (judged_dimensions (sizes_at (codes "dimensions") (view value.now))) ≡ Ok o) }
    ensures rules { IfOk result (λ o. IfSome o (λ sizes. IsShape sizes × (1 ≤ length sizes))) }
    ensures there { IfOk result (λ o. IfSome o (λ sizes.
        list_len_at (codes "dimensions") (view value.now) ≡ Some (length sizes))) }
    ensures absent { IfOk result (λ o. IfNone o (list_len_at (codes "dimensions") (view value.now) ≡ None)) }
    ensures causes { IfErr result (λ e. e ≢ MetaError.Memory
        → in_turn (option_map (λ s. s.now) unknown.entry) (codes "dimensions")
        (view value.now) (judged_dimensions (sizes_at (codes "dimensions") (view value.now))) ≡ Err e) }
{
    none_before(alloc, unknown, "dimensions")?;
    if !is_there(value, "dimensions") {
        return Ok(None);
    }
    let Some(sizes) = sizes_at(alloc, value, "dimensions")? else {
        return Err(fault_of(alloc, "dimensions", Fault::Bad));
    };
    if sizes.len() == 0 {
        return Err(fault_of(alloc, "dimensions", Fault::Unsupported));
    }
    let sizes = checked_shape(alloc, "dimensions", Some(sizes))?;
    Ok(Some(Sizes::wrap(sizes)))
}
