// The sizes of arrays and of their chunks.
ghost use Rattle.std.specs.Prelude.{◌≡◌, ◌≢◌, ◌≤◌, Ok, Err, Some, None, IfOk, IfErr, IfSome, IfNone, length, option_map};
ghost use Rattle.serde_json.specs.View.{view};
ghost use Rattle.cells.specs.Shapes.{IsShape, IsChunkShape};
ghost use Rattle.meta_forms.specs.Faults.{named};
ghost use Rattle.meta_forms.specs.Judged.{sizes_at, list_len_at, judged_shape, judged_chunks};
ghost use Rattle.meta_forms.specs.declared.error.MetaError.{MetaError};
ghost use Rattle.want_forms.specs.Asking.{in_turn};
ghost use Rattle.want_forms.specs.Sizes.{judged_alone, judged_beside, HasRank};

use crate::asking::none_before;
use cells::Sizes;
use meta_forms::{
    Fault, MetaError, checked_chunks, checked_shape, fault_of, is_there, list_len_at, sizes_at,
};
use serde_json::Value;
use std::alloc::Global;

/// The sizes of an array, in their turn.
#[tactic(auto, unfolding(crate::specs::Asking::in_turn, crate::specs::Asking::asked))]
pub(crate) fn shape_in_turn(
    alloc: Global,
    unknown: Option<&str>,
    name: &str,
    value: &Value,
) -> Result<Option<Sizes>, MetaError>
    ensures value { IfOk result (λ o. in_turn (option_map (λ s. s.now) unknown.entry) name.now (view value.now)
        (judged_shape (sizes_at name.now (view value.now))) ≡ Ok o) }
    ensures rules { IfOk result (λ o. IfSome o (λ sizes. IsShape sizes)) }
    ensures there { IfOk result (λ o. IfSome o (λ sizes. list_len_at name.now (view value.now) ≡ Some (length sizes))) }
    ensures absent { IfOk result (λ o. IfNone o (list_len_at name.now (view value.now) ≡ None)) }
    ensures causes { IfErr result (λ e. e ≢ MetaError.Memory → in_turn (option_map (λ s. s.now) unknown.entry) name.now
        (view value.now) (judged_shape (sizes_at name.now (view value.now))) ≡ Err e) }
{
    none_before(alloc, unknown, name)?;
    if !is_there(value, name) {
        return Ok(None);
    }
    let shape = checked_shape(alloc, name, sizes_at(alloc, value, name)?)?;
    Ok(Some(Sizes::wrap(shape)))
}

/// The sizes of a chunk, in their turn: as many as the shape at another member has.
#[tactic(auto, unfolding(crate::specs::Asking::in_turn, crate::specs::Asking::asked))]
pub(crate) fn chunks_in_turn(
    alloc: Global,
    unknown: Option<&str>,
    name: &str,
    least: usize,
    shape: &str,
    value: &Value,
) -> Result<Option<Sizes>, MetaError>
    ensures value { IfOk result (λ o. in_turn (option_map (λ s. s.now) unknown.entry) name.now (view value.now)
        (judged_beside least (list_len_at shape.now (view value.now)) (sizes_at name.now (view value.now))) ≡ Ok o) }
    ensures rules { IfOk result (λ o. IfSome o (λ sizes. IsChunkShape sizes)) }
    ensures rank { IfOk result (λ o. IfSome o (HasRank least (list_len_at shape.now (view value.now)))) }
    ensures causes { IfErr result (λ e. e ≢ MetaError.Memory → in_turn (option_map (λ s. s.now) unknown.entry) name.now
        (view value.now) (judged_beside least (list_len_at shape.now (view value.now))
        (sizes_at name.now (view value.now))) ≡ Err e) }
{
    none_before(alloc, unknown, name)?;
    if !is_there(value, name) {
        return Ok(None);
    }
    let sizes = sizes_at(alloc, value, name)?;
    let chunks = chunks_beside(alloc, name, least, list_len_at(value, shape), sizes)?;
    Ok(Some(Sizes::wrap(chunks)))
}

/// The sizes of a chunk beside a shape of so many items.
#[tactic(auto, unfolding(crate::specs::Sizes::judged_beside))]
pub(crate) fn chunks_beside(
    alloc: Global,
    name: &str,
    least: usize,
    rank: Option<usize>,
    sizes: Option<Vec<u64>>,
) -> Result<Vec<u64>, MetaError>
    ensures value { IfOk result (λ v. named name.now (judged_beside least rank (option_map (λ v. v.items) sizes))
        ≡ Ok v.items) }
    ensures rules { IfOk result (λ v. IsChunkShape v.items) }
    ensures rank { IfOk result (λ v. HasRank least rank v.items) }
    ensures causes { IfErr result (λ e. e ≢ MetaError.Memory
        → named name.now (judged_beside least rank (option_map (λ v. v.items) sizes)) ≡ Err e) }
{
    match rank {
        Some(rank) => checked_chunks(alloc, name, rank, sizes),
        None => chunks_alone(alloc, name, least, sizes),
    }
}

#[tactic(auto, unfolding(crate::specs::Sizes::judged_alone))]
fn chunks_alone(
    alloc: Global,
    name: &str,
    least: usize,
    sizes: Option<Vec<u64>>,
) -> Result<Vec<u64>, MetaError>
    ensures value { IfOk result (λ v. named name.now (judged_alone least (option_map (λ v. v.items) sizes))
        ≡ Ok v.items) }
    ensures rules { IfOk result (λ v. IsChunkShape v.items) }
    ensures least { IfOk result (λ v. least ≤ length v.items) }
    ensures most { IfOk result (λ v. length v.items ≤ 32) }
    ensures causes { IfErr result (λ e. e ≢ MetaError.Memory
        → named name.now (judged_alone least (option_map (λ v. v.items) sizes)) ≡ Err e) }
{
    let Some(sizes) = sizes else {
        return Err(fault_of(alloc, name, Fault::Bad));
    };
    let rank = sizes.len();
    if least <= rank && rank <= 32 {
        checked_chunks(alloc, name, rank, Some(sizes))
    } else {
        Err(fault_of(alloc, name, Fault::Bad))
    }
}
