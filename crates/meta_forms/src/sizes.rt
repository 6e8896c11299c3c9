// Lists of sizes.
ghost use Rattle.std.specs.Prelude.{◌≡◌, ◌≢◌, Ok, Err, IfOk, IfErr, length, option_map};
ghost use Rattle.serde_json.specs.View.{view};
ghost use Rattle.cells.specs.Shapes.{IsShape, IsChunkShape};
ghost use Rattle.meta_forms.specs.Faults.{named};
ghost use Rattle.meta_forms.specs.Judged.{sizes_at, judged_shape, judged_chunks};
ghost use Rattle.meta_forms.specs.declared.error.MetaError.{MetaError};

use crate::error::{Fault, MetaError};
use crate::faults::fault_of;
use cells::{is_chunk_shape, is_shape};
use json_forms::u64_list;
use serde_json::Value;
use std::alloc::{AllocError, Global};

/// The whole numbers from 0 on of a member that is a list of them.
///
/// # Errors
/// An allocation failed.
pub fn sizes_at(alloc: Global, value: &Value, name: &str) -> Result<Option<Vec<u64>>, AllocError>
    ensures { IfOk result (λ o. option_map (λ v. v.items) o ≡ sizes_at name.now (view value.now)) }
{
    match value.get(name) {
        Some(member) => u64_list(alloc, member),
        None => Ok(None),
    }
}

/// The sizes of an array, as the member of this name has them.
///
/// # Errors
/// `BadMember` where they are none, and `Memory` where an allocation failed.
pub fn checked_shape(
    alloc: Global,
    name: &str,
    sizes: Option<Vec<u64>>,
) -> Result<Vec<u64>, MetaError>
    ensures value { IfOk result (λ v. named name.now (judged_shape (option_map (λ v. v.items) sizes)) ≡ Ok v.items) }
    ensures rules { IfOk result (λ v. IsShape v.items) }
    ensures causes { IfErr result (λ e. e ≢ MetaError.Memory
        → named name.now (judged_shape (option_map (λ v. v.items) sizes)) ≡ Err e) }
{
    let Some(sizes) = sizes else {
        return Err(fault_of(alloc, name, Fault::Bad));
    };
    if is_shape(sizes.as_slice()) {
        Ok(sizes)
    } else {
        Err(fault_of(alloc, name, Fault::Bad))
    }
}

/// The sizes of a chunk of an array of this rank, as the member of this name has them.
///
/// # Errors
/// `BadMember` where they are none, and `Memory` where an allocation failed.
pub fn checked_chunks(
    alloc: Global,
    name: &str,
    rank: usize,
    sizes: Option<Vec<u64>>,
) -> Result<Vec<u64>, MetaError>
    ensures value { IfOk result (λ v.
        named name.now (judged_chunks rank (option_map (λ v. v.items) sizes)) ≡ Ok v.items) }
    ensures rules { IfOk result (λ v. IsChunkShape v.items) }
    ensures rank { IfOk result (λ v. length v.items ≡ rank) }
    ensures causes { IfErr result (λ e. e ≢ MetaError.Memory
        → named name.now (judged_chunks rank (option_map (λ v. v.items) sizes)) ≡ Err e) }
{
    let Some(sizes) = sizes else {
        return Err(fault_of(alloc, name, Fault::Bad));
    };
    if sizes.len() == rank && is_chunk_shape(sizes.as_slice()) {
        Ok(sizes)
    } else {
        Err(fault_of(alloc, name, Fault::Bad))
    }
}
