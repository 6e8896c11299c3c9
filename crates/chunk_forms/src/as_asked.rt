// The form of an array that is made as it is asked.
ghost use Rattle.std.specs.Prelude.{◌≡◌, ◌≢◌, None, Ok, Err, IfOk, IfErr};
ghost use Rattle.chunk_forms.specs.Made.{chunks_made, zarr_made, n5_made, zarr3_made, form_made};
ghost use Rattle.chunk_forms.specs.Members.{member_name};
ghost use Rattle.chunk_forms.specs.Metadata.{shape_of};
ghost use Rattle.chunk_forms.specs.Wants.{mismatch_of};
ghost use Rattle.chunk_forms.specs.declared.form.Want.TheVariants as asked;
ghost use Rattle.chunk_forms.specs.declared.member.Member.{Member};
ghost use Rattle.chunk_forms.specs.declared.member.MadeError.TheVariants as error;

use crate::form::{Form, Want};
use crate::making::{default_chunks, is_small};
use crate::member::{MadeError, Member};
use n5_blocks::{N5Meta, N5Want};
use std::alloc::Global;
use zarr_chunks::{Dtype, Order, Sizes, ZarrMeta, ZarrWant};
use zarr3_chunks::{Zarr3Meta, Zarr3Want};

/// The form of a new array: what is asked, and where nothing is asked a chunk of the whole array. In Zarr the lowest byte
/// stands first by default, with C order, no fill and "." in keys in version 2, and a fill of 0 and "/" in version 3.
///
/// # Errors
/// `Undetermined` with the first of the shape, the dtype and the chunks that is neither asked nor has a default: a chunk of
/// the whole array has none where it has more than 2^24 cells, each size 0 taken as 1. `Memory` where an allocation failed.
pub fn made(alloc: Global, want: &Want) -> Result<Form, MadeError>
    ensures value { IfOk result (λ form. form_made want.now ≡ Ok form) }
    ensures asked { IfOk result (λ form. mismatch_of want.now form (shape_of form) ≡ None) }
    ensures causes { IfErr result (λ e. e ≢ error.Memory → (member : Member) × (e ≡ error.Undetermined member)
        × (form_made want.now ≡ Err (member_name member))) }
{
    match want {
        Want::Zarr { want } => zarr_made(alloc, want),
        Want::N5 { want } => n5_made(alloc, want),
        Want::Zarr3 { want } => zarr3_made(alloc, want),
    }
}

fn zarr_made(alloc: Global, want: &ZarrWant) -> Result<Form, MadeError>
    ensures value { IfOk result (λ form. zarr_made want.now want.now.shape want.now.dtype ≡ Ok form) }
    ensures asked { IfOk result (λ form. mismatch_of (asked.Zarr want.now) form (shape_of form) ≡ None) }
    ensures causes { IfErr result (λ e. e ≢ error.Memory → (member : Member) × (e ≡ error.Undetermined member)
        × (zarr_made want.now want.now.shape want.now.dtype ≡ Err (member_name member))) }
{
    let Some(shape) = &want.shape else {
        return undetermined(Member::Shape);
    };
    let Some(dtype) = want.dtype else {
        return undetermined(Member::Dtype);
    };
    let chunks = chunks_made(alloc, &want.chunks, shape.items(), Member::Chunks)?;
    let shape = Vec::from_slice(alloc, shape.items())?;
    Ok(Form::Zarr {
        meta: ZarrMeta {
            shape: Sizes::wrap(shape),
            chunks: Sizes::wrap(chunks),
            dtype,
            big: want.big.unwrap_or(false),
            fill: want.fill.unwrap_or(None),
            order: want.order.unwrap_or(Order::C),
            slash: want.slash.unwrap_or(false),
        },
    })
}

fn n5_made(alloc: Global, want: &N5Want) -> Result<Form, MadeError>
    ensures value { IfOk result (λ form. n5_made want.now want.now.dimensions want.now.dtype ≡ Ok form) }
    ensures asked { IfOk result (λ form. mismatch_of (asked.N5 want.now) form (shape_of form) ≡ None) }
    ensures causes { IfErr result (λ e. e ≢ error.Memory → (member : Member) × (e ≡ error.Undetermined member)
        × (n5_made want.now want.now.dimensions want.now.dtype ≡ Err (member_name member))) }
{
    let Some(dimensions) = &want.dimensions else {
        return undetermined(Member::Dimensions);
    };
    let Some(dtype) = want.dtype else {
        return undetermined(Member::Dtype);
    };
    let block = chunks_made(alloc, &want.block, dimensions.items(), Member::BlockSize)?;
    let dimensions = Vec::from_slice(alloc, dimensions.items())?;
    Ok(Form::N5 {
        meta: N5Meta {
            dimensions: Sizes::wrap(dimensions),
            block: Sizes::wrap(block),
            dtype,
        },
    })
}

fn zarr3_made(alloc: Global, want: &Zarr3Want) -> Result<Form, MadeError>
    ensures value { IfOk result (λ form. zarr3_made want.now want.now.shape want.now.dtype ≡ Ok form) }
    ensures asked { IfOk result (λ form. mismatch_of (asked.Zarr3 want.now) form (shape_of form) ≡ None) }
    ensures causes { IfErr result (λ e. e ≢ error.Memory → (member : Member) × (e ≡ error.Undetermined member)
        × (zarr3_made want.now want.now.shape want.now.dtype ≡ Err (member_name member))) }
{
    let Some(shape) = &want.shape else {
        return undetermined(Member::Shape);
    };
    let Some(dtype) = want.dtype else {
        return undetermined(Member::Dtype);
    };
    let chunks = chunks_made(alloc, &want.chunks, shape.items(), Member::ChunkGrid)?;
    let shape = Vec::from_slice(alloc, shape.items())?;
    Ok(Form::Zarr3 {
        meta: Zarr3Meta {
            shape: Sizes::wrap(shape),
            chunks: Sizes::wrap(chunks),
            dtype,
            big: want.big.unwrap_or(false),
            fill: want.fill.unwrap_or(0),
            dot: want.dot.unwrap_or(false),
        },
    })
}

fn undetermined(member: Member) -> Result<Form, MadeError>
    ensures { result ≡ Err (error.Undetermined member) }
{
    Err(MadeError::Undetermined { member })
}

// The chunks that are asked, else those of the whole array.
fn chunks_made(
    alloc: Global,
    asked: &Option<Sizes>,
    shape: &[u64],
    member: Member,
) -> Result<Vec<u64>, MadeError>
    ensures value { IfOk result (λ v. chunks_made (member_name member) asked.now shape.now ≡ Ok v.items) }
    ensures causes { IfErr result (λ e. e ≢ error.Memory → (e ≡ error.Undetermined member)
        × (chunks_made (member_name member) asked.now shape.now ≡ Err (member_name member))) }
{
    match asked {
        Some(chunks) => Ok(Vec::from_slice(alloc, chunks.items())?),
        None => whole(alloc, shape, member),
    }
}

fn whole(alloc: Global, shape: &[u64], member: Member) -> Result<Vec<u64>, MadeError>
    ensures value { IfOk result (λ v. chunks_made (member_name member) None shape.now ≡ Ok v.items) }
    ensures causes { IfErr result (λ e. e ≢ error.Memory → (e ≡ error.Undetermined member)
        × (chunks_made (member_name member) None shape.now ≡ Err (member_name member))) }
{
    let chunks = default_chunks(alloc, shape)?;
    if is_small(chunks.as_slice()) {
        Ok(chunks)
    } else {
        Err(MadeError::Undetermined { member })
    }
}
