// Chunks that a read has looked at, as cells.
ghost use Rattle.std.specs.Prelude.{◌≡◌, ◌≢◌, ℕ, List, Some, Err, IfOk, IfErr, false};
ghost use Rattle.cells.specs.Elements.{word_at};
ghost use Rattle.cells.specs.Numbers.{IsWord};
ghost use Rattle.cells.specs.Places.{IsInside};
ghost use Rattle.chunk_forms.specs.Metadata as meta;
ghost use Rattle.chunk_forms.specs.Words.{stored_word, stored_fault};
ghost use Rattle.chunk_forms.specs.declared.form.Damage.{Damage as DamageOf};
ghost use Rattle.chunk_forms.specs.declared.form.FormError.TheVariants as form_error;
ghost use Rattle.history.specs.Chunks.{Chunk};
ghost use Rattle.history.specs.Damaged.{IsDamaged};
ghost use Rattle.history.specs.History.{History};
ghost use Rattle.kv_face.specs.Store.{Contents};
ghost use Rattle.shared_state.specs.Agreement.{Opening};
ghost use Rattle.transaction_cells.specs.declared.view_cells.Piece.{Piece as PieceOf};
ghost use Rattle.chunk_fetches.specs.Decoding.{IsDecodeError, HasDamagedAmong};
ghost use Rattle.chunk_fetches.specs.Looking.{IsLookedAt, AreLookedAt, IsFresh, AreFresh};
ghost use Rattle.chunk_fetches.specs.declared.error.ReadError.TheVariants as read_error;

use crate::error::ReadError;
use crate::gate::Gate;
use crate::looked::{Fresh, Looked};
use bytes::Bytes;
use chunk_cache::{Snapshot, as_snapshot};
use chunk_forms::{Form, FormError};
use shared_state::{Look, decode};
use std::alloc::Global;
use std::sync::Wait;

/// A chunk that was looked at, as cells: as it was kept, or decoded.
///
/// # Errors
/// `Damaged` where its bytes are no chunk of the array; `Memory`.
pub(crate) fn fresh_of(alloc: Global, l: Looked) -> Result<Fresh, ReadError>
    requires { (opening : Opening) × (events : History) × (c : Chunk) × IsLookedAt opening events c l }
    ensures fresh { IfOk result (λ f. (opening : Opening) (events : History) (c : Chunk)
        → IsLookedAt opening events c l → IsFresh opening events c f) }
    ensures damaged { (key : List ℕ) (cause : DamageOf) → result ≡ Err (read_error.Damaged key cause)
        → (opening : Opening) (events : History) (c : Chunk) (start : Contents) → IsLookedAt opening events c l
        → opening.store.contents ≡ Some start → IsDamaged start events c key cause }
    ensures err { IfErr result IsDecodeError }
{
    let Looked { key, look } = l;
    match look {
        Look::Kept { snapshot, bounds } => Ok(Fresh {
            key,
            snapshot,
            bounds,
            is_new: false,
        }),
        Look::Bytes {
            generation,
            form,
            bytes,
            bounds,
        } => match snapshot_of(alloc, generation, &form, &bytes) {
            Ok(snapshot) => Ok(Fresh {
                key,
                snapshot,
                bounds,
                is_new: true,
            }),
            Err(FormError::Damaged { cause }) => Err(ReadError::Damaged { key, cause }),
            Err(FormError::Memory) => Err(ReadError::Memory),
        },
    }
}

// The cells that stored bytes are.
fn snapshot_of(
    alloc: Global,
    generation: u64,
    form: &Form,
    bytes: &Option<Bytes>,
) -> Result<Snapshot, FormError>
    requires stored { meta.is_local form.now ≡ false }
    requires fill { IsWord (meta.dtype_of form.now) (meta.fill_of form.now) }
    ensures generation { IfOk result (λ s. s.generation ≡ generation) }
    ensures dtype { IfOk result (λ s. s.cells.dtype ≡ meta.dtype_of form.now) }
    ensures shape { IfOk result (λ s. s.cells.shape ≡ meta.chunk_shape_of form.now) }
    ensures words { IfOk result (λ s. (index : List ℕ) → IsInside (meta.chunk_shape_of form.now) index
        → stored_word form.now (meta.fill_of form.now) bytes.now index ≡ Some (word_at s.cells index)) }
    ensures causes { IfErr result (λ e. e ≢ form_error.Memory → (cause : DamageOf) × (e ≡ form_error.Damaged cause)
        × (stored_fault form.now bytes.now ≡ Some cause)) }
{
    let cells = decode(alloc, form, bytes)?;
    match as_snapshot(alloc, generation, cells) {
        Ok(snapshot) => Ok(snapshot),
        Err(_) => Err(FormError::Memory),
    }
}

/// The chunks that were looked at, as cells, in order.
///
/// # Errors
/// `Damaged` for the first chunk whose bytes are none of its array; `Memory`.
pub(crate) fn decode_all<R: Wait, G: Gate>(
    alloc: Global,
    rt: &R,
    gate: &G,
    session: u32,
    looks: Vec<Looked>,
) -> Result<Vec<Fresh>, ReadError>
    requires { (opening : Opening) × (events : History) × (pieces : List PieceOf)
        × AreLookedAt opening events pieces looks.items }
    ensures fresh { IfOk result (λ fresh. (opening : Opening) (events : History) (pieces : List PieceOf)
        → AreLookedAt opening events pieces looks.items → AreFresh opening events pieces fresh.items) }
    ensures damaged { (key : List ℕ) (cause : DamageOf) → result ≡ Err (read_error.Damaged key cause)
        → (opening : Opening) (events : History) (pieces : List PieceOf) → AreLookedAt opening events pieces looks.items
        → HasDamagedAmong opening events pieces key cause }
    ensures err { IfErr result IsDecodeError }
{
    let mut fresh = Vec::new(alloc);
    for l in looks {
        fresh.push(opened(alloc, rt, gate, session, l)?)?;
    }
    Ok(fresh)
}

// The same of one, behind the gate.
fn opened<R: Wait, G: Gate>(
    alloc: Global,
    rt: &R,
    gate: &G,
    session: u32,
    l: Looked,
) -> Result<Fresh, ReadError>
    requires { (opening : Opening) × (events : History) × (c : Chunk) × IsLookedAt opening events c l }
    ensures fresh { IfOk result (λ f. (opening : Opening) (events : History) (c : Chunk)
        → IsLookedAt opening events c l → IsFresh opening events c f) }
    ensures damaged { (key : List ℕ) (cause : DamageOf) → result ≡ Err (read_error.Damaged key cause)
        → (opening : Opening) (events : History) (c : Chunk) (start : Contents) → IsLookedAt opening events c l
        → opening.store.contents ≡ Some start → IsDamaged start events c key cause }
    ensures err { IfErr result IsDecodeError }
{
    if is_stored(&l) {
        gate.coding(rt, session);
    }
    fresh_of(alloc, l)
}

fn is_stored(l: &Looked) -> bool {
    match l.look {
        Look::Kept { .. } => false,
        Look::Bytes { .. } => true,
    }
}
