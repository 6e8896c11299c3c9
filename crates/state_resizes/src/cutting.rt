// What a new shape leaves of one chunk.
ghost use Rattle.std.specs.Prelude.{◌≡◌, ◌↔◌, ◌<◌, ℕ, List, [], Some, None, Err, IfOk, IfErr, IsTrue, OnOk, true, false};
ghost use Rattle.cells.specs.Numbers.{IsWord};
ghost use Rattle.chunk_forms.specs.declared.form.Damage.{Damage};
ghost use Rattle.chunk_forms.specs.Metadata.{is_local, shape_of, chunk_shape_of, dtype_of, fill_of};
ghost use Rattle.history.specs.Arrays.{Known, known_after, chunk_shape};
ghost use Rattle.history.specs.Chunks.{chunk_key};
ghost use Rattle.history.specs.Resizes.{is_cut, reaches_into};
ghost use Rattle.chunk_plans.specs.Laid.{IsChunkOf};
ghost use Rattle.chunk_plans.specs.Left.{IsLeft};
ghost use Rattle.chunk_plans.specs.Writes.{IsSameButCache};
ghost use Rattle.chunk_plans.specs.Agreement.{IsState, KeepsAgreement};
ghost use Rattle.chunk_plans.specs.Log.{Log};
ghost use Rattle.chunk_plans.specs.Seen.{StoreSeen, IsRead};
ghost use Rattle.chunk_plans.specs.declared.Bounds.{Bounds as BoundsOf};
ghost use Rattle.chunk_plans.specs.declared.Look.TheVariants as look_of;
ghost use Rattle.state_resizes.specs.Cuts.{IsBegun, IsCutLook, IsLeftBy, MayCut};
ghost use Rattle.state_resizes.specs.Refusals.{IsUnfilled, IsUnlaid};

use bytes::Bytes;
use cells::{Dense, List, Name};
use chunk_forms::{Form, FormError, encode_form};
use chunk_plans::{FetchError, Look, NewShape, State, cut, decode, is_gone};
use kv_face::KvStore;
use std::alloc::{AllocError, Global};

/// The bytes of a chunk by its array's new shape: its words, and past the shape the fill. None where every cell has the fill.
fn bytes_of_cut(
    alloc: Global,
    form: &Form,
    chunk: &[u64],
    base: &Dense,
) -> Result<Option<List<u8>>, AllocError>
    requires stored { is_local form.now ≡ false }
    requires fill { IsWord (dtype_of form.now) (fill_of form.now) }
    requires chunk { IsChunkOf (shape_of form.now) (chunk_shape_of form.now) chunk.now }
    requires reached { reaches_into (chunk_shape_of form.now) (shape_of form.now) chunk.now ≡ true }
    requires dtype { base.now.dtype ≡ dtype_of form.now }
    requires shape { base.now.shape ≡ chunk_shape_of form.now }
    ensures { IfOk result (λ bytes. IsLeft form.now chunk.now [] (Some base.now) bytes) }
{
    let cells = cut(alloc, form.shape(), chunk, form.fill(), base)?;
    // A look at the cells, by which it is known how many there are.
    let _ = cells.count();
    encode_form(alloc, form, chunk, form.fill(), &cells)
}

// The same, with want of memory as the one refusal.
fn relaid(
    alloc: Global,
    form: &Form,
    chunk: &[u64],
    base: &Dense,
) -> Result<Option<List<u8>>, FetchError>
    requires may { MayCut form.now chunk.now }
    requires reached { reaches_into (chunk_shape_of form.now) (shape_of form.now) chunk.now ≡ true }
    requires dtype { base.now.dtype ≡ dtype_of form.now }
    requires shape { base.now.shape ≡ chunk_shape_of form.now }
    ensures left { IfOk result (λ bytes. IsLeft form.now chunk.now [] (Some base.now) bytes) }
    ensures err { IfErr result (λ e. e ≡ FetchError.Memory) }
{
    match bytes_of_cut(alloc, form, chunk, base) {
        Ok(bytes) => Ok(bytes),
        Err(_) => Err(FetchError::Memory),
    }
}

// Whether the store doesn't have a chunk.
fn is_absent(bytes: &Option<Bytes>) -> bool
    ensures { IsTrue result ↔ (bytes.now ≡ None) }
{
    bytes.is_none()
}

/// What a new shape leaves of a chunk, by what the store has under its key. One that isn't there holds the fill in every cell, before and
/// behind: it stays absent, and nothing is laid. Every other one is decoded and laid, also where all its cells have the fill.
///
/// # Errors
/// `Damaged` where the bytes are no chunk of the array; `Memory`.
fn left_of_bytes(
    alloc: Global,
    new: &NewShape,
    chunk: &[u64],
    key: Name,
    form: &Form,
    bytes: &Option<Bytes>,
) -> Result<Option<List<u8>>, FetchError>
    requires { (store : StoreSeen) × (log : Log) × (generation : ℕ) × (bounds : BoundsOf)
        × IsCutLook store log new.now chunk.now key (look_of.Bytes generation form.now bytes.now bounds) }
    ensures left { IfOk result (λ left. (store : StoreSeen) (log : Log) (generation : ℕ) (bounds : BoundsOf)
        → IsCutLook store log new.now chunk.now key (look_of.Bytes generation form.now bytes.now bounds)
        → IsLeftBy store log new.now.array new.now.shape chunk.now left) }
    ensures refused { IfErr result (λ e. (store : StoreSeen) (log : Log) (generation : ℕ) (bounds : BoundsOf)
        → IsCutLook store log new.now chunk.now key (look_of.Bytes generation form.now bytes.now bounds)
        → IsUnlaid store log new.now e) }
{
    if is_absent(bytes) {
        return Ok(None);
    }
    match decode(alloc, form, bytes) {
        Ok(cells) => relaid(alloc, &new.form, chunk, &cells),
        Err(e) => Err(undecoded(key, e)),
    }
}

// Why bytes under a key couldn't be decoded.
fn undecoded(key: Name, e: FormError) -> FetchError
    ensures damaged { (cause : Damage) → e ≡ FormError.Damaged cause → result ≡ FetchError.Damaged key cause }
    ensures memory { e ≡ FormError.Memory → result ≡ FetchError.Memory }
{
    match e {
        FormError::Damaged { cause } => FetchError::Damaged { key, cause },
        FormError::Memory => FetchError::Memory,
    }
}

/// The same by a look at it: a chunk that was kept is laid.
///
/// # Errors
/// `Damaged` where its bytes are no chunk of the array; `Memory`.
fn left_of_look(
    alloc: Global,
    new: &NewShape,
    chunk: &[u64],
    key: Name,
    look: Look,
) -> Result<Option<List<u8>>, FetchError>
    requires { (store : StoreSeen) × (log : Log) × IsCutLook store log new.now chunk.now key look }
    ensures left { IfOk result (λ left. (store : StoreSeen) (log : Log) → IsCutLook store log new.now chunk.now key look
        → IsLeftBy store log new.now.array new.now.shape chunk.now left) }
    ensures refused { IfErr result (λ e. (store : StoreSeen) (log : Log)
        → IsCutLook store log new.now chunk.now key look
        → IsUnlaid store log new.now e) }
{
    match look {
        Look::Kept {
            snapshot,
            bounds: _,
        } => relaid(alloc, &new.form, chunk, snapshot.cells()),
        Look::Bytes {
            generation: _,
            form,
            bytes,
            bounds: _,
        } => left_of_bytes(alloc, new, chunk, key, &form, &bytes),
    }
}

/// The same over the chunk as it is, which is looked at.
fn read_cut<K: KvStore>(
    alloc: Global,
    state: &mut State<K>,
    owner: u32,
    new: &NewShape,
    chunk: &[u64],
    key: Name,
) -> Result<Option<List<u8>>, FetchError>
    requires agrees { IsState (K.seen state.old.store) state.old.log }
    requires begun { IsBegun state.old.log.events new.now }
    requires cut { (k : Known) → known_after state.old.log.events new.now.array ≡ Some k
        → is_cut (chunk_shape k.info) k.shape new.now.shape chunk.now ≡ true }
    requires reached { reaches_into (chunk_shape_of new.now.form) (shape_of new.now.form) chunk.now ≡ true }
    requires named { (k : Known) → known_after state.old.log.events new.now.array ≡ Some k
        → key ≡ chunk_key k chunk.now }
    ensures left { IfOk result (IsLeftBy (K.seen state.old.store) state.old.log new.now.array new.now.shape chunk.now) }
    ensures same { OnOk result (IsSameButCache state.old.log state.new.log) }
    ensures read { IsRead (K.seen state.old.store) (K.seen state.new.store) }
    ensures told { (K.seen state.old.store).faults < (K.seen state.new.store).faults
        → (event : ℕ) × (result ≡ Err (FetchError.StoreFailed event)) }
    ensures refused { IfErr result (IsUnfilled owner new.now (K.seen state.old.store)
        (K.seen state.new.store) state.old.log state.new.log) }
    ensures kept { KeepsAgreement (K.seen state.old.store) state.old.log (K.seen state.new.store) state.new.log }
{
    match state.look(owner, new.array, chunk) {
        Ok(look) => left_of_look(alloc, new, chunk, key, look),
        Err(error) => Err(error),
    }
}

/// What a new shape leaves of a chunk that it cuts: nothing where no cell of it is left, else its bytes by the new shape, for which the
/// chunk is looked at. No memory is taken for the cells of one that the store doesn't have.
///
/// # Errors
/// As for `State::fetch`, and only of a chunk that is cut in part.
pub(crate) fn left_of_cut<K: KvStore>(
    alloc: Global,
    state: &mut State<K>,
    owner: u32,
    new: &NewShape,
    chunk: &[u64],
) -> Result<Option<List<u8>>, FetchError>
    requires agrees { IsState (K.seen state.old.store) state.old.log }
    requires begun { IsBegun state.old.log.events new.now }
    requires cut { (k : Known) → known_after state.old.log.events new.now.array ≡ Some k
        → is_cut (chunk_shape k.info) k.shape new.now.shape chunk.now ≡ true }
    ensures left { IfOk result (IsLeftBy (K.seen state.old.store) state.old.log new.now.array new.now.shape chunk.now) }
    ensures same { OnOk result (IsSameButCache state.old.log state.new.log) }
    ensures read { IsRead (K.seen state.old.store) (K.seen state.new.store) }
    ensures told { (K.seen state.old.store).faults < (K.seen state.new.store).faults
        → (event : ℕ) × (result ≡ Err (FetchError.StoreFailed event)) }
    ensures refused { IfErr result (IsUnfilled owner new.now (K.seen state.old.store)
        (K.seen state.new.store) state.old.log state.new.log) }
    ensures kept { KeepsAgreement (K.seen state.old.store) state.old.log (K.seen state.new.store) state.new.log }
{
    if is_gone(new.form.chunk_shape(), new.form.shape(), chunk) {
        return Ok(None);
    }
    match state.key(new.array, chunk) {
        Ok(key) => read_cut(alloc, state, owner, new, chunk, key),
        Err(_) => Err(FetchError::Memory),
    }
}
