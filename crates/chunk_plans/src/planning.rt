// The plan of one chunk.
ghost use Rattle.std.specs.Prelude.{◌≡◌, ◌≢◌, ◌<◌, ℕ, List, Option, Some, None, Ok, Err, IfOk, OnOk, OnErr, IsSome, IsTrue, true, false, option_map};
ghost use Rattle.chunk_forms.specs.Metadata.{chunk_shape_of, dtype_of, with_shape};
ghost use Rattle.chunk_forms.specs.Wants.{same_dtype};
ghost use Rattle.chunk_forms.specs.declared.form.Damage.{Damage as DamageOf};
ghost use Rattle.kv_face.specs.Store.{Contents};
ghost use Rattle.history.specs.Arrays.{Known, known_after, form_of, is_local, chunk_shape};
ghost use Rattle.chunk_laying.specs.Laid.{IsCovered};
ghost use Rattle.shared_state.specs.Seen.{IsRead};
ghost use Rattle.shared_state.specs.Agreement.{Opening, Agrees, IsState, KeepsAgreement};
ghost use Rattle.shared_state.specs.Fetches.{IsAnswered, IsDamagedThere, generation_in};
ghost use Rattle.shared_state.specs.Kept.{AreCellsOf};
ghost use Rattle.shared_state.specs.Looks.{IsFailedLook};
ghost use Rattle.std.specs.Option.{ForSome};
ghost use Rattle.chunk_plans.specs.Leaving.{IsLeftOf, HasNumber, AreCellsIn, AreOfForm, IsLeftReady};
ghost use Rattle.chunk_plans.specs.Under.{IsLeftNow};
ghost use Rattle.chunk_plans.specs.declared.plan.Left.TheVariants as left;
ghost use Rattle.chunk_plans.specs.Writes.{is_base, IsWrite, IsPlanOf, IsReadyWrite, IsSameButCache, chunk_of_write, may_use};

use crate::held::held_over;
use crate::leaving::{LeftOver, left_in, left_over};
use crate::plan::{Left, Planned};
use crate::reading::cells_at;
use crate::write::{ChunkWrite, Ready};
use cells::Dense;
use chunk_cache::Snapshot;
use chunk_forms::Form;
use chunk_laying::covers;
use kv_face::KvStore;
use shared_state::{FetchError, State};
use std::alloc::{AllocError, Global};

/// What a commit leaves of a chunk: prepared bytes where they may be used as they are, else the staged words over the chunk as it is,
/// which is read where not every cell in the array's shape is staged. `number` is that of the event that will put them.
///
/// # Errors
/// As for `State::fetch`: `StoreFailed`, which one event more tells, and `Damaged`, only where the chunk had to be read; `Memory`.
pub fn plan_write<'a, K: KvStore>(
    alloc: Global,
    state: &mut State<K>,
    owner: u32,
    number: u64,
    write: ChunkWrite<'a>,
) -> Result<Planned<'a>, FetchError>
    requires agrees { IsState (K.seen state.old.store) state.old.log }
    requires write { IsWrite state.old.log.events write }
    ensures array { IfOk result (λ p. p.array ≡ write.entry.array) }
    ensures chunk { IfOk result (λ p. p.chunk.now ≡ write.entry.chunk.now) }
    ensures key { IfOk result (λ p. p.key ≡ write.entry.key) }
    ensures left { IfOk result (λ p. (k : Known) → known_after state.old.log.events write.entry.array ≡ Some k
        → IsLeftOf k (chunk_of_write write.entry) p.left) }
    ensures numbered { IfOk result (λ p. HasNumber number p.left) }
    ensures plan { IfOk result (λ p. (opening : Opening) (start : Contents) (k : Known)
        → Agrees opening (K.seen state.old.store) state.old.log
        → opening.store.contents ≡ Some start → known_after state.old.log.events write.entry.array ≡ Some k
        → IsReadyWrite start state.old.log k write.entry
        → IsPlanOf start state.old.log.events number k write.entry p.left) }
    ensures same { OnOk result (IsSameButCache state.old.log state.new.log) }
    ensures read { IsRead (K.seen state.old.store) (K.seen state.new.store) }
    ensures failed { (event : ℕ) → result ≡ Err (FetchError.StoreFailed event)
        → IsFailedLook owner (chunk_of_write write.entry) (K.seen state.old.store)
        (K.seen state.new.store) state.old.log state.new.log event }
    ensures told { (K.seen state.old.store).faults < (K.seen state.new.store).faults
        → (event : ℕ) × (result ≡ Err (FetchError.StoreFailed event)) }
    ensures damaged { (name : List ℕ) (cause : DamageOf) → result ≡ Err (FetchError.Damaged name cause)
        → (state.new.log ≡ state.old.log) × IsDamagedThere (K.seen state.old.store) state.old.log
        (chunk_of_write write.entry) name cause }
    ensures read_on { (k : Known) → known_after state.old.log.events write.entry.array ≡ Some k
        → result ≢ Err FetchError.Memory → OnErr result ((may_use state.old.log k write.entry ≡ false)
        × ¬ (IsCovered k.shape (chunk_shape k.info) write.entry.chunk.now write.entry.staged.now)) }
    ensures memory { result ≡ Err FetchError.Memory → IsSameButCache state.old.log state.new.log }
    ensures kept { KeepsAgreement (K.seen state.old.store) state.old.log (K.seen state.new.store) state.new.log }
{
    if state.is_local(write.array) {
        Ok(plan_held(alloc, state, number, write)?)
    } else {
        plan_stored(alloc, state, owner, write)
    }
}

/// The plan of a local array's cells.
fn plan_held<'a, K: KvStore>(
    alloc: Global,
    state: &mut State<K>,
    number: u64,
    write: ChunkWrite<'a>,
) -> Result<Planned<'a>, AllocError>
    requires agrees { IsState (K.seen state.old.store) state.old.log }
    requires write { IsWrite state.old.log.events write }
    requires local { (k : Known) → known_after state.old.log.events write.array ≡ Some k → is_local k.info.home ≡ true }
    ensures array { IfOk result (λ p. p.array ≡ write.entry.array) }
    ensures chunk { IfOk result (λ p. p.chunk.now ≡ write.entry.chunk.now) }
    ensures key { IfOk result (λ p. p.key ≡ write.entry.key) }
    ensures left { IfOk result (λ p. (k : Known) → known_after state.old.log.events write.entry.array ≡ Some k
        → IsLeftOf k (chunk_of_write write.entry) p.left) }
    ensures numbered { IfOk result (λ p. HasNumber number p.left) }
    ensures plan { IfOk result (λ p. (opening : Opening) (start : Contents) (k : Known)
        → Agrees opening (K.seen state.old.store) state.old.log
        → opening.store.contents ≡ Some start → known_after state.old.log.events write.entry.array ≡ Some k
        → IsPlanOf start state.old.log.events number k write.entry p.left) }
    ensures same { state.new.log ≡ state.old.log }
    ensures store { state.new.store ≡ state.old.store }
{
    let Some(base) = state.kept(write.array, write.chunk)? else {
        unreachable!();
    };
    let cells = held_over(alloc, number, write.staged, &base)?;
    let ChunkWrite {
        array,
        chunk,
        key,
        ..
    } = write;
    Ok(Planned {
        array,
        chunk,
        key,
        left: Left::Held { array, cells },
    })
}

/// The plan of a stored array's chunk.
fn plan_stored<'a, K: KvStore>(
    alloc: Global,
    state: &mut State<K>,
    owner: u32,
    write: ChunkWrite<'a>,
) -> Result<Planned<'a>, FetchError>
    requires agrees { IsState (K.seen state.old.store) state.old.log }
    requires write { IsWrite state.old.log.events write }
    requires stored { (k : Known) → known_after state.old.log.events write.array ≡ Some k
        → is_local k.info.home ≡ false }
    ensures array { IfOk result (λ p. p.array ≡ write.entry.array) }
    ensures chunk { IfOk result (λ p. p.chunk.now ≡ write.entry.chunk.now) }
    ensures key { IfOk result (λ p. p.key ≡ write.entry.key) }
    ensures left { IfOk result (λ p. (k : Known) → known_after state.old.log.events write.entry.array ≡ Some k
        → IsLeftOf k (chunk_of_write write.entry) p.left) }
    ensures numbered { IfOk result (λ p. (number : ℕ) → HasNumber number p.left) }
    ensures plan { IfOk result (λ p. (opening : Opening) (start : Contents) (k : Known) (number : ℕ)
        → Agrees opening (K.seen state.old.store) state.old.log
        → opening.store.contents ≡ Some start → known_after state.old.log.events write.entry.array ≡ Some k
        → IsReadyWrite start state.old.log k write.entry
        → IsPlanOf start state.old.log.events number k write.entry p.left) }
    ensures same { OnOk result (IsSameButCache state.old.log state.new.log) }
    ensures read { IsRead (K.seen state.old.store) (K.seen state.new.store) }
    ensures failed { (event : ℕ) → result ≡ Err (FetchError.StoreFailed event)
        → IsFailedLook owner (chunk_of_write write.entry) (K.seen state.old.store)
        (K.seen state.new.store) state.old.log state.new.log event }
    ensures told { (K.seen state.old.store).faults < (K.seen state.new.store).faults
        → (event : ℕ) × (result ≡ Err (FetchError.StoreFailed event)) }
    ensures damaged { (name : List ℕ) (cause : DamageOf) → result ≡ Err (FetchError.Damaged name cause)
        → (state.new.log ≡ state.old.log) × IsDamagedThere (K.seen state.old.store) state.old.log
        (chunk_of_write write.entry) name cause }
    ensures read_on { (k : Known) → known_after state.old.log.events write.entry.array ≡ Some k
        → result ≢ Err FetchError.Memory → OnErr result ((may_use state.old.log k write.entry ≡ false)
        × ¬ (IsCovered k.shape (chunk_shape k.info) write.entry.chunk.now write.entry.staged.now)) }
    ensures memory { result ≡ Err FetchError.Memory → IsSameButCache state.old.log state.new.log }
    ensures kept { KeepsAgreement (K.seen state.old.store) state.old.log (K.seen state.new.store) state.new.log }
{
    if is_usable(state, &write) {
        let form = state.form(write.array);
        return Ok(prepared(form, write));
    }
    let form = state.info(write.array)?;
    let over = left_now(alloc, state, owner, &form, &write)?;
    Ok(planned(write, over))
}

/// What was worked out now as a plan.
fn planned<'a>(write: ChunkWrite<'a>, over: LeftOver) -> Planned<'a>
    ensures array { result.array ≡ write.entry.array }
    ensures chunk { result.chunk.now ≡ write.entry.chunk.now }
    ensures key { result.key ≡ write.entry.key }
    ensures left { result.left ≡ left.Stored over.bytes (Some over.cells) }
{
    let LeftOver { cells, bytes } = over;
    Planned {
        array: write.array,
        chunk: write.chunk,
        key: write.key,
        left: Left::Stored {
            bytes,
            cells: Some(cells),
        },
    }
}

/// Prepared bytes as a plan.
fn prepared<'a>(form: &Form, write: ChunkWrite<'a>) -> Planned<'a>
    requires { IsSome write.ready }
    ensures array { result.array ≡ write.entry.array }
    ensures chunk { result.chunk.now ≡ write.entry.chunk.now }
    ensures key { result.key ≡ write.entry.key }
    ensures left { ForSome write.entry.ready (λ r. IsLeftReady form.now r result.left) }
{
    let ChunkWrite {
        array,
        chunk,
        key,
        ready,
        ..
    } = write;
    let Some(ready) = ready else {
        unreachable!();
    };
    Planned {
        array,
        chunk,
        key,
        left: left_of(form, ready),
    }
}

/// What was prepared, with its cells where they are of the form.
fn left_of(form: &Form, ready: Ready) -> Left
    ensures { IsLeftReady form.now ready result }
{
    let Ready { bytes, cells, .. } = ready;
    if !is_of_form(form, &cells) {
        return Left::Stored { bytes, cells: None };
    }
    Left::Stored {
        bytes,
        cells: Some(cells),
    }
}

/// Whether cells have the dtype and the chunk shape of a form.
fn is_of_form(form: &Form, cells: &Dense) -> bool
    ensures { IsTrue result → AreOfForm form.now cells.now }
{
    if !has_dtype(form, cells) {
        return false;
    }
    has_shape(form, cells)
}

fn has_dtype(form: &Form, cells: &Dense) -> bool
    ensures { result ≡ same_dtype cells.now.dtype (dtype_of form.now) }
{
    cells.dtype().name() == form.dtype().name()
}

fn has_shape(form: &Form, cells: &Dense) -> bool
    ensures { IsTrue result → cells.now.shape ≡ chunk_shape_of form.now }
{
    cells.shape() == form.chunk_shape()
}

/// Whether this is the generation of the chunk of a write. Where none is given, it is.
fn is_base<K: KvStore>(state: &State<K>, write: &ChunkWrite<'_>, generation: Option<u64>) -> bool
    requires agrees { IsState (K.seen state.now.store) state.now.log }
    requires write { IsWrite state.now.log.events write.now }
    ensures { (k : Known) → known_after state.now.log.events write.now.array ≡ Some k
        → result ≡ is_base (generation_in state.now.log k write.now.key) generation }
{
    match generation {
        Some(generation) => generation == state.generation(write.key.items()),
        None => true,
    }
}

/// Whether prepared bytes may be used as they are.
fn is_usable<K: KvStore>(state: &State<K>, write: &ChunkWrite<'_>) -> bool
    requires agrees { IsState (K.seen state.now.store) state.now.log }
    requires write { IsWrite state.now.log.events write.now }
    ensures { (k : Known) → known_after state.now.log.events write.now.array ≡ Some k
        → result ≡ may_use state.now.log k write.now }
{
    let Some(ready) = &write.ready else {
        return false;
    };
    if !is_base(state, write, ready.generation) {
        return false;
    }
    state.resized(write.array) == ready.resized
}

/// The staged words over the chunk as it is, which is read where not every cell in the array's shape is staged.
fn left_now<K: KvStore>(
    alloc: Global,
    state: &mut State<K>,
    owner: u32,
    form: &Form,
    write: &ChunkWrite<'_>,
) -> Result<LeftOver, FetchError>
    requires agrees { IsState (K.seen state.old.store) state.old.log }
    requires write { IsWrite state.old.log.events write.now }
    requires form { (k : Known) → known_after state.old.log.events write.now.array ≡ Some k
        → (is_local k.info.home ≡ false) × (form.now ≡ with_shape (form_of k.info.home) k.shape) }
    ensures cells { IfOk result (λ l. AreOfForm form.now l.cells) }
    ensures plan { IfOk result (λ l. (opening : Opening) (start : Contents) (k : Known)
        → Agrees opening (K.seen state.old.store) state.old.log
        → opening.store.contents ≡ Some start → known_after state.old.log.events write.now.array ≡ Some k
        → IsLeftNow start state.old.log.events k (chunk_of_write write.now) write.now.staged.now l.cells l.bytes) }
    ensures same { OnOk result (IsSameButCache state.old.log state.new.log) }
    ensures read { IsRead (K.seen state.old.store) (K.seen state.new.store) }
    ensures failed { (event : ℕ) → result ≡ Err (FetchError.StoreFailed event)
        → IsFailedLook owner (chunk_of_write write.now) (K.seen state.old.store)
        (K.seen state.new.store) state.old.log state.new.log event }
    ensures told { (K.seen state.old.store).faults < (K.seen state.new.store).faults
        → (event : ℕ) × (result ≡ Err (FetchError.StoreFailed event)) }
    ensures damaged { (name : List ℕ) (cause : DamageOf) → result ≡ Err (FetchError.Damaged name cause)
        → (state.new.log ≡ state.old.log) × IsDamagedThere (K.seen state.old.store) state.old.log
        (chunk_of_write write.now) name cause }
    ensures read_on { (k : Known) → known_after state.old.log.events write.now.array ≡ Some k
        → result ≢ Err FetchError.Memory → OnErr result
        (¬ (IsCovered k.shape (chunk_shape k.info) write.now.chunk.now write.now.staged.now)) }
    ensures memory { result ≡ Err FetchError.Memory → IsSameButCache state.old.log state.new.log }
    ensures kept { KeepsAgreement (K.seen state.old.store) state.old.log (K.seen state.new.store) state.new.log }
{
    if covers(form.shape(), form.chunk_shape(), write.chunk, write.staged) {
        return Ok(left_over(alloc, form, write.chunk, write.staged, None)?);
    }
    read_over(alloc, state, owner, form, write)
}

/// The same over the chunk that is read.
fn read_over<K: KvStore>(
    alloc: Global,
    state: &mut State<K>,
    owner: u32,
    form: &Form,
    write: &ChunkWrite<'_>,
) -> Result<LeftOver, FetchError>
    requires agrees { IsState (K.seen state.old.store) state.old.log }
    requires write { IsWrite state.old.log.events write.now }
    requires form { (k : Known) → known_after state.old.log.events write.now.array ≡ Some k
        → (is_local k.info.home ≡ false) × (form.now ≡ with_shape (form_of k.info.home) k.shape) }
    ensures cells { IfOk result (λ l. AreOfForm form.now l.cells) }
    ensures plan { IfOk result (λ l. (opening : Opening) (start : Contents) (k : Known)
        → Agrees opening (K.seen state.old.store) state.old.log
        → opening.store.contents ≡ Some start → known_after state.old.log.events write.now.array ≡ Some k
        → IsLeftNow start state.old.log.events k (chunk_of_write write.now) write.now.staged.now l.cells l.bytes) }
    ensures same { OnOk result (IsSameButCache state.old.log state.new.log) }
    ensures read { IsRead (K.seen state.old.store) (K.seen state.new.store) }
    ensures failed { (event : ℕ) → result ≡ Err (FetchError.StoreFailed event)
        → IsFailedLook owner (chunk_of_write write.now) (K.seen state.old.store)
        (K.seen state.new.store) state.old.log state.new.log event }
    ensures told { (K.seen state.old.store).faults < (K.seen state.new.store).faults
        → (event : ℕ) × (result ≡ Err (FetchError.StoreFailed event)) }
    ensures damaged { (name : List ℕ) (cause : DamageOf) → result ≡ Err (FetchError.Damaged name cause)
        → (state.new.log ≡ state.old.log) × IsDamagedThere (K.seen state.old.store) state.old.log
        (chunk_of_write write.now) name cause }
    ensures memory { result ≡ Err FetchError.Memory → IsSameButCache state.old.log state.new.log }
    ensures kept { KeepsAgreement (K.seen state.old.store) state.old.log (K.seen state.new.store) state.new.log }
{
    let base = cells_at(alloc, state, owner, write)?;
    Ok(left_in(alloc, form, write.chunk, write.staged, base)?)
}
