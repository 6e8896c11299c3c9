// Resizing an array.
ghost use Rattle.std.specs.Prelude.{◌≡◌, Some, true};
ghost use Rattle.chunk_forms.specs.Metadata.{with_shape};
ghost use Rattle.kv_face.specs.Store.{keys_of};
ghost use Rattle.history.specs.Arrays.{Known, known_after, form_of};
ghost use Rattle.history.specs.Commit.{are_together};
ghost use Rattle.chunk_plans.specs.Agreement.{IsState};
ghost use Rattle.state_resizes.specs.Answers.{IsResize};
ghost use Rattle.state_resizes.specs.Conditions.{IsAsked};
ghost use Rattle.state_resizes.specs.Cuts.{AreAsked, AreCut};

use crate::error::{ResizeError, answer_of, refusal_of};
use crate::filling::filled;
use crate::keys::{Asked, asked_of, begun};
use crate::making::make;
use cells::Sizes;
use chunk_forms::Form;
use chunk_plans::{State, count_cut, cut_chunks};
use kv_face::KvStore;
use std::alloc::Global;

/// Gives a stored array a new shape, in cells, and the number of its event. The store has its metadata in the written form, chunks
/// without a remaining cell are gone, and those that are cut in part are laid anew, with the fill past the shape. One that the store
/// doesn't have stays absent, and nothing is laid. All of it is one change of the store. Growing touches no chunk.
///
/// # Errors
/// The first that holds, as `ResizeError` lists them, but for `Memory`: `TooManyChunks` and `NotAtomic` where that is so, `Damaged` where
/// a chunk that is cut in part is none of the array, `StoreFailed` exactly where a call of the store failed. After each but `StoreFailed`,
/// which one event more tells, no event is new, and after each the store has what it had.
pub fn resize<K: KvStore>(
    alloc: Global,
    state: &mut State<K>,
    owner: u32,
    array: u64,
    shape: &[u64],
) -> Result<u64, ResizeError>
    requires agrees { IsState (K.seen state.old.store) state.old.log }
    requires asked { IsAsked state.old.log.events array shape.now }
    ensures { IsResize owner array shape.now (K.seen state.old.store)
        (K.seen state.new.store) state.old.log state.new.log result }
{
    let Ok(form) = state.info(array) else {
        return Err(ResizeError::Memory);
    };
    resize_form(alloc, state, owner, array, shape, &form)
}

/// The same by the array's present form.
fn resize_form<K: KvStore>(
    alloc: Global,
    state: &mut State<K>,
    owner: u32,
    array: u64,
    shape: &[u64],
    form: &Form,
) -> Result<u64, ResizeError>
    requires agrees { IsState (K.seen state.old.store) state.old.log }
    requires asked { IsAsked state.old.log.events array shape.now }
    requires form { (k : Known) → known_after state.old.log.events array ≡ Some k
        → form.now ≡ with_shape (form_of k.info.home) k.shape }
    ensures { IsResize owner array shape.now (K.seen state.old.store)
        (K.seen state.new.store) state.old.log state.new.log result }
{
    if count_cut(form.chunk_shape(), form.shape(), shape).is_none() {
        let at = state.events().len() as u64;
        return Err(ResizeError::TooManyChunks { at });
    }
    let Ok(chunks) = cut_chunks(alloc, form.chunk_shape(), form.shape(), shape) else {
        return Err(ResizeError::Memory);
    };
    resize_chunks(alloc, state, owner, array, shape, chunks.items())
}

/// The same by the chunks that are cut.
fn resize_chunks<K: KvStore>(
    alloc: Global,
    state: &mut State<K>,
    owner: u32,
    array: u64,
    shape: &[u64],
    chunks: &[Sizes],
) -> Result<u64, ResizeError>
    requires agrees { IsState (K.seen state.old.store) state.old.log }
    requires cut { AreCut state.old.log.events array shape.now chunks.now }
    ensures { IsResize owner array shape.now (K.seen state.old.store)
        (K.seen state.new.store) state.old.log state.new.log result }
{
    let Ok(new) = begun(alloc, state, array, shape) else {
        return Err(ResizeError::Memory);
    };
    let Ok(asked) = asked_of(alloc, state, new, chunks) else {
        return Err(ResizeError::Memory);
    };
    resize_asked(alloc, state, owner, chunks, asked)
}

/// The same by the changes that are asked for, where the store makes them together.
fn resize_asked<K: KvStore>(
    alloc: Global,
    state: &mut State<K>,
    owner: u32,
    chunks: &[Sizes],
    asked: Asked,
) -> Result<u64, ResizeError>
    requires agrees { IsState (K.seen state.old.store) state.old.log }
    requires cut { AreCut state.old.log.events asked.plan.array asked.plan.shape chunks.now }
    requires asked { AreAsked state.old.log.events chunks.now asked }
    ensures { IsResize owner asked.plan.array asked.plan.shape (K.seen state.old.store)
        (K.seen state.new.store) state.old.log state.new.log result }
{
    if !state.together(&asked.changes) {
        let keys = asked.changes.len() as u64;
        return Err(ResizeError::NotAtomic { keys });
    }
    resize_together(alloc, state, owner, chunks, asked)
}

/// The same by changes that the store makes together.
fn resize_together<K: KvStore>(
    alloc: Global,
    state: &mut State<K>,
    owner: u32,
    chunks: &[Sizes],
    asked: Asked,
) -> Result<u64, ResizeError>
    requires agrees { IsState (K.seen state.old.store) state.old.log }
    requires cut { AreCut state.old.log.events asked.plan.array asked.plan.shape chunks.now }
    requires asked { AreAsked state.old.log.events chunks.now asked }
    requires together { are_together ((K.seen state.old.store).prefixes) (keys_of asked.changes.items) ≡ true }
    ensures { IsResize owner asked.plan.array asked.plan.shape (K.seen state.old.store)
        (K.seen state.new.store) state.old.log state.new.log result }
{
    match filled(alloc, state, owner, chunks, asked) {
        Ok(asked) => answer_of(make(state, owner, asked)),
        Err(error) => Err(refusal_of(error)),
    }
}
