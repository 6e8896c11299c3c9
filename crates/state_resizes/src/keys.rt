// What a resize asks of the store: a change for each key, before it's known what is left of each chunk.
ghost use Rattle.std.specs.Prelude.{◌≡◌, ◌++◌, ◌∷◌, [], ℕ, List, None, Some, IfOk, OnOk, map};
ghost use Rattle.chunk_forms.specs.Metadata.{with_shape, metadata_text};
ghost use Rattle.history.specs.Arrays.{Known, known_after, form_of};
ghost use Rattle.history.specs.Chunks.{chunk_key, metadata_key};
ghost use Rattle.chunk_plans.specs.Agreement.{IsState};
ghost use Rattle.chunk_plans.specs.Fetches.{IsChunkOf};
ghost use Rattle.state_resizes.specs.Cuts.{AreAsked, AreCut, IsBegun};

use crate::reshaped::reshaped;
use cells::{Name, Sizes, copy_name, copy_sizes};
use chunk_forms::Form;
use chunk_plans::{NewShape, State, metadata_change};
use kv_face::{Change, KvStore};
use std::alloc::{AllocError, Global};

/// A new shape with the keys of the chunks that it cuts, and the changes of the store: first that of the metadata.
#[derive(Drop)]
pub(crate) struct Asked {
    pub(crate) plan: NewShape,
    pub(crate) changes: Vec<Change>,
}

/// How an array's chunks are stored once it has another shape.
fn form_by<K: KvStore>(
    alloc: Global,
    state: &State<K>,
    array: u64,
    shape: &[u64],
) -> Result<Form, AllocError>
    requires agrees { IsState (K.seen state.now.store) state.now.log }
    requires cut { (chunks : List (List ℕ)) × AreCut state.now.log.events array shape.now chunks }
    ensures { IfOk result (λ form. (k : Known) → known_after state.now.log.events array ≡ Some k
        → form ≡ with_shape (form_of k.info.home) shape.now) }
{
    let sizes = copy_sizes(alloc, shape)?;
    let form = state.info(array)?;
    Ok(reshaped(form, sizes))
}

/// A new shape, before its keys are known.
pub(crate) fn begun<K: KvStore>(
    alloc: Global,
    state: &State<K>,
    array: u64,
    shape: &[u64],
) -> Result<NewShape, AllocError>
    requires agrees { IsState (K.seen state.now.store) state.now.log }
    requires cut { (chunks : List (List ℕ)) × AreCut state.now.log.events array shape.now chunks }
    ensures begun { IfOk result (IsBegun state.now.log.events) }
    ensures array { IfOk result (λ new. new.array ≡ array) }
    ensures shape { IfOk result (λ new. new.shape ≡ shape.now) }
    ensures keys { IfOk result (λ new. new.keys.items ≡ []) }
{
    let form = form_by(alloc, state, array, shape)?;
    let mount = state.mount_name(array)?;
    let shape = copy_sizes(alloc, shape)?;
    Ok(NewShape {
        mount,
        array,
        shape,
        form,
        keys: Vec::new(alloc),
    })
}

/// A new shape with the change of its metadata.
fn with_metadata<K: KvStore>(
    alloc: Global,
    state: &State<K>,
    new: NewShape,
) -> Result<Asked, AllocError>
    requires begun { IsBegun state.now.log.events new }
    ensures plan { IfOk result (λ asked. asked.plan ≡ new) }
    ensures changes { IfOk result (λ asked. (k : Known) (key : List ℕ)
        → known_after state.now.log.events new.array ≡ Some k → metadata_key k ≡ Some key
        → asked.changes.items ≡ record { key = key; bytes = Some (metadata_text new.form) } ∷ []) }
{
    let key = state.metadata_key(new.array)?;
    let changes = metadata_change(alloc, key.items(), &new.form)?;
    Ok(Asked { plan: new, changes })
}

/// The keys, and the changes, with one more.
fn add_key(alloc: Global, asked: &mut Asked, key: Name) -> Result<(), AllocError>
    ensures plan { OnOk result (asked.new.plan ≡ record asked.old.plan { keys = asked.new.plan.keys }) }
    ensures keys { OnOk result (asked.new.plan.keys.items ≡ asked.old.plan.keys.items ++ key ∷ []) }
    ensures changes { OnOk result (asked.new.changes.items
        ≡ asked.old.changes.items ++ record { key = key; bytes = None } ∷ []) }
{
    let copy = copy_name(alloc, key.items())?;
    asked.plan.keys.push(copy)?;
    asked.changes.push(Change { key, bytes: None })?;
    Ok(())
}

/// The same by a chunk.
fn add_chunk<K: KvStore>(
    alloc: Global,
    state: &State<K>,
    asked: &mut Asked,
    chunk: &[u64],
) -> Result<(), AllocError>
    requires { IsChunkOf state.now.log.events (record { array = asked.old.plan.array; index = chunk.now }) }
    ensures plan { OnOk result (asked.new.plan ≡ record asked.old.plan { keys = asked.new.plan.keys }) }
    ensures keys { OnOk result ((k : Known) → known_after state.now.log.events asked.old.plan.array ≡ Some k
        → asked.new.plan.keys.items ≡ asked.old.plan.keys.items ++ chunk_key k chunk.now ∷ []) }
    ensures changes { OnOk result ((k : Known) → known_after state.now.log.events asked.old.plan.array ≡ Some k
        → asked.new.changes.items
        ≡ asked.old.changes.items ++ record { key = chunk_key k chunk.now; bytes = None } ∷ []) }
{
    let key = state.key(asked.plan.array, chunk)?;
    add_key(alloc, asked, key)
}

/// A new shape with the keys of the chunks that it cuts, and the changes that it asks for.
pub(crate) fn asked_of<K: KvStore>(
    alloc: Global,
    state: &State<K>,
    new: NewShape,
    chunks: &[Sizes],
) -> Result<Asked, AllocError>
    requires agrees { IsState (K.seen state.now.store) state.now.log }
    requires begun { IsBegun state.now.log.events new }
    requires cut { AreCut state.now.log.events new.array new.shape chunks.now }
    requires none { new.keys.items ≡ [] }
    ensures asked { IfOk result (AreAsked state.now.log.events chunks.now) }
    ensures plan { IfOk result (λ asked. asked.plan ≡ record new { keys = asked.plan.keys }) }
{
    let mut asked = with_metadata(alloc, state, new)?;
    for chunk in chunks {
        add_chunk(alloc, state, &mut asked, chunk.items())?;
    }
    Ok(asked)
}
