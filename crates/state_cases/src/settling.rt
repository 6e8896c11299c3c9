// A look, and what its bytes spell put back.
ghost use Rattle.std.specs.Prelude.{◌≡◌, ℕ, List, Some, IfOk, false};
ghost use Rattle.cells.specs.Elements.{word_at};
ghost use Rattle.cells.specs.Numbers.{IsWord};
ghost use Rattle.cells.specs.Places.{IsInside};
ghost use Rattle.chunk_forms.specs.Metadata as meta;
ghost use Rattle.chunk_forms.specs.Words.{stored_word};
ghost use Rattle.state_laws.specs.Fetches.{IsChunkOf};
ghost use Rattle.state_cases.specs.Ready.{IsReady};
ghost use Rattle.state_cases.specs.Usable.{IsReadyWith, IsReadyFor, IsReadyBy};

use bytes::Bytes;
use case_lines::{Fault, told_line};
use cells::Dense;
use chunk_cache::Snapshot;
use chunk_forms::{Form, FormError, decode_form};
use kv_face::KvStore;
use shared_state::{Look, State};
use std::alloc::Global;
use std::sync::Arc;

pub(crate) fn settle<K: KvStore>(
    alloc: Global,
    owner: u32,
    array: u64,
    chunk: &[u64],
    state: &mut State<K>,
) -> Result<String, Fault>
    requires ready { IsReady (K.seen state.old.store) state.old.log }
    requires chunk { IsChunkOf state.old.log.events (record { array = array; index = chunk.now }) }
    ensures { IsReady (K.seen state.new.store) state.new.log }
{
    match state.look(owner, array, chunk) {
        Ok(look) => settle_look(alloc, array, chunk, &look, state),
        Err(error) => told_line(alloc, &error),
    }
}

fn settle_look<K: KvStore>(
    alloc: Global,
    array: u64,
    chunk: &[u64],
    look: &Look,
    state: &mut State<K>,
) -> Result<String, Fault>
    requires ready { IsReadyWith (K.seen state.old.store) state.old.log
        (record { array = array; index = chunk.now }) look.now }
    requires chunk { IsChunkOf state.old.log.events (record { array = array; index = chunk.now }) }
    ensures { IsReady (K.seen state.new.store) state.new.log }
{
    match look {
        Look::Kept { .. } => told_line(alloc, &"kept"),
        Look::Bytes {
            generation,
            form,
            bytes,
            ..
        } => settle_bytes(alloc, array, chunk, *generation, form, bytes, state),
    }
}

fn settle_bytes<K: KvStore>(
    alloc: Global,
    array: u64,
    chunk: &[u64],
    generation: u64,
    form: &Form,
    bytes: &Option<Bytes>,
    state: &mut State<K>,
) -> Result<String, Fault>
    requires ready { IsReadyFor (K.seen state.old.store) state.old.log
        (record { array = array; index = chunk.now }) generation form.now bytes.now }
    requires chunk { IsChunkOf state.old.log.events (record { array = array; index = chunk.now }) }
    ensures { IsReady (K.seen state.new.store) state.new.log }
{
    match decoded(alloc, form, bytes) {
        Ok(cells) => settle_cells(alloc, array, chunk, generation, cells, state),
        Err(error) => told_line(alloc, &error),
    }
}

// What the bytes of a chunk spell.
fn decoded(alloc: Global, form: &Form, bytes: &Option<Bytes>) -> Result<Dense, FormError>
    requires stored { meta.is_local form.now ≡ false }
    requires fill { IsWord (meta.dtype_of form.now) (meta.fill_of form.now) }
    ensures dtype { IfOk result (λ d. d.dtype ≡ meta.dtype_of form.now) }
    ensures shape { IfOk result (λ d. d.shape ≡ meta.chunk_shape_of form.now) }
    ensures words { IfOk result (λ d. (index : List ℕ) → IsInside (meta.chunk_shape_of form.now) index
        → stored_word form.now (meta.fill_of form.now) bytes.now index ≡ Some (word_at d index)) }
{
    let dtype = form.dtype();
    let fill = form.fill();
    match bytes {
        Some(bytes) => decode_form(
            alloc,
            form,
            dtype,
            form.chunk_shape(),
            fill,
            Some(bytes.as_slice()),
        ),
        None => decode_form(alloc, form, dtype, form.chunk_shape(), fill, None),
    }
}

fn settle_cells<K: KvStore>(
    alloc: Global,
    array: u64,
    chunk: &[u64],
    generation: u64,
    cells: Dense,
    state: &mut State<K>,
) -> Result<String, Fault>
    requires ready { IsReadyBy (K.seen state.old.store) state.old.log (record { array = array; index = chunk.now })
        (record { generation = generation; cells = cells }) }
    requires chunk { IsChunkOf state.old.log.events (record { array = array; index = chunk.now }) }
    ensures { IsReady (K.seen state.new.store) state.new.log }
{
    let Ok(cells) = Arc::new(alloc, cells) else {
        return Err(Fault::Memory);
    };
    let snapshot = Snapshot::new(generation, cells);
    let answer = state.settle(array, chunk, snapshot);
    told_line(alloc, &answer)
}
