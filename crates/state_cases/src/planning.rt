// A plan: `{"call":"plan","array":N,"chunk":[..],"staged":[..]}`, where a number or null is staged for each cell of the chunk in C order.
// With `ready`, bytes or null, and `generation` and `resized`, these were prepared.
ghost use Rattle.std.specs.Prelude.{◌≡◌, ◌<◌, length, true, false, IfOk, IsTrue};
ghost use Rattle.cells.specs.Places.{cell_count};
ghost use Rattle.chunk_forms.specs.Metadata.{chunk_shape_of, dtype_of, shape_of, with_shape};
ghost use Rattle.chunk_forms.specs.Metadata as meta;
ghost use Rattle.history.specs.Arrays.{Known, known_after, form_of};
ghost use Rattle.history.specs.Resizes.{reaches_into};
ghost use Rattle.rebase_writes.specs.Staged.{AreWords};
ghost use Rattle.state_laws.specs.Fetches.{IsChunkOf};
ghost use Rattle.state_cases.specs.Ready.{IsReady};

use case_lines::{Fault, bytes, items, member, number_or, told_line, word_of};
use cells::{Dense, Dtype, List, MOST_CHUNK_CELLS, count_cells};
use chunk_forms::Form;
use chunk_laying::{is_chunk_of, is_gone};
use chunk_plans::{ChunkWrite, Left, Ready, plan_write};
use kv_face::KvStore;
use rebase_writes::Staged;
use serde_json::Value;
use shared_state::State;
use std::alloc::Global;

pub(crate) fn plan<K: KvStore>(
    alloc: Global,
    owner: u32,
    array: u64,
    chunk: &[u64],
    v: &Value,
    state: &mut State<K>,
) -> Result<String, Fault>
    requires ready { IsReady (K.seen state.old.store) state.old.log }
    requires chunk { IsChunkOf state.old.log.events (record { array = array; index = chunk.now }) }
    ensures { IsReady (K.seen state.new.store) state.new.log }
{
    let form = state.info(array)?;
    if reaches(&form, chunk) {
        plan_in(alloc, owner, array, chunk, v, &form, state)
    } else {
        told_line(alloc, &"no part of a stored array")
    }
}

// Whether the chunk is stored, and has a cell in the array's shape.
fn reaches(form: &Form, chunk: &[u64]) -> bool
    ensures stored { IsTrue result → meta.is_local form.now ≡ false }
    ensures reached { IsTrue result → reaches_into (chunk_shape_of form.now) (shape_of form.now) chunk.now ≡ true }
{
    if form.is_local() || !is_chunk_of(form.shape(), form.chunk_shape(), chunk) {
        return false;
    }
    !is_gone(form.chunk_shape(), form.shape(), chunk)
}

fn plan_in<K: KvStore>(
    alloc: Global,
    owner: u32,
    array: u64,
    chunk: &[u64],
    v: &Value,
    form: &Form,
    state: &mut State<K>,
) -> Result<String, Fault>
    requires ready { IsReady (K.seen state.old.store) state.old.log }
    requires chunk { IsChunkOf state.old.log.events (record { array = array; index = chunk.now }) }
    requires form { (k : Known) → known_after state.old.log.events array ≡ Some k
        → form.now ≡ with_shape (form_of k.info.home) k.shape }
    requires stored { meta.is_local form.now ≡ false }
    requires reached { reaches_into (chunk_shape_of form.now) (shape_of form.now) chunk.now ≡ true }
    ensures { IsReady (K.seen state.new.store) state.new.log }
{
    let staged = staged_of(
        alloc,
        form.dtype(),
        form.chunk_shape(),
        items(member(v, "staged")?)?,
    )?;
    let ready = ready_of(alloc, v)?;
    plan_staged(alloc, owner, array, chunk, &staged, ready, form, state)
}

fn plan_staged<K: KvStore>(
    alloc: Global,
    owner: u32,
    array: u64,
    chunk: &[u64],
    staged: &Staged,
    ready: Option<Ready>,
    form: &Form,
    state: &mut State<K>,
) -> Result<String, Fault>
    requires ready { IsReady (K.seen state.old.store) state.old.log }
    requires chunk { IsChunkOf state.old.log.events (record { array = array; index = chunk.now }) }
    requires form { (k : Known) → known_after state.old.log.events array ≡ Some k
        → form.now ≡ with_shape (form_of k.info.home) k.shape }
    requires stored { meta.is_local form.now ≡ false }
    requires reached { reaches_into (chunk_shape_of form.now) (shape_of form.now) chunk.now ≡ true }
    requires size { length staged.now ≡ cell_count (chunk_shape_of form.now) }
    requires words { AreWords (dtype_of form.now) staged.now }
    ensures { IsReady (K.seen state.new.store) state.new.log }
{
    let key = state.key(array, chunk)?;
    let write = ChunkWrite {
        array,
        chunk,
        key,
        staged,
        ready,
    };
    match plan_write(alloc, state, owner, 0, write) {
        Ok(plan) => told_left(alloc, &plan.left),
        Err(error) => told_line(alloc, &error),
    }
}

fn told_left(alloc: Global, left: &Left) -> Result<String, Fault> {
    match left {
        Left::Stored {
            bytes: Some(bytes),
            ..
        } => told_line(alloc, &bytes.items()),
        Left::Stored { bytes: None, .. } => told_line(alloc, &"fill"),
        Left::Held { .. } => told_line(alloc, &"held"),
    }
}

fn staged_of(
    alloc: Global,
    dtype: Dtype,
    chunk_shape: &[u64],
    items: &[Value],
) -> Result<Staged, Fault>
    ensures size { IfOk result (λ s. length s ≡ cell_count chunk_shape.now) }
    ensures words { IfOk result (λ s. AreWords dtype s) }
{
    let count = count_cells(chunk_shape, MOST_CHUNK_CELLS).ok_or(Fault::Line)? as usize;
    if items.len() != count {
        return Err(Fault::Line);
    }
    let mut staged = Staged::new(alloc, count)?;
    stage_all(&mut staged, dtype, count, items)?;
    Ok(staged)
}

fn stage_all(staged: &mut Staged, dtype: Dtype, count: usize, items: &[Value]) -> Result<(), Fault>
    requires size { length staged.old ≡ count }
    requires words { AreWords dtype staged.old }
    ensures size { length staged.new ≡ count }
    ensures words { AreWords dtype staged.new }
{
    for (place, item) in items.iter().enumerate() {
        if place >= count {
            return Err(Fault::Line);
        }
        stage(staged, dtype, place, item)?;
    }
    Ok(())
}

fn stage(staged: &mut Staged, dtype: Dtype, place: usize, item: &Value) -> Result<(), Fault>
    requires place { place < length staged.old }
    requires words { AreWords dtype staged.old }
    ensures size { length staged.new ≡ length staged.old }
    ensures words { AreWords dtype staged.new }
{
    if item.is_null() {
        return Ok(());
    }
    staged.write_cell(place, word_of(dtype, item)?);
    Ok(())
}

fn ready_of(alloc: Global, v: &Value) -> Result<Option<Ready>, Fault> {
    let Some(ready) = v.get("ready") else {
        return Ok(None);
    };
    let resized = number_or(v, "resized", 0)?;
    let generation = match v.get("generation") {
        Some(generation) => Some(generation.as_u64().ok_or(Fault::Line)?),
        None => None,
    };
    let bytes = bytes_of(alloc, ready)?;
    // No chunk of an array has these cells, so that they aren't left.
    let cells = Dense::filled(alloc, Dtype::U8, &[1], 0)?;
    Ok(Some(Ready {
        generation,
        resized,
        bytes,
        cells,
    }))
}

fn bytes_of(alloc: Global, v: &Value) -> Result<Option<List<u8>>, Fault> {
    if v.is_null() {
        return Ok(None);
    }
    Ok(Some(List::wrap(bytes(alloc, items(v)?)?)))
}
