// The words of all chunks of a run, event by event, and what is asked of them.
use crate::args::{items, items_at};
use crate::fault::Fault;
use crate::versions::{asked_of, chains_of, number_at, number_in};
use cast_driver::Chain;
use cells::{Dense, Dtype, Name, Sizes};
use serde_json::Value;
use std::alloc::Global;
use version_store::{ArrayInfo, Home, PlacedWord, VersionStore};
use zarr_chunks::{ZarrMeta, read_meta};

// The most cells of a case's local array.
const MOST: usize = 64;

/// What each step gives.
pub(crate) fn of_store(alloc: Global, steps: &[Value]) -> Result<String, Fault> {
    let mut store = VersionStore::new(alloc);
    told_of(alloc, &mut store, steps)
}

fn told_of(alloc: Global, store: &mut VersionStore, steps: &[Value]) -> Result<String, Fault> {
    let mut text = String::new(alloc);
    for (i, step) in steps.iter().enumerate() {
        if i > 0 {
            text.push_str("; ")?;
        }
        push_step(alloc, store, &mut text, step)?;
    }
    Ok(text)
}

fn push_step(
    alloc: Global,
    store: &mut VersionStore,
    text: &mut String,
    step: &Value,
) -> Result<(), Fault> {
    let told = told_step(alloc, store, step)?;
    text.push_str(told.as_str())?;
    Ok(())
}

fn told_step(alloc: Global, store: &mut VersionStore, step: &Value) -> Result<String, Fault> {
    let number = number_at(step, "event")?;
    match step.get("open") {
        Some(array) => opened(alloc, store, number, array),
        None => told_chunk(alloc, store, number, step),
    }
}

fn opened(
    alloc: Global,
    store: &mut VersionStore,
    number: u64,
    array: &Value,
) -> Result<String, Fault> {
    let info = info_of(alloc, array)?;
    store.open(alloc, number, &info)?;
    Ok(String::from_str(alloc, "opened")?)
}

// A stored array by its metadata, or a local one by a list of its words.
fn info_of(alloc: Global, array: &Value) -> Result<ArrayInfo, Fault> {
    match array.as_array() {
        Some(words) => local_info(alloc, words.as_slice()),
        None => stored_info(alloc, array),
    }
}

fn stored_info(alloc: Global, array: &Value) -> Result<ArrayInfo, Fault> {
    let text = array.to_string(alloc)?;
    match read_meta(alloc, text.as_bytes()) {
        Ok(meta) => info_by(alloc, meta),
        Err(_) => Err(Fault::Line),
    }
}

fn info_by(alloc: Global, meta: ZarrMeta) -> Result<ArrayInfo, Fault> {
    let mount = Name::wrap(String::from_str(alloc, "memory")?);
    let path = Name::wrap(String::from_str(alloc, "a")?);
    let shape = Sizes::wrap(Vec::from_slice(alloc, meta.shape.items())?);
    let dtype = meta.dtype;
    let fill = meta.fill.unwrap_or(0);
    Ok(ArrayInfo {
        number: 0,
        home: Home::Zarr { mount, path, meta },
        dtype,
        shape,
        fill,
    })
}

fn local_info(alloc: Global, words: &[Value]) -> Result<ArrayInfo, Fault> {
    let start = dense_of(alloc, words)?;
    let shape = Sizes::wrap(Vec::from_slice(alloc, start.shape())?);
    Ok(ArrayInfo {
        number: 0,
        home: Home::Local { start },
        dtype: Dtype::U8,
        shape,
        fill: 0,
    })
}

fn told_chunk(
    alloc: Global,
    store: &mut VersionStore,
    number: u64,
    step: &Value,
) -> Result<String, Fault> {
    let id = id_of(alloc, items_at(step, "chunk")?)?;
    told_by_id(alloc, store, number, &id, step)
}

fn told_by_id(
    alloc: Global,
    store: &mut VersionStore,
    number: u64,
    id: &[u64],
    step: &Value,
) -> Result<String, Fault> {
    match step.get("words") {
        Some(words) => put(alloc, store, number, id, items(words)?),
        None => asked(alloc, store, number, id, step),
    }
}

fn put(
    alloc: Global,
    store: &mut VersionStore,
    number: u64,
    id: &[u64],
    words: &[Value],
) -> Result<String, Fault> {
    let placed = placed_of(alloc, words)?;
    if !store.has_room(number, id, &placed) {
        return Ok(String::from_str(alloc, "no room")?);
    }
    store.put_words(alloc, number, id, &placed)?;
    Ok(String::from_str(alloc, "put")?)
}

fn asked(
    alloc: Global,
    store: &VersionStore,
    number: u64,
    id: &[u64],
    step: &Value,
) -> Result<String, Fault> {
    match step.get("cells") {
        Some(cells) => shown(alloc, store, number, id, step, items(cells)?),
        None => touched(alloc, store, number, id),
    }
}

fn touched(alloc: Global, store: &VersionStore, number: u64, id: &[u64]) -> Result<String, Fault> {
    let touched = store.is_touched(id, number);
    Ok(format!(in alloc; "touched {touched}")?)
}

fn shown(
    alloc: Global,
    store: &VersionStore,
    from: u64,
    id: &[u64],
    step: &Value,
    cells: &[Value],
) -> Result<String, Fault> {
    let casts = chains_of(alloc, items_at(step, "casts")?)?;
    shown_by(alloc, store, from, id, &casts, cells)
}

fn shown_by(
    alloc: Global,
    store: &VersionStore,
    from: u64,
    id: &[u64],
    casts: &[Chain],
    cells: &[Value],
) -> Result<String, Fault> {
    let asked = asked_of(alloc, casts, cells)?;
    let now = store.shows(alloc, id, casts, &asked)?;
    let mark = store.find_mark(alloc, id, from, casts, &asked)?;
    Ok(format!(in alloc; "shown {now}, mark {mark:?}")?)
}

fn id_of(alloc: Global, numbers: &[Value]) -> Result<Vec<u64>, Fault> {
    let mut id = Vec::with_capacity(alloc, numbers.len())?;
    for number in numbers {
        id.push(number.as_u64().ok_or(Fault::Line)?)?;
    }
    Ok(id)
}

fn placed_of(alloc: Global, words: &[Value]) -> Result<Vec<PlacedWord>, Fault> {
    let mut placed = Vec::with_capacity(alloc, words.len())?;
    for word in words {
        placed.push(placed_one(items(word)?)?)?;
    }
    Ok(placed)
}

fn placed_one(word: &[Value]) -> Result<PlacedWord, Fault> {
    let place = u32::try_from(number_in(word, 0)?).map_err(|_| Fault::Line)?;
    Ok(PlacedWord {
        place,
        word: number_in(word, 1)?,
    })
}

// Bytes as an array of one dimension.
fn dense_of(alloc: Global, words: &[Value]) -> Result<Dense, Fault> {
    let bytes = bytes_in(alloc, words)?;
    row_of(alloc, bytes)
}

fn row_of(alloc: Global, bytes: Vec<u8>) -> Result<Dense, Fault> {
    if bytes.len() > MOST {
        return Err(Fault::Line);
    }
    let shape = Sizes::wrap(Vec::from_slice(alloc, &[bytes.len() as u64])?);
    Ok(Dense::from_bytes(Dtype::U8, shape, bytes))
}

fn bytes_in(alloc: Global, words: &[Value]) -> Result<Vec<u8>, Fault> {
    let mut bytes = Vec::with_capacity(alloc, words.len())?;
    for word in words {
        let number = word.as_u64().ok_or(Fault::Line)?;
        bytes.push(u8::try_from(number).map_err(|_| Fault::Line)?)?;
    }
    Ok(bytes)
}
