// The versions of one chunk's words, and the moments at which it shows the cells of a read.
ghost use Rattle.std.specs.Prelude.{IfOk, All};
ghost use Rattle.chunk_versions.specs.Marks.{HasCasts};

use crate::args::{items, items_at};
use crate::fault::Fault;
use cast_driver::{Cast, Chain};
use cells::Dtype;
use serde_json::Value;
use std::alloc::Global;
use version_store::{AskedCell, ChunkVersions};

/// The most places of a case's chunk.
const MOST: u64 = 64;

/// The moment from `from` on at which the chunk shows the cells, or that there is none; its present words; and which of the first events
/// touched it.
pub(crate) fn of_chunk(alloc: Global, v: &Value) -> Result<String, Fault> {
    let places = number_at(v, "places")?;
    if places > MOST {
        return Err(Fault::Line);
    }
    let mut chunk = ChunkVersions::new(
        alloc,
        number_at(v, "opened")?,
        places as usize,
        number_at(v, "fill")?,
    )?;
    put_all(alloc, &mut chunk, items_at(v, "puts")?)?;
    told_of(alloc, &chunk, v)
}

fn told_of(alloc: Global, chunk: &ChunkVersions, v: &Value) -> Result<String, Fault> {
    let mark = mark_of(alloc, chunk, v)?;
    let words = words_of(alloc, chunk)?;
    told_words(alloc, chunk, mark, &words)
}

fn told_words(
    alloc: Global,
    chunk: &ChunkVersions,
    mark: Option<u64>,
    words: &[u64],
) -> Result<String, Fault> {
    let touches = touches_of(alloc, chunk)?;
    Ok(format!(in alloc; "mark {mark:?}, words {words:?}, touched by {touches:?}")?)
}

fn put_all(alloc: Global, chunk: &mut ChunkVersions, puts: &[Value]) -> Result<(), Fault> {
    for put in puts {
        put_one(alloc, chunk, items(put)?)?;
    }
    Ok(())
}

fn put_one(alloc: Global, chunk: &mut ChunkVersions, put: &[Value]) -> Result<(), Fault> {
    let number = number_in(put, 0)?;
    let place = number_in(put, 1)? as usize;
    let word = number_in(put, 2)?;
    if number < chunk.newest() || place >= chunk.size() {
        return Err(Fault::Line);
    }
    chunk.put(alloc, number, place, word)?;
    Ok(())
}

fn mark_of(alloc: Global, chunk: &ChunkVersions, v: &Value) -> Result<Option<u64>, Fault> {
    let casts = chains_of(alloc, items_at(v, "casts")?)?;
    marked(alloc, chunk, v, &casts)
}

fn marked(
    alloc: Global,
    chunk: &ChunkVersions,
    v: &Value,
    casts: &[Chain],
) -> Result<Option<u64>, Fault> {
    let asked = asked_of(alloc, casts, items_at(v, "cells")?)?;
    Ok(chunk.find_mark(alloc, number_at(v, "from")?, casts, &asked)?)
}

// Chains of casts, one for each list of dtypes.
pub(crate) fn chains_of(alloc: Global, lists: &[Value]) -> Result<Vec<Chain>, Fault> {
    let mut chains = Vec::with_capacity(alloc, lists.len())?;
    for list in lists {
        chains.push(chain_of(alloc, items(list)?)?)?;
    }
    Ok(chains)
}

// A chain of one cast from the first dtype to the second; of none where the list hasn't two.
fn chain_of(alloc: Global, names: &[Value]) -> Result<Chain, Fault> {
    let mut chain = Chain::new(alloc);
    if names.len() == 2 {
        let cast = Cast {
            from: dtype_in(names, 0)?,
            to: dtype_in(names, 1)?,
        };
        chain.push(cast)?;
    }
    Ok(chain)
}

pub(crate) fn asked_of(
    alloc: Global,
    casts: &[Chain],
    cells: &[Value],
) -> Result<Vec<AskedCell>, Fault>
    ensures { IfOk result (λ asked. All (HasCasts casts.now) asked.items) }
{
    let mut asked = Vec::with_capacity(alloc, cells.len())?;
    for cell in cells {
        let found = asked_one(casts, items(cell)?)?;
        asked.push(found)?;
    }
    Ok(asked)
}

fn asked_one(casts: &[Chain], cell: &[Value]) -> Result<AskedCell, Fault>
    ensures { IfOk result (HasCasts casts.now) }
{
    let place = u32::try_from(number_in(cell, 0)?).map_err(|_| Fault::Line)?;
    let leaf = u32::try_from(number_in(cell, 1)?).map_err(|_| Fault::Line)?;
    let word = number_in(cell, 2)?;
    if leaf as usize >= casts.len() {
        return Err(Fault::Line);
    }
    Ok(AskedCell { place, leaf, word })
}

fn words_of(alloc: Global, chunk: &ChunkVersions) -> Result<Vec<u64>, Fault> {
    let mut words = Vec::new(alloc);
    for place in 0..chunk.size() {
        words.push(chunk.word(place))?;
    }
    Ok(words)
}

fn touches_of(alloc: Global, chunk: &ChunkVersions) -> Result<Vec<u64>, Fault> {
    let mut numbers = Vec::new(alloc);
    for number in 0..16 {
        if chunk.is_touched(number) {
            numbers.push(number)?;
        }
    }
    Ok(numbers)
}

pub(crate) fn number_at(v: &Value, name: &str) -> Result<u64, Fault> {
    v.get(name).ok_or(Fault::Line)?.as_u64().ok_or(Fault::Line)
}

pub(crate) fn number_in(items: &[Value], at: usize) -> Result<u64, Fault> {
    items
        .get(at)
        .ok_or(Fault::Line)?
        .as_u64()
        .ok_or(Fault::Line)
}

fn dtype_in(names: &[Value], at: usize) -> Result<Dtype, Fault> {
    Dtype::named(
        names
            .get(at)
            .ok_or(Fault::Line)?
            .as_str()
            .ok_or(Fault::Line)?,
    )
    .ok_or(Fault::Line)
}
