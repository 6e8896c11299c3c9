// The cache of chunks.
ghost use Rattle.std.specs.Prelude.{◌≤◌};

use case_lines::{Fault, items, member, number, text, text_of, told, word};
use cells::{Dense, Dtype};
use chunk_cache::{ChunkCache, Snapshot};
use serde_json::Value;
use std::alloc::Global;
use std::sync::Arc;

/// The greatest limit of a cache.
const GREATEST: u64 = 1 << 27;

/// The most cells of a chunk that a line keeps.
const MOST: u64 = 100;

pub(crate) fn answer(alloc: Global, call: &str, v: &Value) -> Result<String, Fault> {
    match call {
        "keep" => kept(alloc, v),
        "share" => shared(alloc),
        _ => Err(Fault::Line),
    }
}

// Keeps and drops chunks in a cache, and asks then for some keys: the number of the call that kept each.
fn kept(alloc: Global, v: &Value) -> Result<String, Fault> {
    let limit = number(v, "limit")?;
    if limit > GREATEST {
        return Err(Fault::Line);
    }
    let mut cache = ChunkCache::new(alloc, limit)?;
    do_all(alloc, &mut cache, member(v, "calls")?)?;
    ask_all(alloc, &mut cache, member(v, "asked")?)
}

fn do_all(alloc: Global, cache: &mut ChunkCache, calls: &Value) -> Result<(), Fault> {
    for (place, call) in items(calls)?.iter().enumerate() {
        do_one(alloc, cache, place as u64, call)?;
    }
    Ok(())
}

fn do_one(alloc: Global, cache: &mut ChunkCache, place: u64, call: &Value) -> Result<(), Fault> {
    match word(call, "drop") {
        Some(key) => {
            cache.drop_key(key);
            Ok(())
        }
        None => keep(alloc, cache, place, call),
    }
}

fn keep(alloc: Global, cache: &mut ChunkCache, place: u64, call: &Value) -> Result<(), Fault> {
    let key = text(call, "keep")?;
    let cells = number(call, "cells")?;
    if cells > MOST {
        return Err(Fault::Line);
    }
    keep_chunk(alloc, cache, key, chunk(alloc, place, cells)?)
}

fn keep_chunk(
    alloc: Global,
    cache: &mut ChunkCache,
    key: &str,
    chunk: Snapshot,
) -> Result<(), Fault> {
    let key = String::from_str(alloc, key)?;
    cache.keep(key, chunk).map_err(|_| Fault::Memory)
}

// A chunk of so many cells at a generation.
fn chunk(alloc: Global, generation: u64, cells: u64) -> Result<Snapshot, Fault>
    requires { cells ≤ 100 }
{
    let dense = Dense::filled(alloc, Dtype::U8, &[cells], 0)?;
    Ok(Snapshot::new(generation, Arc::new(alloc, dense)?))
}

// What the keys have, how many cells there are, and how many chunks are left.
fn ask_all(alloc: Global, cache: &mut ChunkCache, asked: &Value) -> Result<String, Fault> {
    let keys = items(asked)?;
    let mut found = Vec::with_capacity(alloc, keys.len())?;
    for key in keys {
        found.push(ask(cache, text_of(key)?)?)?;
    }
    Ok(format!(in alloc;
        "{:?} {} {}",
        found.as_slice(),
        cache.len(),
        cache.is_empty()
    )?)
}

fn ask(cache: &mut ChunkCache, key: &str) -> Result<Option<(u64, usize)>, Fault> {
    Ok(
        cache
            .hit(key)?
            .map(|chunk| (chunk.generation(), chunk.cells().count())),
    )
}

// A chunk that is shared stays with who has it, once its key was dropped.
fn shared(alloc: Global) -> Result<String, Fault> {
    let mut cache = ChunkCache::new(alloc, 10)?;
    keep_chunk(alloc, &mut cache, "e", chunk(alloc, 7, 3)?)?;
    match cache.hit("e")? {
        Some(chunk) => {
            cache.drop_key("e");
            shown(alloc, &cache, &chunk)
        }
        None => Err(Fault::Line),
    }
}

fn shown(alloc: Global, cache: &ChunkCache, chunk: &Snapshot) -> Result<String, Fault> {
    told(
        alloc,
        &(cache.is_empty(), chunk.generation(), chunk.cells().count()),
    )
}
