// What a commit or a new shape does to the cells of one chunk.
ghost use Rattle.std.specs.Prelude.{◌≡◌, ◌<◌, ◌≤◌, IfOk, length};
ghost use Rattle.cells.specs.Places.{cell_count};
ghost use Rattle.cells.specs.Shapes.{IsChunkShape};
ghost use Rattle.cells.specs.declared.dtype.Dtype.TheVariants.{U8};
ghost use Rattle.rebase_writes.specs.Staged.{AreWords};
ghost use Rattle.chunk_laying.specs.Laid.{IsChunkOf};

use case_lines::{Fault, member, sizes, told, word_of};
use cells::{Dense, Dtype, MOST_CHUNK_CELLS, Sizes, count_cells, is_chunk_shape};
use chunk_laying::{
    count_cut, covers, cut, cut_chunks, is_chunk_of, is_cut_in_part, is_gone, lay, stays_within,
};
use rebase_writes::Staged;
use serde_json::Value;
use std::alloc::Global;

pub(crate) fn answer(alloc: Global, call: &str, v: &Value) -> Result<String, Fault> {
    of_chunks(alloc, call, v, &sizes(alloc, v, "chunks")?)
}

fn of_chunks(alloc: Global, call: &str, v: &Value, chunks: &[u64]) -> Result<String, Fault> {
    match call {
        "count" | "list" => of_resize(alloc, call, v, chunks, &sizes(alloc, v, "old")?),
        _ => of_shape(alloc, call, v, chunks, &sizes(alloc, v, "shape")?),
    }
}

fn of_resize(
    alloc: Global,
    call: &str,
    v: &Value,
    chunks: &[u64],
    old: &[u64],
) -> Result<String, Fault> {
    resized(alloc, call, chunks, old, &sizes(alloc, v, "new")?)
}

fn resized(
    alloc: Global,
    call: &str,
    chunks: &[u64],
    old: &[u64],
    new: &[u64],
) -> Result<String, Fault> {
    if !is_chunk_shape(chunks) || old.len() != chunks.len() || new.len() != chunks.len() {
        return Err(Fault::Line);
    }
    let count = count_cut(chunks, old, new);
    if call == "count" {
        return told(alloc, &count);
    }
    match count {
        Some(_) => listed(alloc, cut_chunks(alloc, chunks, old, new)?.items()),
        None => Err(Fault::Line),
    }
}

// Chunk indices, one after another.
fn listed(alloc: Global, chunks: &[Sizes]) -> Result<String, Fault> {
    let mut shown = Vec::with_capacity(alloc, chunks.len())?;
    for chunk in chunks {
        shown.push(chunk.items())?;
    }
    told(alloc, &shown)
}

fn of_shape(
    alloc: Global,
    call: &str,
    v: &Value,
    chunks: &[u64],
    shape: &[u64],
) -> Result<String, Fault> {
    of_chunk(alloc, call, v, chunks, shape, &sizes(alloc, v, "chunk")?)
}

fn of_chunk(
    alloc: Global,
    call: &str,
    v: &Value,
    chunks: &[u64],
    shape: &[u64],
    chunk: &[u64],
) -> Result<String, Fault> {
    if chunks.len() > 32 || !is_chunk_of(shape, chunks, chunk) {
        return Err(Fault::Line);
    }
    match call {
        "gone" => told(alloc, &is_gone(chunks, shape, chunk)),
        "part" => part(alloc, chunks, &sizes(alloc, v, "old")?, shape, chunk),
        "cut" => cut_one(alloc, v, shape, chunk, &base(alloc, v, chunks)?),
        "covers" => covered(shape, chunks, chunk, alloc, &staged(alloc, v, chunks)?),
        "within" => within(shape, chunks, chunk, alloc, &staged(alloc, v, chunks)?),
        "lay" => over_nothing(alloc, v, shape, chunks, chunk, &staged(alloc, v, chunks)?),
        "lay_over" => { over_base(alloc, v, shape, chunks, chunk, &staged(alloc, v, chunks)?) }
        _ => Err(Fault::Line),
    }
}

fn part(
    alloc: Global,
    chunks: &[u64],
    old: &[u64],
    shape: &[u64],
    chunk: &[u64],
) -> Result<String, Fault>
    requires { IsChunkOf shape.now chunks.now chunk.now }
{
    if !is_chunk_of(old, chunks, chunk) {
        return Err(Fault::Line);
    }
    told(alloc, &is_cut_in_part(chunks, old, shape, chunk))
}

fn cut_one(
    alloc: Global,
    v: &Value,
    shape: &[u64],
    chunk: &[u64],
    base: &Dense,
) -> Result<String, Fault>
    requires chunk { IsChunkOf shape.now base.now.shape chunk.now }
    requires dtype { base.now.dtype ≡ U8 }
{
    let fill = word_of(Dtype::U8, member(v, "fill")?)?;
    let cells = cut(alloc, shape, chunk, fill, base)?;
    words(alloc, &cells)
}

fn covered(
    shape: &[u64],
    chunks: &[u64],
    chunk: &[u64],
    alloc: Global,
    staged: &Staged,
) -> Result<String, Fault>
    requires chunk { IsChunkOf shape.now chunks.now chunk.now }
    requires staged { length staged.now ≡ cell_count chunks.now }
{
    told(alloc, &covers(shape, chunks, chunk, staged))
}

fn within(
    shape: &[u64],
    chunks: &[u64],
    chunk: &[u64],
    alloc: Global,
    staged: &Staged,
) -> Result<String, Fault>
    requires chunk { IsChunkOf shape.now chunks.now chunk.now }
    requires staged { length staged.now ≡ cell_count chunks.now }
{
    told(alloc, &stays_within(shape, chunks, chunk, staged))
}

fn over_nothing(
    alloc: Global,
    v: &Value,
    shape: &[u64],
    chunks: &[u64],
    chunk: &[u64],
    staged: &Staged,
) -> Result<String, Fault>
    requires chunk { IsChunkOf shape.now chunks.now chunk.now }
    requires rank { length chunks.now ≤ 32 }
    requires size { length staged.now ≡ cell_count chunks.now }
    requires words { AreWords U8 staged.now }
{
    let fill = word_of(Dtype::U8, member(v, "fill")?)?;
    let cells = lay(alloc, shape, chunk, fill, staged, None, Dtype::U8, chunks)?;
    words(alloc, &cells)
}

fn over_base(
    alloc: Global,
    v: &Value,
    shape: &[u64],
    chunks: &[u64],
    chunk: &[u64],
    staged: &Staged,
) -> Result<String, Fault>
    requires chunk { IsChunkOf shape.now chunks.now chunk.now }
    requires rank { length chunks.now ≤ 32 }
    requires size { length staged.now ≡ cell_count chunks.now }
    requires words { AreWords U8 staged.now }
{
    let base = base(alloc, v, chunks)?;
    laid(alloc, v, shape, chunk, staged, &base)
}

fn laid(
    alloc: Global,
    v: &Value,
    shape: &[u64],
    chunk: &[u64],
    staged: &Staged,
    base: &Dense,
) -> Result<String, Fault>
    requires chunk { IsChunkOf shape.now base.now.shape chunk.now }
    requires dtype { base.now.dtype ≡ U8 }
    requires size { length staged.now ≡ cell_count base.now.shape }
    requires words { AreWords U8 staged.now }
{
    let fill = word_of(Dtype::U8, member(v, "fill")?)?;
    let cells = lay(
        alloc,
        shape,
        chunk,
        fill,
        staged,
        Some(base),
        Dtype::U8,
        base.shape(),
    )?;
    words(alloc, &cells)
}

// The words of all cells.
fn words(alloc: Global, cells: &Dense) -> Result<String, Fault> {
    let words = cells.to_words(alloc)?;
    told(alloc, &words.as_slice())
}

// The numbers of `base` at the chunk's places, from the first on, and 0 at the others.
fn base(alloc: Global, v: &Value, chunks: &[u64]) -> Result<Dense, Fault>
    requires chunks { IsChunkShape chunks.now }
    requires rank { length chunks.now ≤ 32 }
    ensures dtype { IfOk result (λ d. d.dtype ≡ U8) }
    ensures shape { IfOk result (λ d. d.shape ≡ chunks.now) }
{
    let mut cells = Dense::filled(alloc, Dtype::U8, chunks, 0)?;
    put_all(&mut cells, member(v, "base")?)?;
    Ok(cells)
}

fn put_all(cells: &mut Dense, items: &Value) -> Result<(), Fault>
    requires { cells.old.dtype ≡ U8 }
    ensures dtype { cells.new.dtype ≡ U8 }
    ensures shape { cells.new.shape ≡ cells.old.shape }
{
    let items = items.as_array().ok_or(Fault::Line)?;
    for (place, item) in items.iter().enumerate() {
        if place >= cells.count() {
            return Err(Fault::Line);
        }
        cells.set(place, word_of(Dtype::U8, item)?);
    }
    Ok(())
}

// The numbers of `staged` at the chunk's places, from the first on; none where the list has null or is at its end.
fn staged(alloc: Global, v: &Value, chunks: &[u64]) -> Result<Staged, Fault>
    requires chunks { IsChunkShape chunks.now }
    ensures size { IfOk result (λ s. length s ≡ cell_count chunks.now) }
    ensures words { IfOk result (λ s. AreWords U8 s) }
{
    let count = count_cells(chunks, MOST_CHUNK_CELLS).ok_or(Fault::Line)? as usize;
    let mut staged = Staged::new(alloc, count)?;
    stage_all(&mut staged, count, member(v, "staged")?)?;
    Ok(staged)
}

fn stage_all(staged: &mut Staged, count: usize, items: &Value) -> Result<(), Fault>
    requires size { length staged.old ≡ count }
    requires words { AreWords U8 staged.old }
    ensures size { length staged.new ≡ count }
    ensures words { AreWords U8 staged.new }
{
    let items = items.as_array().ok_or(Fault::Line)?;
    for (place, item) in items.iter().enumerate() {
        if place >= count {
            return Err(Fault::Line);
        }
        stage(staged, place, item)?;
    }
    Ok(())
}

fn stage(staged: &mut Staged, place: usize, item: &Value) -> Result<(), Fault>
    requires place { place < length staged.old }
    requires words { AreWords U8 staged.old }
    ensures size { length staged.new ≡ length staged.old }
    ensures words { AreWords U8 staged.new }
{
    if item.is_null() {
        return Ok(());
    }
    staged.write_cell(place, word_of(Dtype::U8, item)?);
    Ok(())
}
