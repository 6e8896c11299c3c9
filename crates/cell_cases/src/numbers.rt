// Numbers, words, places and counts.
use crate::read::{order, whole};
use case_lines::{Fault, bytes, dtype, flag, items, member, number, sizes, told, word_of};
use cells::{Dtype, conv, count_cells, index_of, is_inside, place, put_word, take_word};
use serde_json::Value;
use std::alloc::Global;

pub(crate) fn answer(alloc: Global, call: &str, v: &Value) -> Result<String, Fault> {
    match call {
        "conv" => converted(alloc, v),
        "put" => put(alloc, v),
        "take" => take(alloc, v),
        "place" => placed(alloc, v, &sizes(alloc, v, "shape")?),
        "index" => indexed(alloc, v, &sizes(alloc, v, "shape")?),
        "count" => counted(alloc, v, &sizes(alloc, v, "shape")?),
        "holds" => told(alloc, &dtype(v, "dtype")?.holds(whole(v, "value")?)),
        "name" => told(alloc, &dtype(v, "dtype")?.name()),
        _ => Err(Fault::Line),
    }
}

fn converted(alloc: Global, v: &Value) -> Result<String, Fault> {
    let from = dtype(v, "from")?;
    let to = dtype(v, "to")?;
    let word = word_of(from, member(v, "value")?)?;
    told(alloc, &to.number(conv(from, word, to)))
}

fn put(alloc: Global, v: &Value) -> Result<String, Fault> {
    let dtype = dtype(v, "dtype")?;
    let big = flag(v, "big")?;
    let word = word_of(dtype, member(v, "value")?)?;
    let mut buffer = [0u8; 8];
    let out = &mut buffer[..dtype.byte_count()];
    put_word(dtype, big, word, out);
    told(alloc, &&buffer[..dtype.byte_count()])
}

fn take(alloc: Global, v: &Value) -> Result<String, Fault> {
    let dtype = dtype(v, "dtype")?;
    let big = flag(v, "big")?;
    taken(
        alloc,
        dtype,
        big,
        &bytes(alloc, items(member(v, "bytes")?)?)?,
    )
}

fn taken(alloc: Global, dtype: Dtype, big: bool, bytes: &[u8]) -> Result<String, Fault> {
    if bytes.len() != dtype.byte_count() {
        return Err(Fault::Line);
    }
    told(alloc, &dtype.number(take_word(dtype, big, bytes)))
}

fn placed(alloc: Global, v: &Value, shape: &[u64]) -> Result<String, Fault> {
    let order = order(v)?;
    let index = sizes(alloc, v, "index")?;
    if !is_inside(shape, &index) || count_cells(shape, 1 << 24).is_none() {
        return Err(Fault::Line);
    }
    told(alloc, &place(shape, order, &index))
}

fn indexed(alloc: Global, v: &Value, shape: &[u64]) -> Result<String, Fault> {
    let order = order(v)?;
    let at = number(v, "place")? as usize;
    let Some(count) = count_cells(shape, 1 << 24) else {
        return Err(Fault::Line);
    };
    if count as usize <= at {
        return Err(Fault::Line);
    }
    let mut index = vec![in alloc; 0u64; shape.len()]?;
    index_of(shape, order, at, index.as_mut_slice());
    told(alloc, &index.as_slice())
}

fn counted(alloc: Global, v: &Value, shape: &[u64]) -> Result<String, Fault> {
    told(alloc, &count_cells(shape, number(v, "limit")?))
}
