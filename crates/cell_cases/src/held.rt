// What other types hold: chunks of numbers, lists, texts.
use case_lines::{Fault, dtype, member, number, numbers_of, sizes, text, told, word_of};
use cells::{Boxed, Dense, Index, List, Name, Sizes, Words, WrittenWords, count_cells};
use serde_json::Value;
use std::alloc::Global;

/// The most cells of a chunk that a line fills.
const MOST: u64 = 1 << 16;

pub(crate) fn answer(alloc: Global, call: &str, v: &Value) -> Result<String, Fault> {
    match call {
        "set" => set(alloc, v),
        "list" => list(alloc, sizes(alloc, v, "items")?),
        "words" => told(alloc, &Words::wrap(sizes(alloc, v, "items")?).items()),
        "sizes" => told(alloc, &Sizes::wrap(sizes(alloc, v, "items")?).items()),
        "index" => index(alloc, member(v, "items")?),
        "box" => told(alloc, &Boxed::new(alloc, number(v, "item")?)?.into_inner()),
        "before" => before(alloc, v),
        "written" => written(alloc, &WrittenWords::each(sizes(alloc, v, "items")?)),
        "written_alike" => written_alike(alloc, number(v, "item")?, number(v, "count")?),
        _ => Err(Fault::Line),
    }
}

// A filled chunk, and whether it is as before once a number was put into it.
fn set(alloc: Global, v: &Value) -> Result<String, Fault> {
    let filled = filled(alloc, v)?;
    changed(alloc, &filled, v)
}

fn filled(alloc: Global, v: &Value) -> Result<Dense, Fault> {
    let dtype = dtype(v, "dtype")?;
    let word = word_of(dtype, member(v, "fill")?)?;
    let shape = sizes(alloc, v, "shape")?;
    if shape.len() > 32 || count_cells(&shape, MOST).is_none() {
        return Err(Fault::Line);
    }
    Ok(Dense::filled(alloc, dtype, &shape, word)?)
}

fn changed(alloc: Global, before: &Dense, v: &Value) -> Result<String, Fault> {
    let place = usize::try_from(number(v, "place")?).map_err(|_| Fault::Line)?;
    let word = word_of(before.dtype(), member(v, "number")?)?;
    if place >= before.count() {
        return Err(Fault::Line);
    }
    let mut after = before.copy(alloc)?;
    after.set(place, word);
    compared(alloc, &before.to_words(alloc)?, &after)
}

// Whether a chunk still has these words, and those that it has.
fn compared(alloc: Global, before: &[u64], after: &Dense) -> Result<String, Fault> {
    let words = after.to_words(alloc)?;
    Ok(format!(in alloc; "{} {:?}", before == words.as_slice(), words.as_slice())?)
}

// A list of which the first item gives way to 5.
fn list(alloc: Global, items: Vec<u64>) -> Result<String, Fault> {
    let mut list = List::wrap(items);
    if list.items().is_empty() {
        return Err(Fault::Line);
    }
    list.set(0, 5);
    told(alloc, &list.into_inner().as_slice())
}

fn index(alloc: Global, items: &Value) -> Result<String, Fault> {
    told(alloc, &Index::wrap(numbers_of(alloc, items)?).items())
}

// Whether one name comes before another.
fn before(alloc: Global, v: &Value) -> Result<String, Fault> {
    let one = name(alloc, v, "one")?;
    is_before(alloc, &one, v)
}

fn is_before(alloc: Global, one: &Name, v: &Value) -> Result<String, Fault> {
    let other = name(alloc, v, "other")?;
    let is_before = *one < other;
    told(alloc, &is_before)
}

// A word for each of so many cells.
fn written_alike(alloc: Global, word: u64, count: u64) -> Result<String, Fault> {
    if count > MOST {
        return Err(Fault::Line);
    }
    written(alloc, &WrittenWords::one(word, count as usize))
}

// How many words of a write there are, and each of them, of a copy.
fn written(alloc: Global, words: &WrittenWords) -> Result<String, Fault> {
    let again = words.copy(alloc)?;
    told(alloc, &(again.len(), again.to_vec(alloc)?.as_slice()))
}

fn name(alloc: Global, v: &Value, of: &str) -> Result<Name, Fault> {
    let text = text(v, of)?;
    Ok(Name::wrap(String::from_str(alloc, text)?))
}
