// Casts between dtypes, and chains of them.
ghost use Rattle.std.specs.Prelude.{◌≡◌};

use case_lines::{Fault, dtype, member, number, told, word_of};
use cast_driver::{Cast, Chain};
use cells::Dtype;
use serde_json::Value;
use std::alloc::Global;

pub(crate) fn answer(alloc: Global, call: &str, v: &Value) -> Result<String, Fault> {
    match call {
        "out" => shown(
            alloc,
            dtype(v, "from")?,
            dtype(v, "to")?,
            member(v, "word")?,
        ),
        "back" => kept(
            alloc,
            dtype(v, "from")?,
            dtype(v, "to")?,
            member(v, "word")?,
        ),
        "none" => none(alloc, number(v, "word")?),
        _ => through(alloc, call, v),
    }
}

fn shown(alloc: Global, from: Dtype, to: Dtype, value: &Value) -> Result<String, Fault> {
    let word = word_of(from, value)?;
    told(alloc, &to.number(Cast { from, to }.out(word)))
}

fn kept(alloc: Global, from: Dtype, to: Dtype, value: &Value) -> Result<String, Fault> {
    let word = word_of(to, value)?;
    told(alloc, &from.number(Cast { from, to }.back(word)))
}

// The word that a chain of no cast shows.
fn none(alloc: Global, word: u64) -> Result<String, Fault> {
    told(alloc, &Chain::new(alloc).out(word))
}

// Two casts: kept as the first dtype, shown as the second and then as the third.
fn through(alloc: Global, call: &str, v: &Value) -> Result<String, Fault> {
    let chain = chain(
        alloc,
        dtype(v, "from")?,
        dtype(v, "through")?,
        dtype(v, "to")?,
    )?;
    chained(alloc, call, &chain, number(v, "word")?)
}

fn chain(alloc: Global, from: Dtype, through: Dtype, to: Dtype) -> Result<Chain, Fault> {
    let mut chain = Chain::new(alloc);
    chain.push(Cast { from, to: through })?;
    chain.push(Cast { from: through, to })?;
    Ok(chain)
}

fn chained(alloc: Global, call: &str, chain: &Chain, word: u64) -> Result<String, Fault> {
    match call {
        "chain_out" => told(alloc, &chain.out(word)),
        "chain_back" => told(alloc, &chain.back(word)),
        "chain" => told(alloc, &chain.casts().len()),
        _ => Err(Fault::Line),
    }
}
