ghost use Rattle.std.specs.Prelude.{◌↔◌, IsTrue};
ghost use Rattle.std.specs.Option.{ForSome};
ghost use Rattle.index_intervals.specs.Bounds.{IsIndex};

use crate::args::number_or_none;
use crate::parts::{bounds, dims, interval};
use case_lines::{Fault, integer, member, told};
use index_intervals::{Interval, around_all, is_index};
use serde_json::Value;
use std::alloc::Global;

pub(crate) fn answer(alloc: Global, call: &str, v: &Value) -> Result<String, Fault> {
    if call == "new" {
        return told(alloc, &bounds(member(v, "of")?)?);
    }
    if call == "around_all" {
        return around(alloc, member(v, "of")?);
    }
    let of = interval(v, "of")?;
    match call {
        "contains" => told(alloc, &of.contains(integer(v, "x")?)),
        "effective" => told(alloc, &of.effective()),
        "meet" => told(alloc, &of.meet(&interval(v, "and")?)),
        "around" => told(alloc, &of.around(&interval(v, "and")?)),
        "has_index" => told(alloc, &of.has_index()),
        "size" => size(alloc, &of),
        "shift" => told(alloc, &of.shift(integer(v, "by")?)),
        "strided" => strided(alloc, &of, integer(v, "by")?),
        "slice" => slice(alloc, &of, v),
        _ => Err(Fault::Line),
    }
}

fn around(alloc: Global, v: &Value) -> Result<String, Fault> {
    let dims = dims(alloc, v)?;
    told(alloc, &around_some(&dims)?)
}

fn around_some(dims: &[Interval]) -> Result<Interval, Fault> {
    if dims.is_empty() {
        return Err(Fault::Line);
    }
    Ok(around_all(dims))
}

fn size(alloc: Global, of: &Interval) -> Result<String, Fault> {
    if !of.is_finite() {
        return Err(Fault::Line);
    }
    told(alloc, &of.size())
}

fn strided(alloc: Global, of: &Interval, by: i64) -> Result<String, Fault> {
    if !is_index(by.into()) {
        return Err(Fault::Line);
    }
    told(alloc, &of.strided(by))
}

fn is_part(part: Option<i64>) -> bool
    ensures { IsTrue result ↔ ForSome part IsIndex }
{
    match part {
        None => true,
        Some(x) => is_index(x.into()),
    }
}

fn slice(alloc: Global, of: &Interval, v: &Value) -> Result<String, Fault> {
    let start = number_or_none(v, "start")?;
    let stop = number_or_none(v, "stop")?;
    let step = integer(v, "step")?;
    if !is_part(start) || !is_part(stop) || !is_index(step.into()) {
        return Err(Fault::Line);
    }
    told(alloc, &of.slice(start, stop, step))
}
