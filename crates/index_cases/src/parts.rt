// Intervals, domains and maps by their parts, so that what breaks the rules can be written down.
use crate::args::{flag_at, number_at};
use case_lines::{Fault, items, member, numbers_of, sizes_of, text_of};
use cells::{Index, List, Name, Sizes};
use index_intervals::{BadBounds, Interval};
use index_transform::{Domain, OutMap, Transform, TransformError};
use serde_json::Value;
use std::alloc::Global;

// `[LO, HI, LO_IMPLICIT, HI_IMPLICIT]`, both bounds included.
pub(crate) fn bounds(v: &Value) -> Result<Result<Interval, BadBounds>, Fault> {
    let lo = number_at(v, 0)?;
    let hi = number_at(v, 1)?;
    let lo_implicit = flag_at(v, 2)?;
    let hi_implicit = flag_at(v, 3)?;
    Ok(Interval::new(lo, hi, lo_implicit, hi_implicit))
}

fn interval_of(v: &Value) -> Result<Interval, Fault> {
    bounds(v)?.map_err(|_| Fault::Line)
}

pub(crate) fn interval(v: &Value, name: &str) -> Result<Interval, Fault> {
    interval_of(member(v, name)?)
}

pub(crate) fn dims(alloc: Global, v: &Value) -> Result<Vec<Interval>, Fault> {
    let mut dims = Vec::new(alloc);
    for item in items(v)? {
        dims.push(interval_of(item)?)?;
    }
    Ok(dims)
}

fn label(alloc: Global, v: &Value) -> Result<Name, Fault> {
    Ok(Name::wrap(String::from_str(alloc, text_of(v)?)?))
}

fn labels(alloc: Global, v: &Value) -> Result<Vec<Name>, Fault> {
    let mut labels = Vec::new(alloc);
    for item in items(v)? {
        labels.push(label(alloc, item)?)?;
    }
    Ok(labels)
}

fn domain(alloc: Global, v: &Value) -> Result<Domain, Fault> {
    let dims = dims(alloc, member(v, "dims")?)?;
    let labels = labels(alloc, member(v, "labels")?)?;
    Ok(Domain {
        dims: List::wrap(dims),
        labels: List::wrap(labels),
    })
}

fn strided(v: &Value) -> Result<OutMap, Fault> {
    Ok(OutMap::Strided {
        offset: number_at(v, 0)?,
        stride: number_at(v, 1)?,
        dim: u32::try_from(number_at(v, 2)?).map_err(|_| Fault::Line)?,
    })
}

fn indexed(alloc: Global, v: &Value) -> Result<OutMap, Fault> {
    Ok(OutMap::Indexed {
        offset: number_at(v, 0)?,
        stride: number_at(v, 1)?,
        sizes: Sizes::wrap(sizes_of(alloc, v.get(2).ok_or(Fault::Line)?)?),
        entries: Index::wrap(numbers_of(alloc, v.get(3).ok_or(Fault::Line)?)?),
    })
}

// `[OFFSET]`, `[OFFSET, STRIDE, DIM]` or `[OFFSET, STRIDE, SIZES, ENTRIES]`.
fn map(alloc: Global, v: &Value) -> Result<OutMap, Fault> {
    match items(v)?.len() {
        1 => Ok(OutMap::Constant {
            offset: number_at(v, 0)?,
        }),
        3 => strided(v),
        _ => indexed(alloc, v),
    }
}

fn maps(alloc: Global, v: &Value) -> Result<Vec<OutMap>, Fault> {
    let mut maps = Vec::new(alloc);
    for item in items(v)? {
        maps.push(map(alloc, item)?)?;
    }
    Ok(maps)
}

// `"dims":[INTERVAL, ..],"labels":[TEXT, ..],"maps":[MAP, ..]`.
pub(crate) fn made(alloc: Global, v: &Value) -> Result<Result<Transform, TransformError>, Fault> {
    let maps = maps(alloc, member(v, "maps")?)?;
    Ok(Transform::new(domain(alloc, v)?, maps))
}
