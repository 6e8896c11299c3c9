// The members of an answer, by their names.
use case_lines::{Fault, member, number, numbers_of, sizes_of, text};
use cells::{Index, List, Name, Sizes, Words};
use serde_json::Value;
use std::alloc::Global;

pub(crate) fn small(v: &Value, name: &str) -> Result<u32, Fault> {
    match u32::try_from(number(v, name)?) {
        Ok(number) => Ok(number),
        Err(_) => Err(Fault::Line),
    }
}

pub(crate) fn half(v: &Value, name: &str) -> Result<u16, Fault> {
    match u16::try_from(number(v, name)?) {
        Ok(number) => Ok(number),
        Err(_) => Err(Fault::Line),
    }
}

pub(crate) fn name(alloc: Global, v: &Value, name: &str) -> Result<Name, Fault> {
    let text = text(v, name)?;
    Ok(Name::wrap(String::from_str(alloc, text)?))
}

pub(crate) fn numbers(alloc: Global, v: &Value, name: &str) -> Result<List<u64>, Fault> {
    Ok(List::wrap(case_lines::sizes(alloc, v, name)?))
}

/// The numbers of a member, if it is there.
pub(crate) fn numbers_if(alloc: Global, v: &Value, name: &str) -> Result<Option<List<u64>>, Fault> {
    match v.get(name) {
        Some(list) => Ok(Some(List::wrap(sizes_of(alloc, list)?))),
        None => Ok(None),
    }
}

pub(crate) fn sizes(alloc: Global, v: &Value, name: &str) -> Result<Sizes, Fault> {
    Ok(Sizes::wrap(case_lines::sizes(alloc, v, name)?))
}

pub(crate) fn words(alloc: Global, v: &Value, name: &str) -> Result<Words, Fault> {
    Ok(Words::wrap(case_lines::sizes(alloc, v, name)?))
}

pub(crate) fn index(alloc: Global, v: &Value, name: &str) -> Result<Index, Fault> {
    Ok(Index::wrap(numbers_of(alloc, member(v, name)?)?))
}
