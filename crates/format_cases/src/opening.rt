// What opening a leaf gives: metadata from stored bytes, and what it is asked against.
use crate::asking::want;
use crate::homes::{info, written};
use array_homes::{Decided, FormReadError, OpeningRefusal, check, decide, read_form};
use case_lines::{Fault, flag, member, sizes_of, text, told};
use chunk_forms::{Form, Want};
use history::ArrayInfo;
use serde_json::Value;
use std::alloc::Global;

pub(crate) fn answer(alloc: Global, call: &str, v: &Value) -> Result<String, Fault> {
    let want = want(alloc, v)?;
    of_want(alloc, call, &want, v)
}

fn of_want(alloc: Global, call: &str, want: &Want, v: &Value) -> Result<String, Fault> {
    match call {
        "read" => read_bytes(alloc, want, stored(v)?),
        "decide" => decided(alloc, want, flag(v, "open")?, flag(v, "create")?, v),
        "check" => checked(alloc, want, flag(v, "open")?, v),
        _ => Err(Fault::Line),
    }
}

// The bytes of the member `stored`.
fn stored(v: &Value) -> Result<&[u8], Fault> {
    Ok(text(v, "stored")?.as_bytes())
}

fn read_bytes(alloc: Global, want: &Want, bytes: &[u8]) -> Result<String, Fault> {
    let answer = read_form(alloc, want, bytes);
    told_form(alloc, &answer)
}

fn told_form(alloc: Global, answer: &Result<Form, FormReadError>) -> Result<String, Fault> {
    match answer {
        Ok(form) => written(alloc, form),
        Err(FormReadError::Bad { cause }) => told(alloc, cause),
        Err(FormReadError::Memory) => Err(Fault::Memory),
    }
}

// The stored bytes are null where the store has none.
fn decided(
    alloc: Global,
    want: &Want,
    open: bool,
    create: bool,
    v: &Value,
) -> Result<String, Fault> {
    if member(v, "stored")?.is_null() {
        return decided_by(alloc, want, open, create, None);
    }
    decided_by(alloc, want, open, create, Some(stored(v)?))
}

fn decided_by(
    alloc: Global,
    want: &Want,
    open: bool,
    create: bool,
    bytes: Option<&[u8]>,
) -> Result<String, Fault> {
    let answer = decide(alloc, want, open, create, bytes);
    told_decision(alloc, &answer)
}

fn told_decision(alloc: Global, answer: &Result<Decided, OpeningRefusal>) -> Result<String, Fault> {
    match answer {
        Ok(Decided::Found { form }) => written(alloc, form),
        Ok(Decided::Made { form }) => made(alloc, form),
        Err(refusal) => told(alloc, refusal),
    }
}

fn made(alloc: Global, form: &Form) -> Result<String, Fault> {
    let text = written(alloc, form)?;
    Ok(format!(in alloc; "made {text}")?)
}

fn checked(alloc: Global, want: &Want, open: bool, v: &Value) -> Result<String, Fault> {
    check_array(alloc, want, open, member(v, "array")?, member(v, "shape")?)
}

fn check_array(
    alloc: Global,
    want: &Want,
    open: bool,
    array: &Value,
    shape: &Value,
) -> Result<String, Fault> {
    let info = info(alloc, array)?;
    check_info(alloc, want, open, &info, shape)
}

fn check_info(
    alloc: Global,
    want: &Want,
    open: bool,
    info: &ArrayInfo,
    shape: &Value,
) -> Result<String, Fault> {
    let shape = sizes_of(alloc, shape)?;
    told(alloc, &check(alloc, want, open, &info.home, &shape))
}
