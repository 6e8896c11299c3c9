// What is asked of an array, against what is found; arrays that are made as they are asked.
use crate::asking::want;
use crate::forms::{read, written};
use case_lines::{Fault, said, sizes, text, told};
use chunk_forms::{Form, MadeError, Want, default_chunks, is_small, made, mismatch};
use serde_json::Value;
use std::alloc::Global;

pub(crate) fn answer(alloc: Global, call: &str, v: &Value) -> Result<String, Fault> {
    match call {
        "chunks" => chunks(alloc, &sizes(alloc, v, "shape")?),
        "mismatch" => compared(alloc, &want(alloc, v)?, v),
        "made" => made_of(alloc, &want(alloc, v)?),
        _ => Err(Fault::Line),
    }
}

// The default sizes of a chunk, and whether they are few enough.
fn chunks(alloc: Global, shape: &[u64]) -> Result<String, Fault> {
    let chunks = default_chunks(alloc, shape)?;
    told(alloc, &(is_small(&chunks), chunks.as_slice()))
}

// The first member in which found metadata differs, or `none`.
fn compared(alloc: Global, want: &Want, v: &Value) -> Result<String, Fault> {
    match read(alloc, text(v, "found")?, text(v, "meta")?) {
        Ok(form) => differing(alloc, want, &form, v),
        Err(_) => Err(Fault::Line),
    }
}

fn differing(alloc: Global, want: &Want, form: &Form, v: &Value) -> Result<String, Fault> {
    let shape = sizes(alloc, v, "shape")?;
    match mismatch(want, form, &shape) {
        Some(name) => said(alloc, name),
        None => said(alloc, "none"),
    }
}

// The metadata of an array that is made, or the member that it lacks.
fn made_of(alloc: Global, want: &Want) -> Result<String, Fault> {
    match made(alloc, want) {
        Ok(form) => written(alloc, &form),
        Err(MadeError::Undetermined { member }) => {
            let name = member.name();
            Ok(format!(in alloc; "undetermined {name}")?)
        }
        Err(MadeError::Memory) => Err(Fault::Memory),
    }
}
