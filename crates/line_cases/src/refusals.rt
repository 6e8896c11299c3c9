// Answers to what refuses a line.
use crate::args::{half, name, numbers, small};
use crate::printing::printed;
use case_lines::{Fault, mount_names, number, text};
use cells::Name;
use chunk_elements::ChunkError;
use chunk_forms::Damage;
use line_answers::{bad_metadata, damaged, refusal};
use line_forms::{LineError, read_command};
use meta_forms::MetaError;
use n5_blocks::BlockError;
use serde_json::Value;
use std::alloc::Global;

/// The answer to a line of a script that is no command; the mounts are `memory` and `file`.
pub(crate) fn of_script(alloc: Global, line: u64, text: &str) -> Result<String, Fault> {
    let error = error_in(alloc, text)?;
    answered(alloc, line, error)
}

fn error_in(alloc: Global, text: &str) -> Result<LineError, Fault> {
    let names = mount_names(alloc)?;
    error_of(alloc, text, &names)
}

fn error_of(alloc: Global, text: &str, names: &[Name]) -> Result<LineError, Fault> {
    match read_command(alloc, text.as_bytes(), names) {
        Ok(_) => Err(Fault::Line),
        Err(error) => Ok(error),
    }
}

fn answered(alloc: Global, line: u64, error: LineError) -> Result<String, Fault> {
    printed(alloc, line, refusal(alloc, error)?)
}

/// The answer to stored metadata that is none.
pub(crate) fn of_metadata(alloc: Global, line: u64, v: &Value) -> Result<String, Fault> {
    let cause = meta_error(alloc, v)?;
    at_key(alloc, line, v, cause)
}

fn at_key(alloc: Global, line: u64, v: &Value, cause: MetaError) -> Result<String, Fault> {
    let key = name(alloc, v, "key")?;
    with_events(alloc, line, v, (cause, key))
}

fn with_events(
    alloc: Global,
    line: u64,
    v: &Value,
    parts: (MetaError, Name),
) -> Result<String, Fault> {
    let events = numbers(alloc, v, "events")?;
    let (cause, key) = parts;
    printed(alloc, line, bad_metadata(key, cause, events))
}

fn meta_error(alloc: Global, v: &Value) -> Result<MetaError, Fault> {
    match text(v, "cause")? {
        "NotJson" => Ok(MetaError::NotJson),
        "BadMember" => Ok(MetaError::BadMember {
            name: name(alloc, v, "name")?,
        }),
        "Unsupported" => Ok(MetaError::Unsupported {
            name: name(alloc, v, "name")?,
        }),
        "Memory" => Ok(MetaError::Memory),
        _ => Err(Fault::Line),
    }
}

/// The answer to stored bytes that are no chunk.
pub(crate) fn of_chunk(alloc: Global, line: u64, v: &Value) -> Result<String, Fault> {
    let cause = damage(v)?;
    let key = name(alloc, v, "key")?;
    printed(alloc, line, damaged(key, cause))
}

fn damage(v: &Value) -> Result<Damage, Fault> {
    match text(v, "form")? {
        "zarr" => Ok(Damage::Zarr {
            cause: chunk_error(v)?,
        }),
        "n5" => Ok(Damage::N5 {
            cause: block_error(v)?,
        }),
        _ => Err(Fault::Line),
    }
}

fn chunk_error(v: &Value) -> Result<ChunkError, Fault> {
    match text(v, "cause")? {
        "WrongLength" => Ok(ChunkError::WrongLength {
            have: number(v, "have")?,
            want: number(v, "want")?,
        }),
        "Memory" => Ok(ChunkError::Memory),
        _ => Err(Fault::Line),
    }
}

fn block_error(v: &Value) -> Result<BlockError, Fault> {
    match text(v, "cause")? {
        "WrongMode" => Ok(BlockError::WrongMode {
            have: half(v, "have")?,
        }),
        "WrongRank" => Ok(BlockError::WrongRank {
            have: half(v, "have")?,
        }),
        "WrongSize" => Ok(BlockError::WrongSize {
            dim: small(v, "dim")?,
            have: small(v, "have")?,
        }),
        "WrongLength" => Ok(BlockError::WrongLength {
            have: number(v, "have")?,
            want: number(v, "want")?,
        }),
        "Memory" => Ok(BlockError::Memory),
        _ => Err(Fault::Line),
    }
}
