// JSON between bytes and data.
ghost use Rattle.std.specs.Prelude.{◌≡◌, false};
ghost use Rattle.serde_json.specs.View.{view};
ghost use Rattle.serde_json.specs.Written.{has_float};

use case_lines::{Fault, bytes, items, member, number, numbers_of, said, sizes_of, text, told};
use json_forms::{
    ParseError, compact, has_exactly, i64_list, least_unknown, list_from_i64s, list_from_u64s,
    list_items, parse, u64_list, whole_list, whole_number,
};
use serde_json::{Map, Value, put};
use std::alloc::Global;

pub(crate) fn answer(alloc: Global, call: &str, v: &Value) -> Result<String, Fault> {
    match call {
        "nested" => nested(alloc, v),
        "object" => object(alloc),
        "bytes" => parsed(alloc, &bytes(alloc, items(member(v, "bytes")?)?)?),
        _ => of_text(alloc, call, v),
    }
}

fn of_text(alloc: Global, call: &str, v: &Value) -> Result<String, Fault> {
    match parse(alloc, text(v, "text")?.as_bytes()) {
        Ok(value) => of_value(alloc, call, &value, v),
        Err(ParseError::NotJson) => said(alloc, "not json"),
        Err(ParseError::Memory) => Err(Fault::Memory),
    }
}

fn parsed(alloc: Global, bytes: &[u8]) -> Result<String, Fault> {
    match parse(alloc, bytes) {
        Ok(_) => said(alloc, "json"),
        Err(ParseError::NotJson) => said(alloc, "not json"),
        Err(ParseError::Memory) => Err(Fault::Memory),
    }
}

// Whether so many nested lists are JSON.
fn nested(alloc: Global, v: &Value) -> Result<String, Fault> {
    let depth = number(v, "depth")?;
    let mut text = String::new(alloc);
    for _ in 0..depth {
        text.push('[')?;
    }
    for _ in 0..depth {
        text.push(']')?;
    }
    parsed(alloc, text.as_bytes())
}

fn of_value(alloc: Global, call: &str, value: &Value, v: &Value) -> Result<String, Fault> {
    match call {
        "whole" => told(alloc, &whole_number(value)),
        "items" => told(alloc, &list_items(value).map(|items| items.len())),
        "whole_list" => told(alloc, &whole_list(alloc, value)?),
        "u64_list" => told(alloc, &u64_list(alloc, value)?),
        "i64_list" => told(alloc, &i64_list(alloc, value)?),
        "u64s" => again_u64s(alloc, value),
        "i64s" => again_i64s(alloc, value),
        "unknown" => unknown(alloc, value, text(v, "known")?),
        "exactly" => exactly(alloc, value, text(v, "known")?),
        _ => Err(Fault::Line),
    }
}

fn again_u64s(alloc: Global, value: &Value) -> Result<String, Fault> {
    let numbers = sizes_of(alloc, value)?;
    Ok(list_from_u64s(alloc, &numbers)?.to_string(alloc)?)
}

fn again_i64s(alloc: Global, value: &Value) -> Result<String, Fault> {
    let numbers = numbers_of(alloc, value)?;
    Ok(list_from_i64s(alloc, &numbers)?.to_string(alloc)?)
}

fn unknown(alloc: Global, value: &Value, known: &str) -> Result<String, Fault> {
    match known {
        "open" => told(alloc, &least_unknown(value, &["open"])),
        "open a" => told(alloc, &least_unknown(value, &["open", "a"])),
        "b2 b10 a open" => told(alloc, &least_unknown(value, &["b2", "b10", "a", "open"])),
        _ => Err(Fault::Line),
    }
}

fn exactly(alloc: Global, value: &Value, known: &str) -> Result<String, Fault> {
    match known {
        "" => told(alloc, &has_exactly(value, &[])),
        "b2 b10 a" => told(alloc, &has_exactly(value, &["b2", "b10", "a"])),
        "b2 b10 a open" => told(alloc, &has_exactly(value, &["b2", "b10", "a", "open"])),
        "b2 b10 a open spec" => told(
            alloc,
            &has_exactly(value, &["b2", "b10", "a", "open", "spec"]),
        ),
        _ => Err(Fault::Line),
    }
}

// An object is written with its members in byte order.
fn object(alloc: Global) -> Result<String, Fault> {
    let mut members = Map::new(alloc);
    put(
        &mut members,
        alloc,
        "origin",
        list_from_i64s(alloc, &[i64::MIN, 0])?,
    )?;
    put(&mut members, alloc, "line", Value::from(3u64))?;
    put(
        &mut members,
        alloc,
        "events",
        list_from_u64s(alloc, &[u64::MAX])?,
    )?;
    written(alloc, &Value::Object(members))
}

fn written(alloc: Global, value: &Value) -> Result<String, Fault>
    requires { has_float (view value.now) ≡ false }
{
    let bytes = compact(alloc, value)?;
    match str::from_utf8(&bytes) {
        Ok(text) => said(alloc, text),
        Err(_) => Err(Fault::Line),
    }
}
