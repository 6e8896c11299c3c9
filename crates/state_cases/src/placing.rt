// Where arrays lie.
use case_lines::{Fault, items, member, text_of, told};
use locations::{Found, Locations};
use serde_json::Value;
use std::alloc::Global;

pub(crate) fn answer(alloc: Global, call: &str, v: &Value) -> Result<String, Fault> {
    match call {
        "find" => found(alloc, v),
        _ => Err(Fault::Line),
    }
}

// Puts arrays 0, 1 and so on at the locations of `at`, takes out those of `gone`, and tells what lies at, above or below each of
// `asked`.
fn found(alloc: Global, v: &Value) -> Result<String, Fault> {
    let mut places = Locations::new(alloc);
    put_all(alloc, &mut places, member(v, "at")?)?;
    remove_all(&mut places, member(v, "gone")?)?;
    ask_all(alloc, &places, member(v, "asked")?)
}

fn put_all(alloc: Global, places: &mut Locations, at: &Value) -> Result<(), Fault> {
    for (number, text) in items(at)?.iter().enumerate() {
        places.put(alloc, text_of(text)?, number as u64)?;
    }
    Ok(())
}

fn remove_all(places: &mut Locations, gone: &Value) -> Result<(), Fault> {
    for text in items(gone)? {
        places.remove(text_of(text)?);
    }
    Ok(())
}

fn ask_all(alloc: Global, places: &Locations, asked: &Value) -> Result<String, Fault> {
    let mut answers = String::new(alloc);
    for text in items(asked)? {
        ask(alloc, places, text_of(text)?, &mut answers)?;
    }
    Ok(answers)
}

fn ask(alloc: Global, places: &Locations, text: &str, answers: &mut String) -> Result<(), Fault> {
    let found = shown(alloc, &places.find(alloc, text)?)?;
    answers.push_str(found.as_str())?;
    answers.push(' ')?;
    Ok(())
}

fn shown(alloc: Global, found: &Found) -> Result<String, Fault> {
    match found {
        Found::Taken { other } => told(alloc, &other.items()),
        Found::There { number } => told(alloc, number),
        Found::Free => told(alloc, &()),
    }
}
