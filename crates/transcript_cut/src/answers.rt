// The answer at the front of a text.
ghost use Rattle.std.specs.Prelude.{◌≡◌, ◌↔◌, pos, Some, IfOk, IsTrue, option_map, option_and_then, unwrap_or, false, codes};
ghost use Rattle.serde_json.specs.View.{view};
ghost use Rattle.serde_json.specs.Find.{get, as_bool};
ghost use Rattle.json_forms.specs.Bytes.{data_of};
ghost use Rattle.json_forms.specs.Numbers.{whole_number};
ghost use Rattle.transcript_laws.specs.Unchecked.{is_memory_answer};
ghost use Rattle.transcript_cut.specs.Judged.{IsAnswerOf, IsJudged, plain_judged, plain_kept};
ghost use Rattle.transcript_cut.specs.Keeping.{IsKeptOf};
ghost use Rattle.transcript_cut.specs.Fronts.{IsFront};

use crate::compact::is_compact;
use crate::line_end::line_end;
use crate::numbers::{EventNumbers, numbers_in};
use crate::plain::{Plain, plain_line};
use crate::said::KeptAnswer;
use json_forms::{ParseError, has_exactly, parse, whole_number};
use serde_json::Value;
use std::alloc::{AllocError, Global};

/// What the line at the front of a text is.
#[derive(Drop)]
pub enum Front {
    /// An answer to the line of the number: how many bytes it has, with its LF, what it prints, and what it reads as, where it is short and has values.
    Answer {
        length: usize,
        numbers: EventNumbers,
        answer: Option<KeptAnswer>,
    },
    /// An answer of want of memory.
    Memory,
    /// Neither.
    Other,
}

/// What a line is, without its LF.
#[derive(Drop)]
pub enum Judged {
    Answer {
        numbers: EventNumbers,
        answer: Option<KeptAnswer>,
    },
    Memory,
    Other,
}

/// What stands at the front of a text: the answer to the line of a number, want of memory, or neither.
pub fn front_of(alloc: Global, text: &[u8], number: u64) -> Result<Front, AllocError>
    ensures { IfOk result (IsFront text.now number) }
{
    let end = line_end(text);
    if end == text.len() {
        return Ok(Front::Other);
    }
    let (line, _) = text.split_at(end);
    match judge(alloc, line, number) {
        Ok(Judged::Answer { numbers, answer }) => Ok(Front::Answer {
            length: end + 1,
            numbers,
            answer,
        }),
        Ok(Judged::Memory) => Ok(Front::Memory),
        Ok(Judged::Other) => Ok(Front::Other),
        Err(e) => Err(e),
    }
}

// What a line without an LF is.
fn judge(alloc: Global, bytes: &[u8], number: u64) -> Result<Judged, AllocError>
    ensures { IfOk result (IsJudged bytes.now number) }
{
    match plain_line(alloc, bytes, number) {
        Ok(Some(plain)) => judge_plain(alloc, plain, number),
        Ok(None) => judge_json(alloc, bytes, number),
        Err(e) => Err(e),
    }
}

// What a line is that its bytes tell.
fn judge_plain(alloc: Global, plain: Plain, number: u64) -> Result<Judged, AllocError>
    ensures { IfOk result (λ judged. judged ≡ plain_judged plain number) }
{
    match plain.numbers(alloc) {
        Ok(numbers) => Ok(Judged::Answer {
            numbers,
            answer: kept_plain(plain, number),
        }),
        Err(e) => Err(e),
    }
}

// What is kept of it.
fn kept_plain(plain: Plain, number: u64) -> Option<KeptAnswer>
    ensures { result ≡ plain_kept plain number }
{
    match plain {
        Plain::Cell { word } => Some(KeptAnswer::Cell { line: number, word }),
        _ => None,
    }
}

// What any other line is.
fn judge_json(alloc: Global, bytes: &[u8], number: u64) -> Result<Judged, AllocError>
    ensures { IfOk result (IsJudged bytes.now number) }
{
    match parse(alloc, bytes) {
        Ok(value) => judge_value(alloc, bytes, value, number),
        Err(ParseError::NotJson) => Ok(Judged::Other),
        Err(ParseError::Memory) => Err(AllocError),
    }
}

// The same of the value that the bytes are.
fn judge_value(alloc: Global, bytes: &[u8], value: Value, number: u64) -> Result<Judged, AllocError>
    requires { data_of bytes.now ≡ Some (view value) }
    ensures { IfOk result (IsJudged bytes.now number) }
{
    if is_memory_answer(&value) {
        return Ok(Judged::Memory);
    }
    if !is_answer(bytes, &value, number) {
        return Ok(Judged::Other);
    }
    match numbers_in(alloc, &value) {
        Ok(numbers) => Ok(Judged::Answer {
            numbers,
            answer: kept_answer(value, bytes),
        }),
        Err(e) => Err(e),
    }
}

// What is kept of an answer of these bytes: itself, where it has values and is short, so that it need not be read again. Others are seldom looked
// at again, and a value in memory takes many times the room of its text.
fn kept_answer(value: Value, bytes: &[u8]) -> Option<KeptAnswer>
    ensures { IsKeptOf (view value) result }
{
    if bytes.len() <= 256 && value.get("values").is_some() {
        Some(KeptAnswer::Whole { value })
    } else {
        None
    }
}

// Whether the value is an object that says that memory was wanting, and no more.
fn is_memory_answer(value: &Value) -> bool
    ensures { result ≡ is_memory_answer (view value.now) }
{
    has_exactly(value, &["line", "memory"]) && is_true(value.get("memory"))
}

fn is_true(value: Option<&Value>) -> bool
    ensures { result ≡ unwrap_or (option_and_then as_bool (option_map (λ v. view v.now) value.entry)) false }
{
    match value {
        Some(value) => value.as_bool().unwrap_or(false),
        None => false,
    }
}

// Whether the bytes, which are this value, are a compact object with the number of the line.
fn is_answer(bytes: &[u8], value: &Value, number: u64) -> bool
    ensures { IsTrue result ↔ IsAnswerOf bytes.now number (view value.now) }
{
    value.is_object() && is_compact(bytes) && has_number(value, number)
}

fn has_number(value: &Value, number: u64) -> bool
    ensures { IsTrue result ↔ (option_and_then whole_number (get (codes "line") (view value.now)) ≡ Some (pos number)) }
{
    match value.get("line") {
        Some(found) => match whole_number(found) {
            Some(whole) => whole == number as i128,
            None => false,
        },
        None => false,
    }
}
