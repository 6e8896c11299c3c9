// What an answer reads as.
ghost use Rattle.std.specs.Prelude.{◌≡◌, codes, IfOk, option_map};
ghost use Rattle.serde_json.specs.Find.{get};
ghost use Rattle.serde_json.specs.View.{view as data_in};
ghost use Rattle.stated_acts.specs.SaidAnswers.{cell_values, data_of_text, data_read, data_said, said_cell, values_said};

use json_forms::parse;
use serde_json::{Value, json};
use std::alloc::{AllocError, Global};

/// An answer: what it reads as, where that is kept; the number of its line and the one cell that it tells, as a word of `int64`; or its text
/// without the LF, which is read where it is asked for.
#[derive(Clone, Copy)]
pub enum SaidAnswer<'a> {
    Kept { answer: &'a Value },
    Cell { line: u64, word: u64 },
    Text { bytes: &'a [u8] },
}

/// What an answer reads as: as it was kept, or as it was read now.
#[derive(Drop)]
pub enum ReadAnswer<'a> {
    Kept { answer: &'a Value },
    Again { answer: Value },
}

/// The values that an answer tells: those of an answer that was kept or read now, or the number of a cell.
#[derive(Drop)]
pub enum SaidValues<'a> {
    Kept { answer: &'a Value },
    Again { answer: Value },
    Cell { number: Value },
}

impl<'a> SaidAnswer<'a> {
    /// What it reads as.
    ///
    /// # Errors
    /// An allocation failed, or the text is no JSON.
    pub fn read(&self, alloc: Global) -> Result<ReadAnswer<'a>, AllocError>
        ensures { IfOk result (λ read. data_read read ≡ data_said self.now) }
    {
        match *self {
            SaidAnswer::Kept { answer } => Ok(ReadAnswer::Kept { answer }),
            SaidAnswer::Cell { line, word } => read_cell(alloc, line, word),
            SaidAnswer::Text { bytes } => read_text(alloc, bytes),
        }
    }

    /// The values that it tells.
    ///
    /// # Errors
    /// An allocation failed, or the text is no JSON.
    pub fn values(&self, alloc: Global) -> Result<SaidValues<'a>, AllocError>
        ensures { IfOk result (λ values. values_said values ≡ get (codes "values") (data_said self.now)) }
    {
        match *self {
            SaidAnswer::Kept { answer } => Ok(SaidValues::Kept { answer }),
            SaidAnswer::Cell { line: _, word } => Ok(SaidValues::Cell {
                number: number_of_cell(word),
            }),
            SaidAnswer::Text { bytes } => values_in(alloc, bytes),
        }
    }
}

// The number of a cell.
fn number_of_cell(word: u64) -> Value
    ensures { data_in result ≡ cell_values word }
{
    Value::from(word.cast_signed())
}

// The answer that tells a cell.
fn read_cell<'a>(alloc: Global, line: u64, word: u64) -> Result<ReadAnswer<'a>, AllocError>
    ensures { IfOk result (λ read. data_read read ≡ said_cell line word) }
{
    let number = word.cast_signed();
    match json!(in alloc; { "line": line, "origin": [], "values": number }) {
        Ok(answer) => Ok(ReadAnswer::Again { answer }),
        Err(e) => Err(e),
    }
}

fn read_text<'a>(alloc: Global, bytes: &[u8]) -> Result<ReadAnswer<'a>, AllocError>
    ensures { IfOk result (λ read. data_read read ≡ data_of_text bytes.now) }
{
    match parse(alloc, bytes) {
        Ok(answer) => Ok(ReadAnswer::Again { answer }),
        Err(_) => Err(AllocError),
    }
}

fn values_in<'a>(alloc: Global, bytes: &[u8]) -> Result<SaidValues<'a>, AllocError>
    ensures { IfOk result (λ values. values_said values ≡ get (codes "values") (data_of_text bytes.now)) }
{
    match parse(alloc, bytes) {
        Ok(answer) => Ok(SaidValues::Again { answer }),
        Err(_) => Err(AllocError),
    }
}

impl ReadAnswer<'_> {
    /// The value.
    pub fn value(&self) -> &Value
        ensures { data_in result.now ≡ data_read self.now }
    {
        match self {
            ReadAnswer::Kept { answer } => answer,
            ReadAnswer::Again { answer } => answer,
        }
    }
}

impl SaidValues<'_> {
    /// The values, where there are any.
    pub fn get(&self) -> Option<&Value>
        ensures { option_map (λ v. data_in v.now) result ≡ values_said self.now }
    {
        match self {
            SaidValues::Kept { answer } => answer.get("values"),
            SaidValues::Again { answer } => answer.get("values"),
            SaidValues::Cell { number } => Some(number),
        }
    }
}
