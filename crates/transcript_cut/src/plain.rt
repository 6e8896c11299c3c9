// Answers of few numbers, by which all went well, told by their bytes.
ghost use Rattle.std.specs.Prelude.{◌≡◌, ◌++◌, ◌∷◌, [], IfOk, OnOk, IfSome, IsTrue};
ghost use Rattle.transcript_cut.specs.Plain.{plain_body, plain_numbers, HasSmallNumbers, IsPlainText, IsPlainLine};

use crate::numbers::EventNumbers;
use cells::{Dtype, Index, List, Sizes, Words};
use std::alloc::{AllocError, Global};
use transcript_laws::{Answer, Body, render};

/// An answer of few numbers, by which all went well.
#[derive(Clone, Copy, Debug)]
pub enum Plain {
    Begun,
    Aborted,
    Staged { cells: u64 },
    Committed { event: u64 },
    Written { cells: u64, event: u64 },
    /// The one cell of a read without dimensions, as a word of `int64`.
    Cell { word: u64 },
}

/// Which of these answers a line without its LF is, to the line of a number; none where it isn't told so.
pub fn plain_line(alloc: Global, bytes: &[u8], number: u64) -> Result<Option<Plain>, AllocError>
    ensures { IfOk result (λ told. IfSome told (IsPlainLine bytes.now number)) }
{
    match guess(bytes) {
        Some(plain) => compared(alloc, bytes, number, plain),
        None => Ok(None),
    }
}

// The answer, where the bytes are its line.
fn compared(
    alloc: Global,
    bytes: &[u8],
    number: u64,
    plain: Plain,
) -> Result<Option<Plain>, AllocError>
    ensures { IfOk result (λ told. IfSome told (IsPlainLine bytes.now number)) }
{
    let text = plain.text(alloc, number)?;
    if is_line(&text, bytes) {
        Ok(Some(plain))
    } else {
        Ok(None)
    }
}

// Whether a text is these bytes with an LF.
fn is_line(text: &[u8], bytes: &[u8]) -> bool
    ensures { IsTrue result → text.now ≡ bytes.now ++ 10 ∷ [] }
{
    match text.split_last() {
        Some((last, line)) => *last == b'\n' && *line == *bytes,
        None => false,
    }
}

impl Plain {
    // Its line, with the LF.
    fn text(self, alloc: Global, number: u64) -> Result<Vec<u8>, AllocError>
        ensures { IfOk result (λ text. IsPlainText text.items number self) }
    {
        match self.body(alloc) {
            Ok(body) => {
                let answer = Answer { line: number, body };
                render(alloc, &answer)
            }
            Err(e) => Err(e),
        }
    }

    // What it tells beside the number of its line.
    fn body(self, alloc: Global) -> Result<Body, AllocError>
        ensures body { IfOk result (λ body. body ≡ plain_body self) }
        ensures small { OnOk result (HasSmallNumbers self) }
    {
        match self {
            Plain::Begun => Ok(Body::Begun),
            Plain::Aborted => Ok(Body::Aborted),
            Plain::Staged { cells } => Ok(Body::Staged { cells }),
            Plain::Committed { event } => Ok(Body::Committed {
                events: one(alloc, event)?,
            }),
            Plain::Written { cells, event } => Ok(Body::Written {
                cells,
                events: one(alloc, event)?,
            }),
            Plain::Cell { word } => {
                let mut words = Vec::new(alloc);
                words.push(word)?;
                Ok(Body::Values {
                    origin: Index::wrap(Vec::new(alloc)),
                    shape: Sizes::wrap(Vec::new(alloc)),
                    dtype: Dtype::I64,
                    words: Words::wrap(words),
                })
            }
        }
    }

    /// The numbers of events that it prints.
    pub fn numbers(self, alloc: Global) -> Result<EventNumbers, AllocError>
        ensures { IfOk result (λ numbers. numbers ≡ plain_numbers self) }
    {
        let done = match self {
            Plain::Committed { event } | Plain::Written { event, .. } => one(alloc, event)?,
            _ => List::wrap(Vec::new(alloc)),
        };
        Ok(EventNumbers {
            opened: List::wrap(Vec::new(alloc)),
            done,
            failed: None,
            damaged: false,
        })
    }
}

fn one(alloc: Global, number: u64) -> Result<List<u64>, AllocError>
    ensures { IfOk result (λ list. list ≡ number ∷ []) }
{
    let mut numbers = Vec::new(alloc);
    numbers.push(number)?;
    Ok(List::wrap(numbers))
}

// The only one of these answers that the bytes can be.
fn guess(bytes: &[u8]) -> Option<Plain> {
    if bytes.starts_with(b"{\"abort\":") {
        return Some(Plain::Aborted);
    }
    if bytes.starts_with(b"{\"begin\":") {
        return Some(Plain::Begun);
    }
    match bytes.strip_prefix(b"{\"line\":") {
        Some(rest) => guess_line(digits(rest).1),
        None => guess_commit(bytes.strip_prefix(b"{\"commit\":[")?),
    }
}

// The same by what stands behind the number of the line.
fn guess_line(rest: &[u8]) -> Option<Plain> {
    match rest.strip_prefix(b",\"write\":") {
        Some(rest) => Some(Plain::Staged {
            cells: digits(rest).0,
        }),
        None => guess_cell(rest.strip_prefix(b",\"origin\":[],\"values\":")?),
    }
}

// The same by the number of the cell.
fn guess_cell(rest: &[u8]) -> Option<Plain> {
    let word = match rest.strip_prefix(b"-") {
        Some(rest) => digits(rest).0.wrapping_neg(),
        None => digits(rest).0,
    };
    Some(Plain::Cell { word })
}

// The same by the numbers of events.
fn guess_commit(rest: &[u8]) -> Option<Plain> {
    let (event, rest) = digits(rest);
    let (_, rest) = digits(rest.strip_prefix(b"],\"line\":")?);
    match rest.strip_prefix(b",\"write\":") {
        Some(rest) => Some(Plain::Written {
            cells: digits(rest).0,
            event,
        }),
        None => Some(Plain::Committed { event }),
    }
}

// The number whose digits stand at the front, and what stands behind them.
fn digits(bytes: &[u8]) -> (u64, &[u8]) {
    let mut number = 0u64;
    let mut rest = bytes;
    while let Some((digit, behind)) = rest.split_first() {
        if !digit.is_ascii_digit() {
            break;
        }
        number = number
            .wrapping_mul(10)
            .wrapping_add(u64::from(digit.wrapping_sub(b'0')));
        rest = behind;
    }
    (number, rest)
}
