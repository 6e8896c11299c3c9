use crate::numbers::EventNumbers;
use serde_json::Value;

/// Bytes of a text: from the first up to, and without, the last.
#[derive(Clone, Copy, Debug, PartialEq, Eq)]
pub struct Span {
    pub from: usize,
    pub upto: usize,
}

/// A line of a script that isn't blank: its session, its number in the script, counted from 1, and where it stands there.
#[derive(Clone, Copy, Debug, PartialEq, Eq)]
pub struct AskedLine {
    pub session: u32,
    pub number: u64,
    pub bytes: Span,
}

/// What is kept of an answer, so that it need not be read again: all of it, or the one cell of a read without dimensions, as a word of `int64`,
/// with the number of the line.
#[derive(Drop)]
pub enum KeptAnswer {
    Whole { value: Value },
    Cell { line: u64, word: u64 },
}

/// What a transcript has for a line: where the answer stands, with its LF, the numbers of events that it prints, and what is kept of it,
/// where it has values and is short.
#[derive(Drop)]
pub struct Said {
    pub line: AskedLine,
    pub text: Span,
    pub numbers: EventNumbers,
    pub answer: Option<KeptAnswer>,
}
