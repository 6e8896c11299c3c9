// Cutting a transcript into answers.
ghost use Rattle.std.specs.Prelude.{◌≡◌, ◌<◌, ◌+◌, ◌^◌, [], IfOk, length};
ghost use Rattle.transcript_cut.specs.Cuttings.{IsCutting, IsEnding, IsFound};

use crate::answers::{Front, front_of};
use crate::cursor::Cursor;
use crate::said::{AskedLine, Said, Span};
use cells::List;
use std::alloc::{AllocError, Global};

/// What cutting a transcript gives.
#[derive(Drop)]
pub enum Cutting {
    /// An answer to each line, and nothing else.
    Whole { said: List<Said> },
    /// Something else.
    Broken,
    /// Answers to the first lines, and want of memory for this one.
    CutOff { line: AskedLine },
}

/// Cuts a transcript into answers: for each line of the scripts that isn't blank, script by script, one compact object of JSON with the
/// line's number, ended by an LF, and nothing else. The first answer of want of memory ends it.
///
/// # Errors
/// An allocation failed.
pub fn cut(alloc: Global, scripts: &[List<u8>], transcript: &[u8]) -> Result<Cutting, AllocError>
    requires { length scripts.now < 2 ^ 32 }
    ensures { IfOk result (IsCutting scripts.now transcript.now) }
{
    let mut said = Vec::new(alloc);
    match keep_answers(alloc, scripts, transcript, &mut said) {
        Ok(Ending::Complete) => Ok(Cutting::Whole {
            said: List::wrap(said),
        }),
        Ok(Ending::Spoiled) => Ok(Cutting::Broken),
        Ok(Ending::Short { line }) => Ok(Cutting::CutOff { line }),
        Err(e) => Err(e),
    }
}

// How going over the answers ended.
#[derive(Clone, Copy, Debug)]
pub enum Ending {
    Complete,
    Spoiled,
    Short { line: AskedLine },
}

// Keeps of the answers what `cut` gives, until something else comes.
fn keep_answers(
    alloc: Global,
    scripts: &[List<u8>],
    transcript: &[u8],
    said: &mut Vec<Said>,
) -> Result<Ending, AllocError>
    requires few { length scripts.now < 2 ^ 32 }
    requires none { said.old.items ≡ [] }
    ensures { IfOk result (IsEnding scripts.now transcript.now said.new.items) }
{
    let mut cursor = Cursor::first();
    let mut at = 0;
    'lines: while let Some(line) = cursor.next_line(scripts) {
        let (_, rest) = transcript.split_at(at);
        match keep_answer(alloc, rest, line, at, said) {
            Ok(Found::Answer { length }) => at += length,
            Ok(Found::Memory) => return Ok(Ending::Short { line }),
            Ok(Found::Other) => return Ok(Ending::Spoiled),
            Err(e) => return Err(e),
        }
    }
    if at < transcript.len() {
        Ok(Ending::Spoiled)
    } else {
        Ok(Ending::Complete)
    }
}

// What was found at the front of a text: an answer of so many bytes, want of memory, or neither.
#[derive(Clone, Copy, Debug)]
pub enum Found {
    Answer { length: usize },
    Memory,
    Other,
}

// Keeps the answer to a line at the front of the rest of a transcript, which begins at this byte of it, where one stands there.
fn keep_answer(
    alloc: Global,
    rest: &[u8],
    line: AskedLine,
    at: usize,
    said: &mut Vec<Said>,
) -> Result<Found, AllocError>
    requires { at + length rest.now < 2 ^ 64 }
    ensures { IfOk result (IsFound rest.now line at said.old.items said.new.items) }
{
    match front_of(alloc, rest, line.number) {
        Ok(
            Front::Answer {
                length,
                numbers,
                answer,
            },
        ) => {
            let upto = at + length;
            let text = Span { from: at, upto };
            said.push(Said {
                line,
                text,
                numbers,
                answer,
            })?;
            Ok(Found::Answer { length })
        }
        Ok(Front::Memory) => Ok(Found::Memory),
        Ok(Front::Other) => Ok(Found::Other),
        Err(e) => Err(e),
    }
}
