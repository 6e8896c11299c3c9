// Answers as text.
use crate::fault::Fault;
use std::alloc::{AllocError, Global};
use std::fmt::Debug;

/// Any answer, by its Debug.
pub fn told<T: Debug>(alloc: Global, value: &T) -> Result<String, Fault> {
    Ok(format!(in alloc; "{value:?}")?)
}

/// Any answer, by its Debug, as a line.
pub fn told_line<T: Debug>(alloc: Global, value: &T) -> Result<String, Fault> {
    Ok(format!(in alloc; "{value:?}\n")?)
}

/// An answer that is text.
pub fn said(alloc: Global, words: &str) -> Result<String, Fault> {
    Ok(String::from_str(alloc, words)?)
}

/// An answer of one line, with its end.
pub fn as_line(answer: Result<String, Fault>) -> Result<String, Fault> {
    let mut text = answer?;
    text.push('\n')?;
    Ok(text)
}

/// What a program prints for a line whose answer has one line, without its end; `no case` where the line is none.
pub fn line_or_no_case(alloc: Global, answer: Result<String, Fault>) -> Result<String, AllocError> {
    match answer {
        Ok(text) => Ok(text),
        Err(Fault::Line) => String::from_str(alloc, "no case"),
        Err(Fault::Memory) => Err(AllocError),
    }
}

/// What a program prints for a line whose answer has any number of lines, with their ends; `no case` where the line is none.
pub fn lines_or_no_case(
    alloc: Global,
    answer: Result<String, Fault>,
) -> Result<String, AllocError> {
    match answer {
        Ok(text) => Ok(text),
        Err(Fault::Line) => String::from_str(alloc, "no case\n"),
        Err(Fault::Memory) => Err(AllocError),
    }
}
