// Answers that own nothing.
use crate::printing::printed;
use answer_text::Body;
use case_lines::Fault;
use std::alloc::Global;

/// An answer of a word alone.
pub(crate) fn plain(alloc: Global, line: u64, what: &str) -> Result<String, Fault> {
    match what {
        "Begun" => printed(alloc, line, Body::Begun),
        "Aborted" => printed(alloc, line, Body::Aborted),
        "InTransaction" => printed(alloc, line, Body::InTransaction),
        "NoTransaction" => printed(alloc, line, Body::NoTransaction),
        "NotArray" => printed(alloc, line, Body::NotArray),
        "Memory" => printed(alloc, line, Body::Memory),
        _ => Err(Fault::Line),
    }
}

/// An answer of a number.
pub(crate) fn counted(alloc: Global, line: u64, what: &str, number: u64) -> Result<String, Fault> {
    match what {
        "Staged" => printed(alloc, line, Body::Staged { cells: number }),
        "Resized" => printed(alloc, line, Body::Resized { event: number }),
        "NotAtomic" => printed(alloc, line, Body::NotAtomic { keys: number }),
        "TooManyChunks" => printed(alloc, line, Body::TooManyChunks { at: number }),
        _ => Err(Fault::Line),
    }
}

/// An answer of the number of a step or a dimension.
pub(crate) fn stepped(alloc: Global, line: u64, what: &str, number: u64) -> Result<String, Fault> {
    match u32::try_from(number) {
        Ok(number) => of_small(alloc, line, what, number),
        Err(_) => Err(Fault::Line),
    }
}

fn of_small(alloc: Global, line: u64, what: &str, number: u32) -> Result<String, Fault> {
    match what {
        "BadStep" => printed(alloc, line, Body::BadStep { step: number }),
        "UnknownDim" => printed(alloc, line, Body::UnknownDim { step: number }),
        "RepeatedDim" => printed(alloc, line, Body::RepeatedDim { step: number }),
        "Unbounded" => printed(alloc, line, Body::Unbounded { dim: number }),
        "TooMany" => printed(alloc, line, Body::TooMany { dim: number }),
        _ => Err(Fault::Line),
    }
}
