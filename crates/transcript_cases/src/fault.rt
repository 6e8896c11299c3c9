use json_forms::ParseError;
use std::alloc::{AllocError, AllocFailed};

/// Why a line has no answer: it is no case, or memory is short.
#[derive(Clone, Copy)]
pub(crate) enum Fault {
    Line,
    Memory,
}

impl From<AllocError> for Fault {
    fn from(_: AllocError) -> Fault {
        Fault::Memory
    }
}

impl From<ParseError> for Fault {
    fn from(_: ParseError) -> Fault {
        Fault::Line
    }
}

impl<T: Drop> From<AllocFailed<T>> for Fault {
    fn from(_: AllocFailed<T>) -> Fault {
        Fault::Memory
    }
}
