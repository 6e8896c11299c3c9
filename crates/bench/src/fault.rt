use std::alloc::{AllocError, AllocFailed};

/// Why nothing was measured: a call was refused, or memory is short.
#[derive(Clone, Copy)]
pub(crate) enum Fault {
    Refused,
    Memory,
}

impl From<AllocError> for Fault {
    fn from(_: AllocError) -> Fault {
        Fault::Memory
    }
}

impl<T: Drop> From<AllocFailed<T>> for Fault {
    fn from(_: AllocFailed<T>) -> Fault {
        Fault::Memory
    }
}
