use case_lines::Fault;
use layer_join::JoinError;
use stack_driver::{RenewError, StackError};
use std::alloc::{AllocError, AllocFailed};
use transform_composition::ComposeError;

/// Why a line has no answer about a view: it is no call with its arguments, memory is short, or the view is refused.
#[derive(Clone, Copy, Debug)]
pub(crate) enum Refused {
    Line,
    Memory,
    Stack(StackError),
    Compose(ComposeError),
    Renew(RenewError),
    Join(JoinError),
}

impl From<Fault> for Refused {
    fn from(fault: Fault) -> Refused {
        match fault {
            Fault::Line => Refused::Line,
            Fault::Memory => Refused::Memory,
        }
    }
}

impl From<AllocError> for Refused {
    fn from(_: AllocError) -> Refused {
        Refused::Memory
    }
}

impl From<StackError> for Refused {
    fn from(e: StackError) -> Refused {
        Refused::Stack(e)
    }
}

impl From<ComposeError> for Refused {
    fn from(e: ComposeError) -> Refused {
        Refused::Compose(e)
    }
}

impl From<RenewError> for Refused {
    fn from(e: RenewError) -> Refused {
        Refused::Renew(e)
    }
}

impl From<JoinError> for Refused {
    fn from(e: JoinError) -> Refused {
        Refused::Join(e)
    }
}

impl<T: Drop> From<AllocFailed<T>> for Refused {
    fn from(_: AllocFailed<T>) -> Refused {
        Refused::Memory
    }
}
