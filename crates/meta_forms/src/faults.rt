// Faults with the names of their members.
ghost use Rattle.std.specs.Prelude.{◌≡◌, ◌≢◌, Ok, Err, IfOk, IfErr};
ghost use Rattle.meta_forms.specs.Faults.{fault_of, named};
ghost use Rattle.meta_forms.specs.declared.error.MetaError.{MetaError};

use crate::error::{Fault, MetaError};
use cells::Name;
use std::alloc::Global;

/// What a judgement of the member of this name gives.
///
/// # Errors
/// The fault, with the name; `Memory` where an allocation failed.
pub fn named<T>(alloc: Global, name: &str, judged: Result<T, Fault>) -> Result<T, MetaError>
    ensures value { IfOk result (λ x. named name.now judged ≡ Ok x) }
    ensures causes { IfErr result (λ e. e ≢ MetaError.Memory → named name.now judged ≡ Err e) }
{
    match judged {
        Ok(value) => Ok(value),
        Err(fault) => Err(fault_of(alloc, name, fault)),
    }
}

/// A fault of the member of this name.
pub fn fault_of(alloc: Global, name: &str, fault: Fault) -> MetaError
    ensures { result ≢ MetaError.Memory → result ≡ fault_of name.now fault }
{
    let Ok(name) = String::from_str(alloc, name) else {
        return MetaError::Memory;
    };
    let name = Name::wrap(name);
    match fault {
        Fault::Bad => MetaError::BadMember { name },
        Fault::Unsupported => MetaError::Unsupported { name },
    }
}
