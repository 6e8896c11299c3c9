// Paths, and faults at them.
ghost use Rattle.std.specs.Prelude.{◌≡◌, ◌≢◌, ◌++◌, ◌∷◌, IfOk, Ok, Err, IfErr, OnOk, option_map, string_bytes};
ghost use Rattle.meta_forms.specs.declared.error.Fault.{Fault};
ghost use Rattle.spec_forms.specs.Faults.{joined, fault_at, at_path, none_before, none_left, judged_in_turn};
ghost use Rattle.spec_forms.specs.declared.error.SpecError.{SpecError};

use crate::error::SpecError;
use cells::Name;
use meta_forms::Fault;
use std::alloc::{AllocError, Global};
use want_forms::comes_before;

/// A path in the value at a path: behind a slash, also where it is empty, as that of a member with no name.
pub fn joined(alloc: Global, path: &str, inner: &str) -> Result<Name, AllocError>
    ensures { IfOk result (λ name. name ≡ joined path.now inner.now) }
{
    if path.is_empty() {
        return Ok(Name::wrap(String::from_str(alloc, inner)?));
    }
    Ok(Name::wrap(format!(in alloc; "{path}/{inner}")?))
}

/// The fault of a member of the value at a path.
pub(crate) fn fault_at(alloc: Global, path: &str, name: &str, fault: Fault) -> SpecError
    ensures { result ≢ SpecError.Memory → result ≡ fault_at (joined path.now name.now) fault }
{
    match joined(alloc, path, name) {
        Ok(path) => of_fault(path, fault),
        Err(_) => SpecError::Memory,
    }
}

fn of_fault(path: Name, fault: Fault) -> SpecError
    ensures { result ≡ fault_at path fault }
{
    match fault {
        Fault::Bad => SpecError::BadSpec { path },
        Fault::Unsupported => SpecError::Unsupported { path },
    }
}

/// The fault of a value itself.
pub fn own_fault(alloc: Global, path: &str, fault: Fault) -> SpecError
    ensures { result ≢ SpecError.Memory → result ≡ fault_at path.now fault }
{
    match String::from_str(alloc, path) {
        Ok(path) => of_fault(Name::wrap(path), fault),
        Err(_) => SpecError::Memory,
    }
}

/// That no unknown member of the value at a path comes before this name.
///
/// # Errors
/// The fault of the unknown member; `Memory`.
#[tactic(auto, unfolding(crate::specs::Faults::none_before))]
pub fn none_before(
    alloc: Global,
    path: &str,
    unknown: Option<&str>,
    name: &str,
) -> Result<(), SpecError>
    ensures value { OnOk result (none_before path.now (option_map (λ s. s.now) unknown.entry) name.now ≡ Ok tt) }
    ensures causes { IfErr result (λ e. e ≢ SpecError.Memory
        → none_before path.now (option_map (λ s. s.now) unknown.entry) name.now ≡ Err e) }
{
    match unknown {
        None => Ok(()),
        Some(unknown) => if comes_before(unknown, name) {
            Err(fault_at(alloc, path, unknown, Fault::Bad))
        } else {
            Ok(())
        },
    }
}

/// That there is no unknown member.
#[tactic(auto, unfolding(crate::specs::Faults::none_left))]
pub(crate) fn none_left(alloc: Global, path: &str, unknown: Option<&str>) -> Result<(), SpecError>
    ensures value { OnOk result (none_left path.now (option_map (λ s. s.now) unknown.entry) ≡ Ok tt) }
    ensures causes { IfErr result (λ e. e ≢ SpecError.Memory
        → none_left path.now (option_map (λ s. s.now) unknown.entry) ≡ Err e) }
{
    match unknown {
        None => Ok(()),
        Some(unknown) => Err(fault_at(alloc, path, unknown, Fault::Bad)),
    }
}

/// What is judged at a path.
#[tactic(auto, unfolding(crate::specs::Faults::at_path))]
pub fn at_path<T>(
    alloc: Global,
    path: &str,
    name: &str,
    judged: Result<T, Fault>,
) -> Result<T, SpecError>
    ensures value { IfOk result (λ x. at_path (joined path.now name.now) judged ≡ Ok x) }
    ensures right { IfOk result (λ x. judged ≡ Ok x) }
    ensures causes { IfErr result (λ e. e ≢ SpecError.Memory → at_path (joined path.now name.now) judged ≡ Err e) }
{
    match judged {
        Ok(x) => Ok(x),
        Err(fault) => Err(fault_at(alloc, path, name, fault)),
    }
}

/// What is judged of a member in its turn.
///
/// # Errors
/// The fault of the least unknown member where it comes before this one; the fault that is judged; `Memory`.
#[tactic(auto, unfolding(crate::specs::Faults::judged_in_turn, crate::specs::Faults::in_turn))]
pub fn judged_in_turn<T: Drop>(
    alloc: Global,
    path: &str,
    unknown: Option<&str>,
    name: &str,
    judged: Result<T, Fault>,
) -> Result<T, SpecError>
    ensures value { IfOk result (λ x. judged_in_turn path.now (option_map (λ s.
        s.now) unknown.entry) name.now judged ≡ Ok x) }
    ensures right { IfOk result (λ x. judged ≡ Ok x) }
    ensures causes { IfErr result (λ e. e ≢ SpecError.Memory
        → judged_in_turn path.now (option_map (λ s. s.now) unknown.entry) name.now judged ≡ Err e) }
{
    none_before(alloc, path, unknown, name)?;
    at_path(alloc, path, name, judged)
}
