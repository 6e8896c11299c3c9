// Members that may be left out, in byte order.
ghost use Rattle.std.specs.Prelude.{◌≡◌, ◌≢◌, Ok, Err, Some, IfOk, IfErr, IfSome, OnOk, option_map};
ghost use Rattle.serde_json.specs.View.{view};
ghost use Rattle.cells.specs.Numbers.{IsWord};
ghost use Rattle.meta_forms.specs.Faults.{named};
ghost use Rattle.meta_forms.specs.declared.error.MetaError.{MetaError};
ghost use Rattle.want_forms.specs.Asking.{comes_before, none_before, none_left, some_of, asked, in_turn, if_right, word_asked};

use cells::Dtype;
use meta_forms::{Fault, MetaError, fault_of, is_there, judged_word, named};
use serde_json::Value;
use std::alloc::Global;
use std::cmp::Ordering;

/// What is judged of a member, in its turn.
///
/// # Errors
/// `BadMember` with the unknown member where it comes before this one; the fault that is judged; `Memory`.
#[tactic(auto, unfolding(crate::specs::Asking::in_turn))]
pub(crate) fn in_turn<T: Drop>(
    alloc: Global,
    unknown: Option<&str>,
    name: &str,
    value: &Value,
    judged: Result<T, Fault>,
) -> Result<Option<T>, MetaError>
    ensures value { IfOk result (λ o. in_turn (option_map (λ s.
        s.now) unknown.entry) name.now (view value.now) judged ≡ Ok o) }
    ensures right { IfOk result (λ o. IfSome o (λ x. judged ≡ Ok x)) }
    ensures causes { IfErr result (λ e. e ≢ MetaError.Memory
        → in_turn (option_map (λ s. s.now) unknown.entry) name.now (view value.now) judged ≡ Err e) }
{
    none_before(alloc, unknown, name)?;
    named(alloc, name, asked(is_there(value, name), judged))
}

/// That no unknown member comes before this name.
#[tactic(auto, unfolding(crate::specs::Asking::none_before))]
pub(crate) fn none_before(alloc: Global, unknown: Option<&str>, name: &str) -> Result<(), MetaError>
    ensures value { OnOk result (none_before (option_map (λ s. s.now) unknown.entry) name.now ≡ Ok tt) }
    ensures causes { IfErr result (λ e. e ≢ MetaError.Memory
        → none_before (option_map (λ s. s.now) unknown.entry) name.now ≡ Err e) }
{
    match unknown {
        None => Ok(()),
        Some(unknown) => if comes_before(unknown, name) {
            Err(fault_of(alloc, unknown, Fault::Bad))
        } else {
            Ok(())
        },
    }
}

/// That there is no unknown member.
#[tactic(auto, unfolding(crate::specs::Asking::none_left))]
pub(crate) fn none_left(alloc: Global, unknown: Option<&str>) -> Result<(), MetaError>
    ensures value { OnOk result (none_left (option_map (λ s. s.now) unknown.entry) ≡ Ok tt) }
    ensures causes { IfErr result (λ e. e ≢ MetaError.Memory
        → none_left (option_map (λ s. s.now) unknown.entry) ≡ Err e) }
{
    match unknown {
        None => Ok(()),
        Some(unknown) => Err(fault_of(alloc, unknown, Fault::Bad)),
    }
}

/// Whether a name comes before another in byte order.
pub fn comes_before(one: &str, other: &str) -> bool
    ensures { result ≡ comes_before one.now other.now }
{
    match one.cmp(other) {
        Ordering::Less => true,
        Ordering::Equal | Ordering::Greater => false,
    }
}

#[tactic(auto, unfolding(crate::specs::Asking::asked))]
fn asked<T: Drop>(there: bool, judged: Result<T, Fault>) -> Result<Option<T>, Fault>
    ensures value { result ≡ asked there judged }
    ensures right { IfOk result (λ o. IfSome o (λ x. judged ≡ Ok x)) }
{
    if !there {
        return Ok(None);
    }
    match judged {
        Ok(x) => Ok(Some(x)),
        Err(fault) => Err(fault),
    }
}

/// What is judged right.
pub(crate) fn if_right<T>(judged: Result<T, Fault>) -> Option<T>
    ensures value { result ≡ if_right judged }
    ensures right { IfSome result (λ x. judged ≡ Ok x) }
{
    match judged {
        Ok(x) => Some(x),
        Err(_) => None,
    }
}

/// The word of a whole number: in the dtype's range, or where there is no dtype one of 64 bits, with a sign or without.
///
/// # Errors
/// `Bad` where there is no number, or it is out of this range.
#[tactic(auto, unfolding(crate::specs::Asking::word_asked))]
pub fn word_asked(dtype: Option<Dtype>, number: Option<i128>) -> Result<u64, Fault>
    ensures value { result ≡ word_asked dtype number }
    ensures word { IfSome dtype (λ d. IfOk result (λ word. IsWord d word)) }
{
    match dtype {
        Some(dtype) => judged_word(dtype, number),
        None => match judged_word(Dtype::I64, number) {
            Ok(word) => Ok(word),
            Err(_) => judged_word(Dtype::U64, number),
        },
    }
}
