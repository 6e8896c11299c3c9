// The Spec of an array whose numbers are given.
ghost use Rattle.std.specs.Prelude.{◌≡◌, ◌≢◌, Some, Ok, Err, All, IfOk, IfErr, IfSome, codes, option_map, option_and_then};
ghost use Rattle.serde_json.specs.Find.{get};
ghost use Rattle.serde_json.specs.View.{view};
ghost use Rattle.cells.specs.Dense.{IsDense};
ghost use Rattle.spec_forms.specs.Faults.{judged_in_turn};
ghost use Rattle.spec_forms.specs.Members.{judged_dtype, required};
ghost use Rattle.spec_forms.specs.Numbers.{numbers_in, right, right_dtype, given_leaf, given_at};
ghost use Rattle.spec_forms.specs.declared.error.SpecError.{SpecError};

use crate::error::SpecError;
use crate::leaf::SpecLeaf;
use crate::members::{false_at, judged_dtype, required};
use crate::numbers::{Nested, numbers_in};
use crate::places::{at_path, fault_at, judged_in_turn, none_before};
use cells::{Dense, Dtype};
use meta_forms::Fault;
use serde_json::Value;
use std::alloc::{AllocError, Global};

/// The leaf of numbers that are given, whose members come in byte order.
#[tactic(auto, unfolding(crate::specs::Numbers::given_at))]
pub fn given_at(
    alloc: Global,
    path: &str,
    unknown: Option<&str>,
    value: &Value,
) -> Result<SpecLeaf, SpecError>
    ensures value { IfOk result (λ leaf. given_at path.now (option_map (λ s.
        s.now) unknown.entry) (view value.now) ≡ Ok leaf) }
    ensures causes { IfErr result (λ e. e ≢ SpecError.Memory
        → given_at path.now (option_map (λ s. s.now) unknown.entry) (view value.now) ≡ Err e) }
{
    let numbers = numbers_in_turn(
        alloc,
        path,
        unknown,
        right_dtype(judged_dtype(value)),
        value,
    )?;
    false_at(alloc, "assume_metadata", path, unknown, value)?;
    false_at(alloc, "delete_existing", path, unknown, value)?;
    let dtype = required(judged_dtype(value));
    let dtype = judged_in_turn(alloc, path, unknown, "dtype", dtype)?;
    Ok(given_leaf(alloc, numbers, dtype)?)
}

fn right_dtype(judged: Result<Option<Dtype>, Fault>) -> Option<Dtype>
    ensures { result ≡ right_dtype judged }
{
    match judged {
        Ok(dtype) => dtype,
        Err(_) => None,
    }
}

#[tactic(auto, unfolding(crate::specs::Faults::judged_in_turn, crate::specs::Faults::in_turn, crate::specs::Faults::at_path))]
fn numbers_in_turn(
    alloc: Global,
    path: &str,
    unknown: Option<&str>,
    dtype: Option<Dtype>,
    value: &Value,
) -> Result<Nested, SpecError>
    ensures value { IfOk result (λ numbers. judged_in_turn path.now (option_map (λ s.
        s.now) unknown.entry) (codes "array")
        (right (option_and_then (numbers_in dtype) (get (codes "array") (view value.now)))) ≡ Ok numbers) }
    ensures right { IfOk result (λ numbers.
        option_and_then (numbers_in dtype) (get (codes "array") (view value.now)) ≡ Some numbers) }
    ensures causes { IfErr result (λ e. e ≢ SpecError.Memory
        → judged_in_turn path.now (option_map (λ s. s.now) unknown.entry) (codes "array")
        (right (option_and_then (numbers_in dtype) (get (codes "array") (view value.now)))) ≡ Err e) }
{
    none_before(alloc, path, unknown, "array")?;
    let Some(member) = value.get("array") else {
        return Err(fault_at(alloc, path, "array", Fault::Bad));
    };
    match numbers_in(alloc, dtype, member)? {
        Some(numbers) => Ok(numbers),
        None => Err(fault_at(alloc, path, "array", Fault::Bad)),
    }
}

fn given_leaf(alloc: Global, numbers: Nested, dtype: Dtype) -> Result<SpecLeaf, AllocError>
    requires { IsDense (record { dtype = dtype; shape = numbers.sizes; words = numbers.words }) }
    ensures { IfOk result (λ leaf. leaf ≡ given_leaf numbers dtype) }
{
    let Nested { sizes, words } = numbers;
    let start = Dense::of_words(alloc, dtype, sizes, words.items())?;
    Ok(SpecLeaf::Given { start })
}
