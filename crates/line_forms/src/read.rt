// `{"read":NAME,"steps":STEPS,"downsample_factors":FACTORS,"downsample_method":METHOD}`.
ghost use Rattle.std.specs.Prelude.{◌≡◌, ◌≢◌, ◌∷◌, [], Ok, Err, IfOk, IfErr, IfSome, IsTrue, codes, option_map, option_and_then, is_some};
ghost use Rattle.std.specs.List.{list_all, AllByRecursion};
ghost use Rattle.downsample_view.specs.Groups.{IsFactor, is_factor};
ghost use Rattle.serde_json.specs.View.{view};
ghost use Rattle.json_forms.specs.Lists.{u64_list};
ghost use Rattle.json_forms.specs.Members.{least_unknown};
ghost use Rattle.line_forms.specs.Form.{form_of, MayHaveFactors, IsSoundOther};
ghost use Rattle.line_parts.specs.Parts.{earlier, no_name};
ghost use Rattle.line_forms.specs.Reads.{method_named, method_at, as_factors, factors_at, half_fault, read_members, down_of, read_as, read_so, read_form};

use crate::command::{Command, DownWant};
use cells::{MOST_CELLS, Name, Sizes};
use downsample_view::Method;
use json_forms::{least_unknown, u64_list};
use line_parts::{LineError, at_fault, earlier, name_in, no_name, steps_in, unless_so};
use serde_json::Value;
use std::alloc::{AllocError, Global};

/// The command that reads a view.
#[tactic(auto, unfolding(crate::specs::Reads::read_form))]
pub(crate) fn read_line(alloc: Global, value: &Value) -> Result<Command, LineError>
    ensures ok { IfOk result (λ command. read_form (view value.now) ≡ Ok (form_of command)) }
    ensures err { IfErr result (λ e. e ≢ LineError.Memory → read_form (view value.now) ≡ Err e) }
    ensures sound { IfOk result IsSoundOther }
{
    let factors = factors_at(alloc, value)?;
    match read_fault(value, factors.is_some()) {
        Some(fault) => Err(at_fault(alloc, fault)),
        None => named(alloc, value, down_of(factors, method_at(value))),
    }
}

fn factors_at(alloc: Global, value: &Value) -> Result<Option<Sizes>, AllocError>
    ensures factors { IfOk result (λ factors. factors_at (view value.now) ≡ factors) }
    ensures sound { IfOk result (λ factors. IfSome factors (AllByRecursion IsFactor)) }
{
    match value.get("downsample_factors") {
        Some(list) => factors_of(alloc, list),
        None => Ok(None),
    }
}

fn factors_of(alloc: Global, list: &Value) -> Result<Option<Sizes>, AllocError>
    ensures factors { IfOk result (λ factors. option_and_then as_factors (u64_list (view list.now)) ≡ factors) }
    ensures sound { IfOk result (λ factors. IfSome factors (AllByRecursion IsFactor)) }
{
    match u64_list(alloc, list)? {
        Some(factors) => Ok(as_factors(factors)),
        None => Ok(None),
    }
}

fn as_factors(factors: Vec<u64>) -> Option<Sizes>
    ensures factors { result ≡ as_factors factors.items }
    ensures sound { IfSome result (AllByRecursion IsFactor) }
{
    if are_factors(&factors) {
        Some(Sizes::wrap(factors))
    } else {
        None
    }
}

fn are_factors(factors: &[u64]) -> bool
    ensures value { result ≡ list_all is_factor factors.now }
    ensures from { IsTrue result → AllByRecursion IsFactor factors.now }
{
    all_factors(factors)
}

fn all_factors(factors: &[u64]) -> bool
    ensures { result ≡ list_all is_factor factors.now }
{
    factors.iter().all(|f| 1 <= *f && *f <= MOST_CELLS)
}

fn method_at(value: &Value) -> Option<Method>
    ensures { result ≡ method_at (view value.now) }
{
    method_named(value.get("downsample_method")?.as_str()?)
}

fn method_named(text: &str) -> Option<Method>
    ensures { result ≡ method_named text.now }
{
    if text == "stride" {
        return Some(Method::Stride);
    }
    if text == "min" {
        return Some(Method::Min);
    }
    if text == "max" {
        return Some(Method::Max);
    }
    None
}

fn half_fault<'k>(value: &Value, key: &'k str, other: &str, good: bool) -> Option<&'k str>
    ensures { option_map (λ s. s.now) result ≡ half_fault key.now other.now good (view value.now) }
{
    if value.get(key).is_none() {
        return None;
    }
    unless_so(value.get(other).is_some() && good, key)
}

fn read_fault(value: &Value, has_factors: bool) -> Option<&str>
    ensures { option_map (λ s. s.now) result
        ≡ earlier (least_unknown read_members (view value.now))
        (earlier (half_fault (codes "downsample_factors") (codes "downsample_method") has_factors (view value.now))
        (earlier (half_fault (codes "downsample_method") (codes "downsample_factors")
        (is_some (method_at (view value.now))) (view value.now))
        (no_name (codes "read") (view value.now)))) }
{
    earlier(unknown_in_read(value), down_fault(value, has_factors))
}

#[tactic(auto, unfolding(crate::specs::Reads::read_members))]
fn unknown_in_read(value: &Value) -> Option<&str>
    ensures { option_map (λ s. s.now) result ≡ least_unknown read_members (view value.now) }
{
    least_unknown(
        value,
        &["downsample_factors", "downsample_method", "read", "steps"],
    )
}

fn down_fault(value: &Value, has_factors: bool) -> Option<&str>
    ensures { option_map (λ s. s.now) result
        ≡ earlier (half_fault (codes "downsample_factors") (codes "downsample_method") has_factors (view value.now))
        (earlier (half_fault (codes "downsample_method") (codes "downsample_factors")
        (is_some (method_at (view value.now))) (view value.now))
        (no_name (codes "read") (view value.now))) }
{
    let factors = half_fault(
        value,
        "downsample_factors",
        "downsample_method",
        has_factors,
    );
    earlier(factors, method_fault(value))
}

fn method_fault(value: &Value) -> Option<&str>
    ensures { option_map (λ s. s.now) result
        ≡ earlier (half_fault (codes "downsample_method") (codes "downsample_factors")
        (is_some (method_at (view value.now))) (view value.now))
        (no_name (codes "read") (view value.now)) }
{
    earlier(half_method(value), no_name(value, "read"))
}

fn half_method(value: &Value) -> Option<&str>
    ensures { option_map (λ s. s.now) result
        ≡ half_fault (codes "downsample_method") (codes "downsample_factors") (is_some (method_at (view value.now)))
        (view value.now) }
{
    half_fault(
        value,
        "downsample_method",
        "downsample_factors",
        method_at(value).is_some(),
    )
}

fn down_of(factors: Option<Sizes>, method: Option<Method>) -> Option<DownWant>
    requires { IfSome factors (AllByRecursion IsFactor) }
    ensures down { result ≡ down_of factors method }
    ensures sound { MayHaveFactors result }
{
    match (factors, method) {
        (Some(factors), Some(method)) => Some(DownWant { factors, method }),
        _ => None,
    }
}

fn named(alloc: Global, value: &Value, down: Option<DownWant>) -> Result<Command, LineError>
    requires { MayHaveFactors down }
    ensures ok { IfOk result (λ command. read_so down (view value.now) ≡ Ok (form_of command)) }
    ensures err { IfErr result (λ e. e ≢ LineError.Memory → read_so down (view value.now) ≡ Err e) }
    ensures sound { IfOk result IsSoundOther }
{
    match name_in(alloc, value, "read") {
        Ok(name) => stepped(alloc, value, name, down),
        Err(e) => Err(e),
    }
}

fn stepped(
    alloc: Global,
    value: &Value,
    name: Name,
    down: Option<DownWant>,
) -> Result<Command, LineError>
    requires { MayHaveFactors down }
    ensures ok { IfOk result (λ command. read_as down (view value.now) name ≡ Ok (form_of command)) }
    ensures err { IfErr result (λ e. e ≢ LineError.Memory → read_as down (view value.now) name ≡ Err e) }
    ensures sound { IfOk result IsSoundOther }
{
    match steps_in(alloc, value) {
        Ok(steps) => Ok(Command::Read { name, steps, down }),
        Err(e) => Err(e),
    }
}
