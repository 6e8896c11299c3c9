// `{"begin":FLAGS}`, `{"commit":true}`, `{"abort":true}`.
ghost use Rattle.std.specs.Prelude.{◌≡◌, ◌≢◌, Ok, Err, IfOk, IfErr, ◌∷◌, [], ◌++◌, codes, option_map, string_bytes};
ghost use Rattle.serde_json.specs.View.{view};
ghost use Rattle.json_forms.specs.Members.{least_unknown};
ghost use Rattle.line_forms.specs.Form.{form_of, beginning, committing, aborting, IsSoundOther};
ghost use Rattle.line_parts.specs.Parts.{earlier, where_sound};
ghost use Rattle.line_parts.specs.Within.{within, first_fault};
ghost use Rattle.line_forms.specs.Small.{flag_at, no_flag, flag_members, flags_fault, flags_unless, flags_of, flags_given, begin_form, not_true, word_form};

use crate::command::Command;
use json_forms::least_unknown;
use line_parts::{LineError, at_fault, earlier, first_fault, unless_so};
use serde_json::Value;
use std::alloc::{AllocError, Global};

/// The command that begins a transaction.
#[tactic(auto, unfolding(crate::specs::Small::begin_form))]
pub(crate) fn begin_line(alloc: Global, value: &Value) -> Result<Command, LineError>
    ensures ok { IfOk result (λ command. begin_form (view value.now) ≡ Ok (form_of command)) }
    ensures err { IfErr result (λ e. e ≢ LineError.Memory → begin_form (view value.now) ≡ Err e) }
    ensures sound { IfOk result IsSoundOther }
{
    let others = least_unknown(value, &["begin"]);
    match value.get("begin") {
        Some(flags) => begun(alloc, others, flags),
        None => Err(at_fault(alloc, first_fault("begin", others, "begin"))),
    }
}

fn begun(alloc: Global, others: Option<&str>, flags: &Value) -> Result<Command, LineError>
    ensures ok { IfOk result (λ command.
        within (codes "begin") (option_map (λ s. s.now) others.entry) (flags_of (view flags.now)) (λ f.
        Ok (beginning f.0 f.1))
        ≡ Ok (form_of command)) }
    ensures err { IfErr result (λ e. e ≢ LineError.Memory →
        within (codes "begin") (option_map (λ s. s.now) others.entry) (flags_of (view flags.now)) (λ f.
        Ok (beginning f.0 f.1))
        ≡ Err e) }
    ensures sound { IfOk result IsSoundOther }
{
    if !flags.is_object() {
        return Err(at_fault(alloc, first_fault("begin", others, "begin")));
    }
    match flags_fault(flags) {
        Some(fault) => Err(faulty_flags(alloc, others, fault)),
        None => flagged(alloc, others, flags),
    }
}

fn faulty_flags(alloc: Global, others: Option<&str>, fault: &str) -> LineError
    ensures { result ≢ LineError.Memory → result
        ≡ LineError.Member (first_fault (codes "begin") (option_map (λ s.
        s.now) others.entry) (codes "begin/" ++ fault.now)) }
{
    match behind_begin(alloc, fault) {
        Ok(path) => at_fault(alloc, first_fault("begin", others, path.as_str())),
        Err(_) => LineError::Memory,
    }
}

fn behind_begin(alloc: Global, fault: &str) -> Result<String, AllocError>
    ensures { IfOk result (λ path. string_bytes path ≡ codes "begin/" ++ fault.now) }
{
    let mut path = String::from_str(alloc, "begin/")?;
    path.push_str(fault)?;
    Ok(path)
}

fn flagged(alloc: Global, others: Option<&str>, flags: &Value) -> Result<Command, LineError>
    ensures ok { IfOk result (λ command. where_sound (option_map (λ s. s.now) others.entry)
        (Ok (beginning (flag_at (codes "atomic") (view flags.now))
        (flag_at (codes "repeatable_read") (view flags.now))))
        ≡ Ok (form_of command)) }
    ensures err { IfErr result (λ e. e ≢ LineError.Memory → where_sound (option_map (λ s. s.now) others.entry)
        (Ok (beginning (flag_at (codes "atomic") (view flags.now))
        (flag_at (codes "repeatable_read") (view flags.now))))
        ≡ Err e) }
    ensures sound { IfOk result IsSoundOther }
{
    match others {
        Some(fault) => Err(at_fault(alloc, fault)),
        None => Ok(Command::Begin {
            atomic: flag_at(flags, "atomic"),
            repeatable_read: flag_at(flags, "repeatable_read"),
        }),
    }
}

fn flags_fault(flags: &Value) -> Option<&str>
    ensures { option_map (λ s. s.now) result ≡ flags_fault (view flags.now) }
{
    earlier(unknown_flag(flags), wrong_flag(flags))
}

#[tactic(auto, unfolding(crate::specs::Small::flag_members))]
fn unknown_flag(flags: &Value) -> Option<&str>
    ensures { option_map (λ s. s.now) result ≡ least_unknown flag_members (view flags.now) }
{
    least_unknown(flags, &["atomic", "repeatable_read"])
}

fn wrong_flag(flags: &Value) -> Option<&str>
    ensures { option_map (λ s. s.now) result
        ≡ earlier (no_flag (codes "atomic") (view flags.now)) (no_flag (codes "repeatable_read") (view flags.now)) }
{
    earlier(no_flag(flags, "atomic"), no_flag(flags, "repeatable_read"))
}

fn no_flag<'k>(flags: &Value, key: &'k str) -> Option<&'k str>
    ensures { option_map (λ s. s.now) result ≡ no_flag key.now (view flags.now) }
{
    match flags.get(key) {
        Some(flag) => unless_so(flag.as_bool().is_some(), key),
        None => None,
    }
}

fn flag_at(flags: &Value, key: &str) -> bool
    ensures { result ≡ flag_at key.now (view flags.now) }
{
    match flags.get(key) {
        Some(flag) => flag.as_bool().unwrap_or(false),
        None => false,
    }
}

/// The command that ends a transaction by committing it.
#[tactic(auto, unfolding(crate::specs::Small::word_form))]
pub(crate) fn commit_line(alloc: Global, value: &Value) -> Result<Command, LineError>
    ensures ok { IfOk result (λ command. word_form (codes "commit") committing (view value.now)
        ≡ Ok (form_of command)) }
    ensures err { IfErr result (λ e. e ≢ LineError.Memory
        → word_form (codes "commit") committing (view value.now) ≡ Err e) }
    ensures sound { IfOk result IsSoundOther }
{
    match word_fault(value, "commit") {
        Some(fault) => Err(at_fault(alloc, fault)),
        None => Ok(Command::Commit),
    }
}

/// The command that ends a transaction by leaving it.
#[tactic(auto, unfolding(crate::specs::Small::word_form))]
pub(crate) fn abort_line(alloc: Global, value: &Value) -> Result<Command, LineError>
    ensures ok { IfOk result (λ command. word_form (codes "abort") aborting (view value.now) ≡ Ok (form_of command)) }
    ensures err { IfErr result (λ e. e ≢ LineError.Memory
        → word_form (codes "abort") aborting (view value.now) ≡ Err e) }
    ensures sound { IfOk result IsSoundOther }
{
    match word_fault(value, "abort") {
        Some(fault) => Err(at_fault(alloc, fault)),
        None => Ok(Command::Abort),
    }
}

fn word_fault<'v>(value: &'v Value, key: &'v str) -> Option<&'v str>
    ensures { option_map (λ s. s.now) result
        ≡ earlier (least_unknown (key.now ∷ []) (view value.now)) (not_true key.now (view value.now)) }
{
    let unknown = least_unknown(value, &[key]);
    earlier(unknown, unless_so(flag_at(value, key), key))
}
