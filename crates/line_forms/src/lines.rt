// The command that a line is.
ghost use Rattle.std.specs.Prelude.{◌≡◌, ◌≢◌, Ok, Err, IfOk, IfErr, count_by};
ghost use Rattle.serde_json.specs.View.{view};
ghost use Rattle.line_forms.specs.Form.{form_of, IsSoundOther, IsSound};
ghost use Rattle.line_parts.specs.Parts.{has};
ghost use Rattle.line_forms.specs.Views.{view_form};
ghost use Rattle.line_forms.specs.Lines.{command_count, command_in, other_form, small_form, command_of_data, command_of_line};

use crate::begin::{abort_line, begin_line, commit_line};
use crate::command::Command;
use crate::joins::{concat_line, overlay_line, stack_line};
use crate::open::open_line;
use crate::read::read_line;
use crate::shapes::{resize_line, resolve_line};
use crate::view::of_line;
use crate::write::write_line;
use cells::Name;
use json_forms::{ParseError, parse};
use line_parts::LineError;
use serde_json::Value;
use std::alloc::Global;

/// The command that the bytes of a line are, where these are the names of the mounts.
///
/// # Errors
/// `NotJson` where the bytes are no JSON, `NotCommand` where the value isn't an object with exactly one of the members `open`, `view`,
/// `read`, `write`, `begin`, `commit`, `abort`, `resize` and `resolve`, `Member` where a member is unknown, missing or of a wrong form,
/// `Spec` and `Steps` by what stands there, and `Memory` where an allocation failed.
pub fn read_command(alloc: Global, bytes: &[u8], names: &[Name]) -> Result<Command, LineError>
    ensures ok { IfOk result (λ command. command_of_line names.now bytes.now ≡ Ok (form_of command)) }
    ensures err { IfErr result (λ e. e ≢ LineError.Memory → command_of_line names.now bytes.now ≡ Err e) }
    ensures sound { IfOk result (IsSound names.now) }
{
    match parse(alloc, bytes) {
        Ok(mut value) => command_of(alloc, &mut value, names),
        Err(ParseError::NotJson) => Err(LineError::NotJson),
        Err(ParseError::Memory) => Err(LineError::Memory),
    }
}

fn command_of(alloc: Global, value: &mut Value, names: &[Name]) -> Result<Command, LineError>
    ensures ok { IfOk result (λ command. command_of_data names.now (view value.old) ≡ Ok (form_of command)) }
    ensures err { IfErr result (λ e. e ≢ LineError.Memory → command_of_data names.now (view value.old) ≡ Err e) }
    ensures sound { IfOk result (IsSound names.now) }
{
    if command_count(value) != 1 {
        return Err(LineError::NotCommand);
    }
    command_in(alloc, value, names)
}

fn command_count(value: &Value) -> usize
    ensures { result ≡ command_count (view value.now) }
{
    let names = [
        "open", "view", "read", "write", "begin", "commit", "abort", "resize", "resolve",
    ];
    count_members(value, &names)
}

fn count_members(value: &Value, names: &[&str]) -> usize
    ensures { result ≡ count_by (λ name. has name.now (view value.now)) names.now }
{
    names
        .iter()
        .filter(|name| value.get(**name).is_some())
        .count()
}

#[tactic(auto, unfolding(crate::specs::Lines::command_in), using(crate::proofs::Sound::sound_if))]
fn command_in(alloc: Global, value: &mut Value, names: &[Name]) -> Result<Command, LineError>
    ensures ok { IfOk result (λ command. command_in names.now (view value.old) ≡ Ok (form_of command)) }
    ensures err { IfErr result (λ e. e ≢ LineError.Memory → command_in names.now (view value.old) ≡ Err e) }
    ensures sound { IfOk result (IsSound names.now) }
{
    if value.get("open").is_some() {
        return open_line(alloc, value, names);
    }
    other_line(alloc, value)
}

#[tactic(auto, unfolding(crate::specs::Lines::other_form))]
fn other_line(alloc: Global, value: &mut Value) -> Result<Command, LineError>
    ensures ok { IfOk result (λ command. other_form (view value.old) ≡ Ok (form_of command)) }
    ensures err { IfErr result (λ e. e ≢ LineError.Memory → other_form (view value.old) ≡ Err e) }
    ensures sound { IfOk result IsSoundOther }
{
    if value.get("view").is_some() {
        return view_line(alloc, value);
    }
    if value.get("read").is_some() {
        return read_line(alloc, value);
    }
    if value.get("write").is_some() {
        return write_line(alloc, value);
    }
    small_line(alloc, value)
}

#[tactic(auto, unfolding(crate::specs::Lines::small_form))]
fn small_line(alloc: Global, value: &Value) -> Result<Command, LineError>
    ensures ok { IfOk result (λ command. small_form (view value.now) ≡ Ok (form_of command)) }
    ensures err { IfErr result (λ e. e ≢ LineError.Memory → small_form (view value.now) ≡ Err e) }
    ensures sound { IfOk result IsSoundOther }
{
    if value.get("begin").is_some() {
        return begin_line(alloc, value);
    }
    if value.get("commit").is_some() {
        return commit_line(alloc, value);
    }
    if value.get("abort").is_some() {
        return abort_line(alloc, value);
    }
    if value.get("resize").is_some() {
        return resize_line(alloc, value);
    }
    resolve_line(alloc, value)
}

#[tactic(auto, unfolding(crate::specs::Views::view_form))]
fn view_line(alloc: Global, value: &Value) -> Result<Command, LineError>
    ensures ok { IfOk result (λ command. view_form (view value.now) ≡ Ok (form_of command)) }
    ensures err { IfErr result (λ e. e ≢ LineError.Memory → view_form (view value.now) ≡ Err e) }
    ensures sound { IfOk result IsSoundOther }
{
    if value.get("concat").is_some() {
        return concat_line(alloc, value);
    }
    if value.get("of").is_some() {
        return of_line(alloc, value);
    }
    if value.get("overlay").is_some() {
        return overlay_line(alloc, value);
    }
    if value.get("stack").is_some() {
        return stack_line(alloc, value);
    }
    of_line(alloc, value)
}
