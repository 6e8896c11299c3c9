// Numbers that rise.
ghost use Rattle.std.specs.Prelude.{◌≡◌, ◌<◌, ℕ, [], ◌∷◌, ◌++◌, Some, None, IfOk, length, slice_index_or};
ghost use Rattle.std.specs.List.{AllByRecursion};
ghost use Rattle.transcript_laws.specs.Numbers.{single};
ghost use Rattle.transcript_cut.specs.declared.said.Said.{Said as SaidOf};
ghost use Rattle.transcript_cut.specs.Numbers.{all_numbers};
ghost use Rattle.transcript_cut.specs.Risen.{IsRise, IsRiseAt, TellsRise};

use crate::numbers::EventNumbers;
use crate::said::Said;
use crate::spots::nones;
use cells::List;
use std::alloc::{AllocError, Global};

/// How numbers go on behind a last one: they rise, up to the one that is the last then, or not.
#[derive(Clone, Copy, Debug)]
pub enum Rise {
    Up { last: Option<u64> },
    Down,
}

/// Whether the numbers of each session rise; the sessions are numbered below their count.
pub fn are_rising(alloc: Global, sessions: usize, said: &[Said]) -> Result<bool, AllocError>
    requires { AllByRecursion (λ (s : SaidOf). s.line.session < sessions) said.now }
    ensures { IfOk result (TellsRise said.now) }
{
    let mut last = nones(alloc, sessions)?;
    Ok(rise_by_session(last.as_mut_slice(), said))
}

// Goes over the answers with the last number of each session, which is none at first.
fn rise_by_session(last: &mut [Option<u64>], said: &[Said]) -> bool
    requires sessions { AllByRecursion (λ (s : SaidOf). s.line.session < length last.old) said.now }
    requires none { (k : ℕ) → slice_index_or last.old k None ≡ None }
    ensures { TellsRise said.now result }
{
    for line in said {
        let rises = rise_at(last, line.line.session as usize, &line.numbers);
        if !rises {
            return false;
        }
    }
    true
}

// Whether the numbers of an answer go on rising behind the last one of its session, which is the last of them then.
fn rise_at(last: &mut [Option<u64>], session: usize, numbers: &EventNumbers) -> bool
    requires { session < length last.old }
    ensures { IsRiseAt last.old last.new session (all_numbers numbers.now) result }
{
    match risen_by(last[session], numbers) {
        Rise::Up { last: next } => {
            last[session] = next;
            true
        }
        Rise::Down => false,
    }
}

// How the numbers of an answer go on.
fn risen_by(last: Option<u64>, numbers: &EventNumbers) -> Rise
    ensures { IsRise last (all_numbers numbers.now) result }
{
    match risen_list(last, &numbers.opened) {
        Rise::Up { last } => risen_behind(last, &numbers.done, numbers.failed),
        Rise::Down => Rise::Down,
    }
}

fn risen_behind(last: Option<u64>, done: &List<u64>, failed: Option<u64>) -> Rise
    ensures { IsRise last (done.now ++ single failed) result }
{
    match risen_list(last, done) {
        Rise::Up { last } => risen_one(last, failed),
        Rise::Down => Rise::Down,
    }
}

fn risen_list(last: Option<u64>, numbers: &List<u64>) -> Rise
    ensures { IsRise last numbers.now result }
{
    risen_all(last, numbers.items())
}

fn risen_all(last: Option<u64>, numbers: &[u64]) -> Rise
    ensures { IsRise last numbers.now result }
{
    let mut latest = last;
    for number in numbers {
        match risen_to(latest, *number) {
            Rise::Up { last: next } => latest = next,
            Rise::Down => return Rise::Down,
        }
    }
    Rise::Up { last: latest }
}

fn risen_one(last: Option<u64>, number: Option<u64>) -> Rise
    ensures { IsRise last (single number) result }
{
    match number {
        Some(next) => risen_to(last, next),
        None => Rise::Up { last },
    }
}

fn risen_to(last: Option<u64>, next: u64) -> Rise
    ensures { IsRise last (next ∷ []) result }
{
    match last {
        Some(before) => risen_from(before, next),
        None => Rise::Up { last: Some(next) },
    }
}

fn risen_from(before: u64, next: u64) -> Rise
    ensures { IsRise (Some before) (next ∷ []) result }
{
    if before < next {
        Rise::Up { last: Some(next) }
    } else {
        Rise::Down
    }
}
