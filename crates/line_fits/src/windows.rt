// Between which numbers of events a line may have looked at the store.
ghost use Rattle.std.specs.Prelude.{◌≡◌, ◌≤◌, ◌<◌, ◌+◌, ◌++◌, ℕ, List as ListOf, Option, length, take, drop, get_or, IfOk};
ghost use Rattle.history.specs.Commit.{Transaction};
ghost use Rattle.line_fits.specs.Walls.{AreEnds, AreLasts, ArePrintedBy, last_from};
ghost use Rattle.transcript_cut.specs.Numbers.{all_numbers};
ghost use Rattle.transcript_cut.specs.declared.said.Said.{Said as SaidOf};
ghost use Rattle.transcript_cut.specs.ToldNumbers.{single};
ghost use Rattle.transcript_cut.specs.Transcript.{Told};
ghost use Rattle.transcript_cut.specs.Windows.{before_first, lines_before, window_of};

use std::alloc::{AllocError, Global};
use transcript_cut::{EventNumbers, Said};

/// For each line of a session the last number that was printed before it, 0 where there is none.
///
/// # Errors
/// `AllocError` where memory is wanting.
pub fn lasts_of(alloc: Global, said: &[Said]) -> Result<Vec<u64>, AllocError>
    ensures { IfOk result (λ lasts. AreLasts said.now lasts.items) }
{
    let mut lasts = Vec::with_capacity(alloc, said.len())?;
    let mut seen = 0;
    for k in 0..said.len() {
        lasts.push(seen)?;
        seen = last_behind(seen, &said_at(said, k).numbers);
    }
    Ok(lasts)
}

/// For each line of a session the last number of an event at which it may have looked, of so many in all.
///
/// # Errors
/// `AllocError` where memory is wanting.
pub fn ends_of(alloc: Global, total: u64, said: &[Said]) -> Result<Vec<u64>, AllocError>
    ensures { IfOk result (λ ends. AreEnds total said.now ends.items) }
{
    let mut ends = vec![in alloc; 0; said.len()]?;
    put_ends(total, said, &mut ends);
    Ok(ends)
}

fn put_ends(total: u64, said: &[Said], ends: &mut [u64])
    requires { length ends.old ≡ length said.now }
    ensures { AreEnds total said.now ends.new }
{
    let mut end = total;
    for k in (0..said.len()).rev() {
        let numbers = &said_at(said, k).numbers;
        end = end_at(end, numbers);
        ends[k] = end;
        end = before_first(end, numbers.opened.items());
    }
}

/// Numbers of events, both ends included.
#[derive(Clone, Copy, Debug, PartialEq, Eq)]
pub struct Window {
    pub from: u64,
    pub upto: u64,
}

/// The window of the line at a place, of a session that stands in a transaction under repeatable read with so many lines before its `begin`;
/// else `begun` is the place itself.
pub fn window_at(said: &[Said], lasts: &[u64], ends: &[u64], at: usize, begun: usize) -> Window
    requires lasts { AreLasts said.now lasts.now }
    requires ends { (total : ℕ) × AreEnds total said.now ends.now }
    requires at { at < length said.now }
    requires begun { begun ≤ at }
    ensures { (total : ℕ) (told : ListOf Told) (t : Told) (transaction : Option Transaction)
        → AreEnds total said.now ends.now → ArePrintedBy said.now told
        → lines_before transaction (take at told) ≡ take begun told
        → window_of total transaction (take at told) (get_or told at t) (drop (at + 1) told)
        ≡ record { from = result.from; upto = result.upto } }
{
    let opened = said_at(said, at).numbers.opened.items();
    Window {
        from: last_in(lasts[begun], opened),
        upto: ends[at],
    }
}

fn said_at(said: &[Said], k: usize) -> &Said
    requires { k < length said.now }
    ensures { (d : SaidOf) → result.now ≡ get_or said.now k d }
{
    &said[k]
}

// The last number behind a line that prints these.
fn last_behind(seen: u64, numbers: &EventNumbers) -> u64
    ensures { result ≡ last_from seen (all_numbers numbers.now) }
{
    let seen = last_in(seen, numbers.opened.items());
    let seen = last_in(seen, numbers.done.items());
    last_failed(seen, numbers.failed)
}

fn last_failed(seen: u64, failed: Option<u64>) -> u64
    ensures { result ≡ last_from seen (single failed) }
{
    match failed {
        Some(number) => number,
        None => seen,
    }
}

// The last of some numbers, or the one before them.
fn last_in(seen: u64, numbers: &[u64]) -> u64
    ensures { result ≡ last_from seen numbers.now }
{
    if numbers.is_empty() {
        return seen;
    }
    numbers[numbers.len() - 1]
}

// Where the window of a line ends, by where that of the lines behind it begins.
fn end_at(end: u64, numbers: &EventNumbers) -> u64
    ensures { result ≡ before_first end (numbers.now.done ++ single numbers.now.failed) }
{
    before_first(before_failed(end, numbers.failed), numbers.done.items())
}

fn before_failed(end: u64, failed: Option<u64>) -> u64
    ensures { result ≡ before_first end (single failed) }
{
    match failed {
        Some(number) => number.saturating_sub(1),
        None => end,
    }
}

// The number before the first of some.
fn before_first(end: u64, numbers: &[u64]) -> u64
    ensures { result ≡ before_first end numbers.now }
{
    if numbers.is_empty() {
        return end;
    }
    numbers[0].saturating_sub(1)
}
