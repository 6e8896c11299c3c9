// Which answer prints which number.
ghost use Rattle.std.specs.Prelude.{◌≡◌, ◌<◌, ◌==◌, ℕ, ◌+◌, if◌then◌else◌, Some, None, IfOk, length, slice_index_or};
ghost use Rattle.transcript_laws.specs.Numbers.{single};
ghost use Rattle.transcript_cut.specs.Numbers.{all_numbers};
ghost use Rattle.transcript_cut.specs.Numbered.{said_numbers, slot_after, AreSpots, AreFilled};
ghost use Rattle.transcript_cut.specs.Slots.{AreSlots};

use crate::numbers::EventNumbers;
use crate::said::Said;
use cells::List;
use std::alloc::{AllocError, Global};

/// The spots of answers that print the numbers from 1 up to the count of all; `None` where one of these isn't printed.
pub fn spots_of_events(alloc: Global, said: &[Said]) -> Result<Option<List<u64>>, AllocError>
    ensures { IfOk result (AreSpots said.now) }
{
    let count = count_numbers(said)?;
    let mut slots = nones(alloc, count)?;
    spots_by(alloc, slots.as_mut_slice(), said)
}

/// Slots of which none is filled.
pub fn nones(alloc: Global, count: usize) -> Result<Vec<Option<u64>>, AllocError>
    ensures len { IfOk result (λ slots. length slots.items ≡ count) }
    ensures none { IfOk result (λ slots. (k : ℕ) → slice_index_or slots.items k None ≡ None) }
{
    let mut slots = Vec::with_capacity(alloc, count)?;
    for _k in 0..count {
        slots.push(None)?;
    }
    Ok(slots)
}

// The same, by a slot for each number, of which none is filled.
fn spots_by(
    alloc: Global,
    slots: &mut [Option<u64>],
    said: &[Said],
) -> Result<Option<List<u64>>, AllocError>
    requires count { length slots.old ≡ length (said_numbers said.now) }
    requires none { (k : ℕ) → slice_index_or slots.old k None ≡ None }
    ensures { IfOk result (AreSpots said.now) }
{
    put_all(slots, said);
    all_filled(alloc, slots)
}

// How many numbers are printed. Where a machine word doesn't hold as many, memory is wanting.
fn count_numbers(said: &[Said]) -> Result<usize, AllocError>
    ensures { IfOk result (λ count. count ≡ length (said_numbers said.now)) }
{
    let mut count = 0;
    for line in said {
        count = with_count(count, &line.numbers)?;
    }
    Ok(count)
}

fn with_count(count: usize, numbers: &EventNumbers) -> Result<usize, AllocError>
    ensures { IfOk result (λ all. all ≡ count + length (all_numbers numbers.now)) }
{
    let opened = sum(count, length_of(&numbers.opened))?;
    let done = sum(opened, length_of(&numbers.done))?;
    let all = sum(done, failures(numbers.failed))?;
    Ok(all)
}

fn length_of(numbers: &List<u64>) -> usize
    ensures { result ≡ length numbers.now }
{
    numbers.items().len()
}

fn failures(number: Option<u64>) -> usize
    ensures { result ≡ length (single number) }
{
    match number {
        Some(_) => 1,
        None => 0,
    }
}

fn sum(one: usize, other: usize) -> Result<usize, AllocError>
    ensures { IfOk result (λ both. both ≡ one + other) }
{
    match one.checked_add(other) {
        Some(both) => Ok(both),
        None => Err(AllocError),
    }
}

// Puts the spot of each answer into the slots of the numbers that it prints.
fn put_all(slots: &mut [Option<u64>], said: &[Said])
    requires { (k : ℕ) → slice_index_or slots.old k None ≡ None }
    ensures { AreSlots slots.new said.now said.now }
{
    for spot in 0..said.len() {
        put_of(slots, spot as u64, &said[spot].numbers);
    }
}

// Puts the spot of an answer into the slots of the numbers that it prints.
fn put_of(slots: &mut [Option<u64>], spot: u64, numbers: &EventNumbers)
    ensures { (k : ℕ) → k < length slots.old
        → slice_index_or slots.new k None
        ≡ slot_after (all_numbers numbers.now) spot k (slice_index_or slots.old k None) }
{
    put_list(slots, spot, &numbers.opened);
    put_list(slots, spot, &numbers.done);
    put_single(slots, spot, numbers.failed);
}

fn put_list(slots: &mut [Option<u64>], spot: u64, numbers: &List<u64>)
    ensures { (k : ℕ) → k < length slots.old
        → slice_index_or slots.new k None ≡ slot_after numbers.now spot k (slice_index_or slots.old k None) }
{
    put_each(slots, spot, numbers.items());
}

fn put_each(slots: &mut [Option<u64>], spot: u64, numbers: &[u64])
    ensures { (k : ℕ) → k < length slots.old
        → slice_index_or slots.new k None ≡ slot_after numbers.now spot k (slice_index_or slots.old k None) }
{
    for number in numbers {
        put_one(slots, spot, *number);
    }
}

#[tactic(auto, using(crate::proofs::Slots::slot_one))]
fn put_single(slots: &mut [Option<u64>], spot: u64, number: Option<u64>)
    ensures { (k : ℕ) → k < length slots.old
        → slice_index_or slots.new k None ≡ slot_after (single number) spot k (slice_index_or slots.old k None) }
{
    match number {
        Some(number) => put_one(slots, spot, number),
        None => {}
    }
}

fn put_one(slots: &mut [Option<u64>], spot: u64, number: u64)
    ensures { (k : ℕ) → k < length slots.old
        → slice_index_or slots.new k None ≡ (if number == (k + 1) then Some spot else slice_index_or slots.old k None) }
{
    let place = number as usize;
    if place == 0 {
        return;
    }
    if place > slots.len() {
        return;
    }
    slots[place - 1] = Some(spot);
}

// What the slots hold, where all are filled.
fn all_filled(alloc: Global, slots: &[Option<u64>]) -> Result<Option<List<u64>>, AllocError>
    ensures { IfOk result (AreFilled slots.now) }
{
    let mut spots = Vec::with_capacity(alloc, slots.len())?;
    for slot in slots {
        match *slot {
            Some(spot) => spots.push(spot)?,
            None => return Ok(None),
        }
    }
    Ok(Some(List::wrap(spots)))
}
