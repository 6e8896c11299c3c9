ghost use Rattle.std.specs.Prelude.{◌≡◌, ℕ, ◌<◌, ◌≤◌, ◌++◌, ◌∷◌, [], length, false, All, slice_index_or, MatchBool, IfSome};
ghost use Rattle.turn_book.specs.Passes.{IsIdle};

use std::alloc::Global;
use std::sync::Wait;
use std::test::Fail;
use std::thread;
use std::thread::Threads;
use turn_book::{Book, Pass, TurnBook};

/// An amount that the pass of a number added.
#[derive(Clone, Copy)]
struct Entry {
    owner: u32,
    amount: u32,
}

/// Amounts that were added, of which there are at most `most`.
#[derive(Drop)]
struct Counter {
    most: usize,
    entries: Vec<Entry>,
}

impl Book for Counter {
    ghost use Rattle.std.specs.Prelude.{◌≡◌, ◌≤◌, length};

    type Entry = Entry;

    type Fixed = usize;

    ghost owner = { λ entry. entry.owner };

    ghost history = { λ counter. counter.entries.items };

    ghost opening = { λ counter. counter.most };

    ghost agrees = { λ counter most. (counter.most ≡ most) × (length counter.entries.items ≤ most) };
}

impl Counter {
    fn new(alloc: Global, most: usize) -> Counter
        ensures { (result.most ≡ most) × (result.entries.items ≡ []) }
    {
        Counter {
            most,
            entries: Vec::new(alloc),
        }
    }

    // Adds an amount, if there is room and memory.
    fn add(&mut self, owner: u32, amount: u32) -> bool
        ensures most { self.new.most ≡ self.old.most }
        ensures entries { MatchBool result ((self.new.entries.items
            ≡ self.old.entries.items ++ record { owner = owner; amount = amount } ∷ [])
            × (length self.old.entries.items < self.old.most)) (self.new.entries.items ≡ self.old.entries.items) }
    {
        if self.entries.len() >= self.most {
            return false;
        }
        self.entries.push(Entry { owner, amount }).is_ok()
    }
}

// Adds an amount in a turn.
fn add<R: Wait>(rt: &R, book: &TurnBook<Counter>, pass: &mut Pass<Counter>, amount: u32) -> bool
    requires { IsIdle book.now pass.old }
    ensures idle { IsIdle book.now pass.new × (pass.new.number ≡ pass.old.number) }
    ensures added { MatchBool result (pass.new.mine
        ≡ pass.old.mine ++ record { owner = pass.old.number; amount = amount } ∷ []) (pass.new.mine ≡ pass.old.mine) }
{
    let mut held = book.take(rt, pass);
    let added = held.state().add(pass.number(), amount);
    book.give(pass, held);
    added
}

// Adds the amounts below `count`, each in a turn of its own.
fn add_many<R: Wait>(rt: &R, book: &TurnBook<Counter>, pass: &mut Pass<Counter>, count: u32)
    requires { IsIdle book.now pass.old }
    ensures { IsIdle book.now pass.new × (pass.new.number ≡ pass.old.number) }
{
    for amount in 0..count {
        add(rt, book, pass, amount);
    }
}

// Each pass adds the amounts below `count`, in as many threads.
fn add_in_each<R: Threads + Wait + Sync>(
    rt: &R,
    book: &TurnBook<Counter>,
    passes: &mut [Pass<Counter>],
    threads: usize,
    count: u32,
)
    requires idle { All (IsIdle book.now) passes.old }
    requires threads { 0 < threads }
    ensures idle { All (IsIdle book.now) passes.new }
    ensures numbers { (k : ℕ) (d : _) → k < length passes.old
        → (slice_index_or passes.new k d).number ≡ (slice_index_or passes.old k d).number }
{
    thread::for_each_mut(
        rt,
        passes,
        threads,
        &|_, pass: &mut Pass<Counter>|
            requires { IsIdle book.now pass.old }
            ensures { IsIdle book.entry.now pass.new × (pass.new.number ≡ pass.old.number) }
        {
            add_many(rt, book, pass, count);
        },
    );
}

// The counter after that, with all passes back.
fn add_all<R: Threads + Wait + Sync>(
    rt: &R,
    alloc: Global,
    counter: Counter,
    passes: u32,
    threads: usize,
    count: u32,
) -> Option<Counter>
    requires some_pass { (0 < passes) × (0 < threads) }
    requires empty { counter.entries.items ≡ [] }
    ensures most { IfSome result (λ last. length last.entries.items ≤ counter.most) }
    ensures owners { IfSome result (λ last. All (λ e. e.owner < passes) last.entries.items) }
{
    let Ok((book, mut row)) = TurnBook::start(alloc, counter, passes) else {
        return None;
    };
    add_in_each(rt, &book, row.as_mut_slice(), threads, count);
    Some(book.close(row))
}

// Whether each of four owners added 0, 1, 2 and so on, up to `count` amounts.
fn counts_up(entries: &[Entry], count: u32) -> bool {
    let mut next = [0u32; 4];
    for entry in entries {
        let owner = entry.owner as usize;
        if owner >= 4 || next[owner] != entry.amount || next[owner] >= count {
            return false;
        }
        next[owner] += 1;
    }
    next == [count; 4]
}

#[test]
fn four_threads_add_in_turns(rt: HostRuntime) -> Result<(), Fail> {
    let counter = Counter::new(rt.alloc(), 100_000);
    let last = add_all(&rt, rt.alloc(), counter, 4, 4, 20_000);
    let Some(last) = last else {
        panic!(rt; "there was no memory");
    };
    assert!(rt; last.entries.len() == 80_000);
    assert!(rt; counts_up(&last.entries, 20_000));
    Ok(())
}

#[test]
fn a_full_counter_takes_no_more(rt: HostRuntime) -> Result<(), Fail> {
    let counter = Counter::new(rt.alloc(), 1_000);
    let last = add_all(&rt, rt.alloc(), counter, 4, 4, 20_000);
    assert!(rt; last.is_some_and(|counter| counter.entries.len() == 1_000));
    Ok(())
}

#[test]
fn every_call_answers_for_one_pass_and_for_many(rt: HostRuntime) -> Result<(), Fail> {
    for passes in [1u32, 1_024] {
        let counter = Counter::new(rt.alloc(), 100_000);
        let last = add_all(&rt, rt.alloc(), counter, passes, 1, 2);
        let Some(last) = last else {
            panic!(rt; "there was no memory");
        };
        assert!(rt; last.entries.len() == 2 * passes as usize);
    }
    Ok(())
}
