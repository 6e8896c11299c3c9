// Gates: they order what sessions on several workers do.
use script_runner::Gate;
use std::sync::Wait;
use std::sync::atomic::{AtomicU64, Ordering};
use std::thread::yield_now;

/// A gate that holds session 0, before a line of its own or where it is about to decode or encode a chunk for the nth time, until the store
/// was changed so often and, where it is asked, session 1 is before its third line. Session 1 doesn't begin before session 0 is held.
#[derive(Drop)]
pub(crate) struct Holding<'n> {
    /// How often a session looks before it gives up.
    pub looks: u64,
    /// Session 0's line, or 0 where it is held in coding.
    pub line: u64,
    /// At which of its codings session 0 is held, from 1 on; 0 where it is held before a line.
    pub coding: u64,
    /// How many codings session 0 has begun.
    pub begun: AtomicU64,
    /// How often the store has to be changed before session 0 goes on.
    pub until: u64,
    /// How often it was changed.
    pub made: &'n AtomicU64,
    /// Whether session 1 has to be before its third line too.
    pub behind: bool,
    /// Whether session 1 was there, as 0 or 1.
    pub come: AtomicU64,
    /// Whether session 0 was held, as 0 or 1.
    pub held: AtomicU64,
    /// How many sessions gave up.
    pub missed: AtomicU64,
}

impl<'n> Holding<'n> {
    // Looks until the number is so great, and gives up in the end.
    fn wait(&self, number: &AtomicU64, least: u64) {
        for _look in 0..self.looks {
            if number.load(Ordering::SeqCst) >= least {
                return;
            }
            yield_now();
        }
        self.missed.fetch_add(1, Ordering::SeqCst);
    }

    fn hold(&self) {
        self.held.store(1, Ordering::SeqCst);
        self.wait(self.made, self.until);
        if self.behind {
            self.wait(&self.come, 1);
        }
    }

    /// Whether each session got on in time, and session 0 was held.
    pub(crate) fn is_passed(&self) -> bool {
        self.held.load(Ordering::SeqCst) == 1 && self.missed.load(Ordering::SeqCst) == 0
    }
}

impl<'n> Gate for Holding<'n> {
    fn before<R: Wait>(&self, _rt: &R, session: u32, line: u64) {
        if session == 1 && line == 1 {
            self.wait(&self.held, 1);
        }
        if session == 1 && line == 3 {
            self.come.store(1, Ordering::SeqCst);
        }
        if session == 0 && line == self.line {
            self.hold();
        }
    }

    fn coding<R: Wait>(&self, _rt: &R, session: u32) {
        if session == 0
            && self.begun.fetch_add(1, Ordering::SeqCst).wrapping_add(1) == self.coding
        {
            self.hold();
        }
    }
}
