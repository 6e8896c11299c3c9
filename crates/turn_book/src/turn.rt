//! The book as it is shared, and the turn.
ghost use Rattle.std.specs.Prelude.{◌≡◌, ℕ, [], ◌<◌, true, All, vec_len, IfOk, IfErr};
ghost use mathlib.Core.List.{IsPrefix};
ghost use Rattle.turn_book.specs.History.{entries_of, Continues};
ghost use Rattle.turn_book.specs.Passes.{AreNew, HasNumber, IsOf, IsIdle, with_turn, without_turn};

use crate::book::Book;
use crate::held::Held;
use crate::pass::Pass;
use crate::rule::{Origin, Turns};
use crate::seats::{deal, finish, put, unite, win};
use crate::view::SeatView;
use atomic_table::Table;
use std::alloc::Global;
use std::marker::Model;
use std::snapshot::Snapshot;
use std::sync::Wait;

/// There was no memory for the book. The value comes back.
#[derive(Drop)]
pub struct Refused<S> {
    pub state: S,
}

/// A value behind a turn. A contract sees which book it is, how many passes it has, and its fixed value.
#[derive(Drop)]
pub struct TurnBook<S: Book> {
    table: Table<Option<S>, SeatView<S::Entry, S::Fixed>, Origin<S>, Turns<S>, Global>,
}

impl<S: Book> Model for TurnBook<S> {
    ghost use Rattle.std.specs.Prelude.{◌≡◌, ◌<◌};
    ghost use Rattle.turn_book.specs.Passes.{BookView, book_at};

    ghost Value = { BookView S.Fixed };

    ghost view = { λ b. book_at b.table.shared.table_id b.table.shared.key.passes (S.opening b.table.shared.key.start.value) };

    ghost invariant = { λ b. (b.table.shared.table_id.words ≡ 1) × (b.table.shared.table_id.slots ≡ 1) × (0 < b.table.shared.key.passes) };
}

impl<S: Book> TurnBook<S> {
    /// Puts a value that has no history yet behind a turn. The pass at place k has the number k.
    ///
    /// # Errors
    ///
    /// `Refused` for want of memory, with the value.
    pub fn start(
        alloc: Global,
        state: S,
        passes: u32,
    ) -> Result<(TurnBook<S>, Vec<Pass<S>>), Refused<S>>
        requires some_pass { 0 < passes }
        requires no_history { S.history state ≡ [] }
        requires agrees { S.agrees state (S.opening state) }
        ensures book { IfOk result (λ r. (r.0.fixed ≡ S.opening state) × (r.0.passes ≡ passes)) }
        ensures count { IfOk result (λ r. vec_len r.1 ≡ passes) }
        ensures passes { IfOk result (λ r. AreNew r.0 r.1.items) }
        ensures refused { IfErr result (λ r. r.state ≡ state) }
    {
        let Ok(row) = Vec::with_capacity(alloc, passes as usize) else {
            return Err(Refused { state });
        };
        let Ok(mut slots) = Vec::with_capacity(alloc, 1) else {
            return Err(Refused { state });
        };
        let origin = Origin {
            start: Snapshot::of(&state),
            passes,
        };
        slots.push_reserved(Some(state));
        match Table::new(alloc, &[0], slots, &origin) {
            Ok((table, seat)) => {
                let row = deal(&table.shared, seat, row, passes);
                Ok((TurnBook { table }, row))
            }
            Err(refused) => {
                let mut slots = refused.slots;
                let state = slots.pop().unwrap().unwrap();
                slots.destroy_empty();
                Err(Refused { state })
            }
        }
    }

    /// Waits for the turn and takes it. The value's history begins with all that the pass had seen.
    pub fn take<R: Wait>(&self, rt: &R, pass: &mut Pass<S>) -> Held<S>
        requires pass { IsIdle self.now pass.old }
        ensures agrees { S.agrees result self.now.fixed }
        ensures before { IsPrefix pass.old.seen (S.history result) }
        ensures mine { entries_of S.owner pass.old.number (S.history result) ≡ pass.old.mine }
        ensures pass { pass.new ≡ with_turn (S.history result) pass.old }
    {
        win(&self.table.shared, rt, &mut pass.seat);
        let state = self.table.shared.exchange(&mut pass.seat, 0, None).unwrap();
        Held { state }
    }

    /// Gives the turn back. The pass may have added entries of its own to the history, and nothing else.
    pub fn give(&self, pass: &mut Pass<S>, held: Held<S>)
        requires book { IsOf self.now pass.old }
        requires holds { pass.old.holds ≡ true }
        requires agrees { S.agrees held self.now.fixed }
        requires added { Continues S.owner pass.old.number pass.old.seen (S.history held) }
        ensures pass { pass.new ≡ without_turn S.owner (S.history held) pass.old }
    {
        let Held { state } = held;
        put(&self.table.shared, &mut pass.seat, state);
    }

    /// The last value, once every pass is back.
    pub fn close(self, mut passes: Vec<Pass<S>>) -> S
        requires passes { All (IsIdle self) passes.items }
        requires each { (k : ℕ) → k < self.passes → HasNumber passes.items k }
        ensures agrees { S.agrees result self.fixed }
        ensures seen { All (λ p. IsPrefix p.seen (S.history result)) passes.items }
        ensures mine { All (λ p. entries_of S.owner p.number (S.history result) ≡ p.mine) passes.items }
        ensures owners { All (λ e. S.owner e < self.passes) (S.history result) }
    {
        let TurnBook { table } = self;
        let Pass {
            number: _,
            mut seat,
        } = passes.pop().unwrap();
        unite(&table.shared, &mut seat, passes);
        finish(table, seat)
    }
}
