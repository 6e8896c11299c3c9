//! The steps of seats: the only place where the table's word and slot are touched.
//!
//! The word is 0 while the turn is free, 1 while it is held, and 2 while it is held and others may wait for it.
ghost use Rattle.std.specs.Prelude.{◌≡◌, ℕ, suc, map, All, ◌∷◌, ◌<◌, ◌≤◌, length, vec_len, vec_capacity, [], true, false};
ghost use Rattle.turn_book.specs.History.{Continues};
ghost use Rattle.turn_book.specs.Passes.{AreNew, IsIdle, new_pass, book_at, pass_at};
ghost use Rattle.turn_book.specs.Views.{new_view, new_claims, first_view, resting};
ghost use Rattle.turn_book.specs.Seats.{IsAt, HasAll, with_claims, claim_of, in_hand};
ghost use Rattle.turn_book.specs.Steps.{TakesTurn, Ends};

use crate::book::Book;
use crate::pass::Pass;
use crate::rule::{Deals, Gives, Origin, Takes, Turns};
use crate::view::SeatView;
use atomic_table::{Seat, Shared, Table};
use std::alloc::Global;
use std::hint;
use std::sync::Wait;

// How often the turn is asked for before its seat waits: for about as long as a thread takes to fall asleep and be woken, since a turn is often
// over sooner.
const TRIES: u32 = 2000;

// Asks for the turn for a short while, and says whether it is this seat's.
fn try_turn<S: Book>(
    shared: &Shared<Option<S>, SeatView<S::Entry, S::Fixed>, Origin<S>, Turns<S>>,
    seat: &mut Seat<Option<S>, SeatView<S::Entry, S::Fixed>>,
) -> bool
    requires at { IsAt (book_at shared.now.table_id shared.now.key.passes
        (S.opening shared.now.key.start.value)) seat.old }
    requires one_word { shared.now.table_id.words ≡ 1 }
    requires idle { seat.old.me.1 ≡ [] }
    ensures same { (seat.new.table_id ≡ seat.old.table_id) × (seat.new.id ≡ seat.old.id) }
    ensures turn { result ≡ true → TakesTurn S.owner S.history S.agrees seat.old.me seat.new.me }
    ensures not { result ≡ false → seat.new.me ≡ seat.old.me }
{
    for _ in 0..TRIES {
        if shared.compare_exchange::<Takes<S>>(seat, 0, 0, 1) == 0 {
            return true;
        }
        hint::spin_loop();
    }
    false
}

// Waits until the turn is this seat's.
pub(crate) fn win<S: Book, R: Wait>(
    shared: &Shared<Option<S>, SeatView<S::Entry, S::Fixed>, Origin<S>, Turns<S>>,
    rt: &R,
    seat: &mut Seat<Option<S>, SeatView<S::Entry, S::Fixed>>,
)
    requires at { IsAt (book_at shared.now.table_id shared.now.key.passes
        (S.opening shared.now.key.start.value)) seat.old }
    requires one_word { shared.now.table_id.words ≡ 1 }
    requires idle { seat.old.me.1 ≡ [] }
    ensures same { (seat.new.table_id ≡ seat.old.table_id) × (seat.new.id ≡ seat.old.id) }
    ensures turn { TakesTurn S.owner S.history S.agrees seat.old.me seat.new.me }
{
    if try_turn(shared, seat) {
        return;
    }
    for _ in rt.forever() {
        if shared.swap::<Takes<S>>(seat, 0, 2) == 0 {
            return;
        }
        shared.park(rt, 0, 2);
    }
    unreachable!()
}

// Puts the value back, gives the turn up, and wakes one of those that wait for it.
pub(crate) fn put<S: Book>(
    shared: &Shared<Option<S>, SeatView<S::Entry, S::Fixed>, Origin<S>, Turns<S>>,
    seat: &mut Seat<Option<S>, SeatView<S::Entry, S::Fixed>>,
    state: S,
)
    requires at { IsAt (book_at shared.now.table_id shared.now.key.passes
        (S.opening shared.now.key.start.value)) seat.old }
    requires one_word { shared.now.table_id.words ≡ 1 }
    requires turn { (seat.old.me.0.further ≡ []) × (seat.old.me.1 ≡ in_hand true) × (seat.old.me.0.holds ≡ true) }
    requires agrees { S.agrees state (S.opening shared.now.key.start.value) }
    requires added { Continues S.owner seat.old.me.0.own.number seat.old.me.0.own.seen (S.history state) }
    ensures same { (seat.new.table_id ≡ seat.old.table_id) × (seat.new.id ≡ seat.old.id) }
    ensures rests { seat.new.me ≡ (resting S.owner (S.history state) seat.old.me.0, []) }
{
    let empty = shared.exchange(seat, 0, Some(state));
    let None = empty else { unreachable!() };
    if shared.swap::<Gives<S>>(seat, 0, 0) == 2 {
        shared.wake_one(0);
    }
}

// The seat whose own number is `number` gives it to a pass, and keeps the further ones.
fn deal_one<S: Book>(
    shared: &Shared<Option<S>, SeatView<S::Entry, S::Fixed>, Origin<S>, Turns<S>>,
    seat: &mut Seat<Option<S>, SeatView<S::Entry, S::Fixed>>,
    number: u32,
) -> Pass<S>
    requires at { (seat.old.table_id ≡ shared.now.table_id) × (shared.now.table_id.words ≡ 1) }
    requires more { (k : ℕ) × (seat.old.me ≡
        (new_view (S.opening shared.now.key.start.value) number (new_claims (suc number) (suc k)), [])) }
    ensures table { seat.new.table_id ≡ seat.old.table_id }
    ensures left { (k : ℕ) → seat.old.me ≡ (
      new_view (S.opening shared.now.key.start.value) number
          (new_claims (suc number) (suc k)),
      [],
    ) → seat.new.me
        ≡ (new_view (S.opening shared.now.key.start.value) (suc number) (new_claims (suc (suc number)) k), []) }
    ensures pass { result ≡ new_pass (book_at shared.now.table_id shared.now.key.passes
        (S.opening shared.now.key.start.value)) number }
{
    let other = shared.split_seat::<Deals>(seat);
    pass_of(other, number)
}

// The seat with one number is that number's pass.
fn pass_of<S: Book>(seat: Seat<Option<S>, SeatView<S::Entry, S::Fixed>>, number: u32) -> Pass<S>
    requires { (fixed : S.Fixed) × (seat.me ≡ (new_view fixed number [], [])) }
    ensures { result ≡ pass_at seat.table_id number seat.me.0 }
{
    Pass { number, seat }
}

// Deals the numbers below `passes`, which all are the seat's, to as many passes.
pub(crate) fn deal<S: Book>(
    shared: &Shared<Option<S>, SeatView<S::Entry, S::Fixed>, Origin<S>, Turns<S>>,
    mut seat: Seat<Option<S>, SeatView<S::Entry, S::Fixed>>,
    mut row: Vec<Pass<S>>,
    passes: u32,
) -> Vec<Pass<S>>
    requires at { (seat.table_id ≡ shared.now.table_id) × (shared.now.table_id.words ≡ 1) }
    requires first { seat.me ≡ (first_view (S.opening shared.now.key.start.value) passes, []) }
    requires some_pass { (0 < passes) × (passes ≡ shared.now.key.passes) }
    requires room { (row.items ≡ []) × (passes ≤ vec_capacity row) }
    ensures count { vec_len result ≡ passes }
    ensures passes { AreNew (book_at shared.now.table_id shared.now.key.passes
        (S.opening shared.now.key.start.value)) result.items }
{
    let last = passes - 1;
    for number in 0..last {
        row.push_reserved(deal_one(shared, &mut seat, number));
    }
    row.push_reserved(pass_of(seat, last));
    row
}

// The seat takes in the numbers of all passes.
pub(crate) fn unite<S: Book>(
    shared: &Shared<Option<S>, SeatView<S::Entry, S::Fixed>, Origin<S>, Turns<S>>,
    seat: &mut Seat<Option<S>, SeatView<S::Entry, S::Fixed>>,
    mut passes: Vec<Pass<S>>,
)
    requires at { IsAt (book_at shared.now.table_id shared.now.key.passes
        (S.opening shared.now.key.start.value)) seat.old }
    requires one_word { shared.now.table_id.words ≡ 1 }
    requires passes { All (IsIdle (book_at shared.now.table_id shared.now.key.passes
        (S.opening shared.now.key.start.value))) passes.items }
    ensures table { seat.new.table_id ≡ seat.old.table_id }
    ensures claims { seat.new.me ≡ with_claims seat.old.me (map claim_of passes.items) }
{
    while let Some(pass) = passes.pop() {
        let Pass {
            number: _,
            seat: other,
        } = pass;
        shared.join_seat::<Deals>(seat, other);
    }
    passes.destroy_empty();
}

// The last value, where the seat has every number.
pub(crate) fn finish<S: Book>(
    table: Table<Option<S>, SeatView<S::Entry, S::Fixed>, Origin<S>, Turns<S>, Global>,
    seat: Seat<Option<S>, SeatView<S::Entry, S::Fixed>>,
) -> S
    requires at { IsAt (book_at table.shared.table_id table.shared.key.passes
        (S.opening table.shared.key.start.value)) seat }
    requires one_slot { table.shared.table_id.slots ≡ 1 }
    requires idle { seat.me.0.holds ≡ false }
    requires all { HasAll table.shared.key.passes seat.me.0 }
    ensures { Ends S.owner S.history S.agrees table.shared.key.passes
        (S.opening table.shared.key.start.value) seat.me.0 result }
{
    let mut closed = table.close_with(seat);
    let slot = closed.take(0);
    closed.free();
    slot.unwrap()
}
