//! The right to take the turn.
ghost use Rattle.std.specs.Prelude.{◌≡◌};

use crate::book::Book;
use crate::view::SeatView;
use atomic_table::Seat;
use std::marker::Model;

/// One worker's right to take the turn. A contract sees its book, its number, what it has seen of the history, its own
/// entries there, and whether it holds the turn.
#[derive(Drop)]
pub struct Pass<S: Book> {
    pub(crate) number: u32,
    pub(crate) seat: Seat<Option<S>, SeatView<S::Entry, S::Fixed>>,
}

impl<S: Book> Model for Pass<S> {
    ghost use Rattle.turn_book.specs.Passes.{PassView, pass_at};
    ghost use Rattle.turn_book.specs.Seats.{IsSeated};

    ghost Value = { PassView S.Entry S.Fixed };

    ghost view = { λ p. pass_at p.seat.table_id p.number p.seat.me.0 };

    ghost invariant = { λ p. IsSeated p.number p.seat.me };
}

impl<S: Book> Pass<S> {
    /// Its number, which is its place among the passes of its book.
    pub fn number(&self) -> u32
        ensures { result ≡ self.now.number }
    {
        self.number
    }
}
