//! The rule of the table, and what each step tells the seat that takes it.
use crate::book::Book;
use crate::view::SeatView;
use atomic_table::{Join, Play, Split, TableRule};
use std::marker::PhantomData;
use std::snapshot::Snapshot;

/// The value as it was given to `start`, and how many passes there are.
#[derive(Drop)]
pub struct Origin<S> {
    pub start: Snapshot<S>,
    pub passes: u32,
}

/// The rule: see `KeepsTurn`.
pub struct Turns<S> {
    state: PhantomData<S>,
}

impl<S: Book> TableRule<Option<S>, SeatView<S::Entry, S::Fixed>, Origin<S>> for Turns<S> {
    ghost use Rattle.turn_book.specs.Rule.{KeepsTurn};
    ghost use Rattle.turn_book.specs.Views.{first_view};

    ghost holds = { λ origin. KeepsTurn S.owner S.history S.agrees origin.passes (S.opening origin.start.value) };

    ghost first = { λ origin. first_view (S.opening origin.start.value) origin.passes };
}

/// The turn is taken where it is free, and nothing changes where it isn't.
pub struct Takes<S> {
    state: PhantomData<S>,
}

impl<S: Book> Play<Option<S>, SeatView<S::Entry, S::Fixed>> for Takes<S> {
    ghost use Rattle.turn_book.specs.Steps.{TakesIfFree};

    ghost then = { TakesIfFree S.owner S.history S.agrees };
}

/// The turn is given back with the value that lies in the slot.
pub struct Gives<S> {
    state: PhantomData<S>,
}

impl<S: Book> Play<Option<S>, SeatView<S::Entry, S::Fixed>> for Gives<S> {
    ghost use Rattle.turn_book.specs.Steps.{GivesBack};

    ghost then = { GivesBack S.owner S.history };
}

/// A number goes to a seat of its own, and comes back from it.
pub struct Deals;

impl<E, F> Split<SeatView<E, F>> for Deals {
    ghost use Rattle.turn_book.specs.Views.{without_own, own_alone};

    ghost left = { without_own };

    ghost right = { own_alone };
}

impl<E, F> Join<SeatView<E, F>> for Deals {
    ghost use Rattle.turn_book.specs.Views.{united, spent};

    ghost both = { united };

    ghost spent = { spent };
}
