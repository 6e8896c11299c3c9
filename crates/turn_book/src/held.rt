//! The value in a turn.
ghost use Rattle.std.specs.Prelude.{◌≡◌};

use std::marker::Model;

/// The value, for as long as the turn lasts. It goes back by `give`. A contract sees the value.
pub struct Held<S> {
    pub(crate) state: S,
}

impl<S> Model for Held<S> {
    ghost Value = { S };

    ghost view = { λ held. held.state };
}

impl<S> Held<S> {
    ghost use Rattle.std.specs.Borrow.{sem, Lends};
    ghost use Rattle.turn_book.specs.contracts.held.Held.{the_row};

    /// Lends the value.
    pub fn state(&mut self) -> &mut S
        ensures* lends { sem 𝓛 (Lends (the_row S.row) S.row self.entry result (λ state. state)) }
        ensures value { result.now ≡ self.old }
    {
        &mut self.state
    }
}
