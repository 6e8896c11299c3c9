//! What may lie behind a turn.
ghost use Rattle.std.specs.Prelude.{ℕ, List};

/// A value with a history, a list of entries each of which has an owner's number.
pub trait Book {
    /// What the history lists.
    type Entry;

    /// What contracts keep of the value as it was when it was put behind the turn.
    type Fixed;

    /// Whose an entry is.
    ghost owner: { Self.Entry → ℕ };

    /// The entries, oldest first.
    ghost history: { Self → List Self.Entry };

    /// The opening value, which is read off the value as it is put behind the turn.
    ghost opening: { Self → Self.Fixed };

    /// How the value agrees with the opening value for as long as it lies behind the turn.
    ghost agrees: { Self → Self.Fixed → Type 0 };
}
