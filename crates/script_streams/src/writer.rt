// What takes texts.
ghost use Rattle.std.specs.Prelude.{◌≡◌, ◌++◌, ℕ, List, Option, Some, Bool, OnOk, IsErr, is_ok};
ghost use Rattle.kv_face.specs.Streams.{WhereTold, Rises, IsPartOf};

use kv_face::{Failed, Sink, write_all};

/// What takes texts whole, or a front part of one where it fails. Each `Sink` does, by `write_all`.
pub trait Writer {
    /// All that was written, where it is told.
    ghost content: { Self → Option (List ℕ) };

    /// How many faults there were. It never falls.
    ghost faults: { Self → ℕ };

    /// What may come of a text: whether it was taken whole, and what is then.
    ghost takes: { Self → List ℕ → Bool → Self → Type 0 };

    /// Writes all of a text, or a front part of it.
    ///
    /// # Errors
    /// `Failed` where nothing more can be written.
    fn put(&mut self, text: &[u8]) -> Result<(), Failed>
        ensures all { OnOk result (WhereTold (content self.old) (λ bytes.
            content self.new ≡ Some (bytes ++ text.now))) }
        ensures part { WhereTold (content self.old) (λ bytes. IsPartOf (content self.new) bytes text.now) }
        ensures cause { Rises (faults self.old) (faults self.new) (IsErr result) }
        ensures takes { takes self.old text.now (is_ok result) self.new };
}

impl<O: Sink> Writer for O {
    ghost use Rattle.script_streams.specs.Putting.{IsTaken};

    ghost content = { O.content };

    ghost faults = { O.faults };

    ghost takes = { λ old text whole new. IsTaken (O.content old) (O.content new) (O.faults old) (O.faults new) text whole };

    fn put(&mut self, text: &[u8]) -> Result<(), Failed> {
        write_all(self, text)
    }
}
