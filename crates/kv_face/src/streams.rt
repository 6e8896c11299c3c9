// Where scripts come from and where answers go.
ghost use Rattle.std.specs.Prelude.{◌≡◌, ◌≤◌, ◌<◌, ◌++◌, ℕ, List, length, take, Option, Some, None, IfOk, OnOk, OnErr, IsErr};
ghost use Rattle.kv_face.specs.Store.{Contents};
ghost use Rattle.kv_face.specs.Streams.{TakesBytes, WhereTold, Rises, IsPartOf, IsMissing, script_of};

use crate::error::Failed;

/// Scripts under names.
pub trait Scripts {
    /// The scripts under their names, where they are told.
    ghost contents: { Self → Option Contents };

    /// What is left of the script that is read, where it is told.
    ghost left: { Self → Option (List ℕ) };

    /// How many faults there were. It never falls.
    ghost faults: { Self → ℕ };

    /// Goes to the start of a script.
    ///
    /// # Errors
    /// `Failed` where there is no script of that name, or it can't be read; the count of faults rose, unless it stands at its
    /// last value.
    fn select(&mut self, name: &str) -> Result<(), Failed>
        ensures contents { contents self.new ≡ contents self.old }
        ensures missing { IsMissing (contents self.old) name.now → IsErr result }
        ensures left { OnOk result (left self.new ≡ script_of (contents self.old) name.now) }
        ensures cause { Rises (faults self.old) (faults self.new) (IsErr result) };

    /// Reads some bytes of the script into the front of the buffer, and says how many; none at the end alone.
    ///
    /// # Errors
    /// `Failed` where the script can't be read on; the count of faults rose, unless it stands at its last value.
    fn next(&mut self, buf: &mut [u8]) -> Result<usize, Failed>
        requires { 0 < length buf.old }
        ensures contents { contents self.new ≡ contents self.old }
        ensures within { IfOk result (λ n. n ≤ length buf.new) }
        ensures bytes { IfOk result (λ n. WhereTold (left self.old)
            (λ bytes. TakesBytes bytes n buf.new (left self.new))) }
        ensures untold { left self.old ≡ None → left self.new ≡ None }
        ensures cause { Rises (faults self.old) (faults self.new) (IsErr result) };
}

/// Where the answers are written.
pub trait Sink {
    /// All that was written, where it is told.
    ghost content: { Self → Option (List ℕ) };

    /// How many faults there were. It never falls.
    ghost faults: { Self → ℕ };

    /// Writes some bytes from the front of a piece, and says how many: at least one, where the piece has one.
    ///
    /// # Errors
    /// `Failed` where nothing more can be written; the count of faults rose, unless it stands at its last value.
    fn write(&mut self, piece: &[u8]) -> Result<usize, Failed>
        ensures within { IfOk result (λ n. n ≤ length piece.now) }
        ensures some { IfOk result (λ n. 0 < length piece.now → 0 < n) }
        ensures bytes { IfOk result (λ n. WhereTold (content self.old)
            (λ bytes. content self.new ≡ Some (bytes ++ take n piece.now))) }
        ensures err { OnErr result (content self.new ≡ content self.old) }
        ensures untold { content self.old ≡ None → content self.new ≡ None }
        ensures cause { Rises (faults self.old) (faults self.new) (IsErr result) };
}

/// Writes all of a text, or a front part of it.
pub fn write_all<O: Sink>(sink: &mut O, text: &[u8]) -> Result<(), Failed>
    ensures all { OnOk result (WhereTold (O.content sink.old)
        (λ bytes. O.content sink.new ≡ Some (bytes ++ text.now))) }
    ensures part { WhereTold (O.content sink.old) (λ bytes. IsPartOf (O.content sink.new) bytes text.now) }
    ensures cause { Rises (O.faults sink.old) (O.faults sink.new) (IsErr result) }
{
    let mut rest = text;
    while !rest.is_empty() {
        let n = sink.write(rest)?;
        let (_, after) = rest.split_at(n);
        rest = after;
    }
    Ok(())
}
