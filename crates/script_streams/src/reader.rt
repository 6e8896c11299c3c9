// What gives the scripts of names.
ghost use Rattle.std.specs.Prelude.{◌≡◌, ◌≤◌, ◌<◌, ℕ, List, Option, Result, Vec, Err, IfOk, IsErrOf, length};
ghost use Rattle.std.specs.declared.alloc.Global.{Global as Allocator};
ghost use Rattle.kv_face.specs.Store.{Contents};
ghost use Rattle.kv_face.specs.Streams.{WhereTold, Rises, IsMissing, script_of};
ghost use Rattle.kv_face.specs.declared.reading.ReadError.{ReadError as ReadErrorOf};

use kv_face::{ReadError, Scripts, read_script};
use std::alloc::Global;

/// What gives the script of a name. All `Scripts` do, by `read_script`.
pub trait Reader {
    /// The scripts under their names, where they are told.
    ghost contents: { Self → Option Contents };

    /// How many faults there were. It never falls.
    ghost faults: { Self → ℕ };

    /// What it may answer for a name, and what is left of it.
    ghost gives: { Self → List ℕ → Result (Vec ℕ Allocator) ReadErrorOf → Self → Type 0 };

    /// All bytes of a script, which has at most 2^26.
    ///
    /// # Errors
    /// `Failed` where there is no such script or it can't be read; else `TooLong`, or `Memory`, whichever comes first.
    fn read(&mut self, alloc: Global, name: &str) -> Result<Vec<u8>, ReadError>
        ensures all { IfOk result (λ v. WhereTold (script_of (contents self.old) name.now) (λ bytes. v.items ≡ bytes)) }
        ensures short { IfOk result (λ v. length v.items ≤ 67108864) }
        ensures long { IsErrOf result ReadError.TooLong
            → WhereTold (script_of (contents self.old) name.now) (λ bytes. 67108864 < length bytes) }
        ensures missing { IsMissing (contents self.old) name.now → result ≡ Err ReadError.Failed }
        ensures contents { contents self.new ≡ contents self.old }
        ensures cause { Rises (faults self.old) (faults self.new) (IsErrOf result ReadError.Failed) }
        ensures gives { gives self.old name.now result self.new };
}

impl<S: Scripts> Reader for S {
    ghost use Rattle.script_streams.specs.Asking.{IsRead};

    ghost contents = { S.contents };

    ghost faults = { S.faults };

    ghost gives = { λ old name result new. IsRead (S.contents old) (S.faults old) (S.faults new) name result };

    fn read(&mut self, alloc: Global, name: &str) -> Result<Vec<u8>, ReadError> {
        read_script(alloc, self, name)
    }
}
