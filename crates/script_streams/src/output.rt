// The output of a real program. It tells no bytes: what a terminal shows is the system's.
ghost use Rattle.std.specs.Prelude.{◌≡◌, None};

use kv_face::{Failed, Sink, one_more};
use std::io::Print;
use std::marker::Model;

/// Standard output. A contract sees its count of faults alone.
#[derive(Drop)]
pub struct StdoutSink<R: Print + Drop> {
    rt: R,
    faults: u64,
}

impl<R: Print + Drop> Model for StdoutSink<R> {
    ghost use Rattle.std.specs.Prelude.{ℕ};

    ghost Value = { ℕ };

    ghost view = { λ s. s.faults };
}

impl<R: Print + Drop> StdoutSink<R> {
    /// The standard output that the runtime reaches.
    pub fn new(rt: R) -> Self
        ensures { result ≡ 0 }
    {
        StdoutSink { rt, faults: 0 }
    }
}

impl<R: Print + Drop> Sink for StdoutSink<R> {
    ghost content = { λ s. None };

    ghost faults = { λ s. s };

    fn write(&mut self, piece: &[u8]) -> Result<usize, Failed> {
        if piece.is_empty() {
            return Ok(0);
        }
        match self.rt.write_some(piece) {
            Ok(n) if 0 < n => Ok(n),
            _ => {
                self.faults = one_more(self.faults);
                Err(Failed)
            }
        }
    }
}
