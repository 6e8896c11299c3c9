ghost use Rattle.std.specs.Prelude.{◌≡◌, ◌≤◌, ◌<◌, ◌+◌, ◌++◌, ◌∷◌, [], ◌↔◌, ◌||◌, ◌&&◌, min, length, take, Some, IfOk, OnOk, OnErr, IsErr, IsTrue};
ghost use Rattle.kv_face.specs.Streams.{WhereTold, Rises};

use crate::calls::{CountedCalls, one_more};
use crate::error::Failed;
use crate::streams::Sink;
use std::alloc::{AllocError, Global};
use std::marker::Model;

/// A sink in memory with room for some bytes, whose calls fail exactly where a test says so.
///
/// A `write` fails where it was named, or where it has a byte to write and no room is left.
#[derive(Drop)]
pub struct MemorySink {
    bytes: Vec<u8>,
    room: usize,
    writes: CountedCalls,
    faults: u64,
}

impl Model for MemorySink {
    ghost use Rattle.std.specs.Prelude.{◌+◌, ◌≤◌, length, vec_capacity};
    ghost use Rattle.kv_face.specs.MemoryStreams.{SinkInMemory};

    ghost Value = { SinkInMemory };

    ghost view = { λ s. record { bytes = s.bytes.items; room = s.room; writes = s.writes; faults = s.faults } };

    ghost invariant = { λ s. length s.bytes.items + s.room ≤ vec_capacity s.bytes };
}

impl MemorySink {
    ghost use Rattle.kv_face.specs.MemoryStreams.{empty_sink};

    /// An empty sink, whose memory is taken at once.
    ///
    /// # Errors
    /// Want of memory alone.
    pub fn new(alloc: Global, room: usize) -> Result<Self, AllocError>
        ensures { IfOk result (λ sink. sink ≡ empty_sink room) }
    {
        Ok(MemorySink {
            bytes: Vec::with_capacity(alloc, room)?,
            room,
            writes: CountedCalls::new(alloc),
            faults: 0,
        })
    }

    /// Names a call of `write`, counted from 1, that is to fail.
    ///
    /// # Errors
    /// Want of memory alone; then nothing changed.
    pub fn fail_write(&mut self, nth: u64) -> Result<(), AllocError>
        ensures ok { OnOk result (self.new
            ≡ record self.old { writes = record self.old.writes { named = self.old.writes.named ++ nth ∷ [] } }) }
        ensures err { OnErr result (self.new ≡ self.old) }
    {
        self.writes.name(nth)
    }

    /// All that was written.
    pub fn bytes(&self) -> &[u8]
        ensures { result.now ≡ self.now.bytes }
    {
        &self.bytes
    }
}

impl Sink for MemorySink {
    ghost use Rattle.std.specs.Prelude.{Some};
    ghost use Rattle.kv_face.specs.MemoryStreams.{write_fails, after_write};

    ghost content = { λ s. Some s.bytes };

    ghost faults = { λ s. s.faults };

    fn write(&mut self, piece: &[u8]) -> Result<usize, Failed>
        ensures failed { IsErr result ↔ IsTrue (write_fails self.old piece.now) }
        ensures count { IfOk result (λ n. n ≡ min self.old.room (length piece.now)) }
        ensures after { self.new ≡ after_write self.old piece.now }
        ensures cause { Rises self.old.faults self.new.faults (IsErr result) }
    {
        let n = self.room.min(piece.len());
        if self.writes.call() || (n == 0 && !piece.is_empty()) {
            self.faults = one_more(self.faults);
            return Err(Failed);
        }
        let (front, _) = piece.split_at(n);
        if self.bytes.extend_from_slice(front).is_err() {
            unreachable!();
        }
        self.room -= n;
        Ok(n)
    }
}
