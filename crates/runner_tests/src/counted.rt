// A store in memory that tells others how often it was changed, and that wants memory where a test says so.
use kv_face::{Change, Failed, KvError, KvStore, MemoryKv};
use std::sync::atomic::{AtomicU64, Ordering};

/// A store in memory. Each call of `apply` that is made adds one to a number, which gates look at.
#[derive(Drop)]
pub(crate) struct Counted<'n> {
    pub store: MemoryKv,
    pub made: &'n AtomicU64,
    /// The call of `get`, counted down, that wants memory; 0 for none.
    pub get_wants: u64,
    /// The call of `apply` that wants memory.
    pub apply_wants: u64,
}

// Counts down, and says whether this is the call.
fn is_named(left: &mut u64) -> bool {
    if *left == 0 {
        return false;
    }
    *left -= 1;
    *left == 0
}

impl<'n> KvStore for Counted<'n> {
    ghost use Rattle.kv_face.specs.Memory.{seen_of};

    ghost seen = { λ s. seen_of s.store };

    fn get(&mut self, key: &str) -> Result<Option<Vec<u8>>, KvError> {
        if is_named(&mut self.get_wants) {
            return Err(KvError::Memory);
        }
        self.store.get(key)
    }

    fn together(&self, changes: &[Change], from: usize) -> bool {
        self.store.together(changes, from)
    }

    fn apply(&mut self, changes: &[Change]) -> Result<(), KvError> {
        if is_named(&mut self.apply_wants) {
            return Err(KvError::Memory);
        }
        let done = self.store.apply(changes);
        if done.is_ok() {
            self.made.fetch_add(1, Ordering::SeqCst);
        }
        done
    }

    fn finish(&mut self) -> Result<(), Failed> {
        self.store.finish()
    }
}
