use bytes::Bytes;
use kv_face::{Change, Failed, KvError, KvStore};

/// A store of any type, in a box that the caller makes. It is what the store in the box is.
#[derive(Drop)]
pub struct BoxedStore {
    pub store: Box<dyn KvStore + Send>,
}

impl KvStore for BoxedStore {
    ghost seen = { λ s. (KvStore-box s.store).seen s.store.value };

    fn get(&mut self, key: &str) -> Result<Option<Vec<u8>>, KvError> {
        self.store.get(key)
    }

    fn get_shared(&mut self, key: &str) -> Result<Option<Bytes>, KvError> {
        self.store.get_shared(key)
    }

    fn together(&self, changes: &[Change], from: usize) -> bool {
        self.store.together(changes, from)
    }

    fn apply(&mut self, changes: &[Change]) -> Result<(), KvError> {
        self.store.apply(changes)
    }

    fn apply_owned(&mut self, changes: Vec<Change>) -> Result<(), KvError> {
        self.store.apply_owned(changes)
    }

    fn finish(&mut self) -> Result<(), Failed> {
        self.store.finish()
    }
}
