// A store of a program.
use bytes::Bytes;
use kv_face::{Change, Failed, KvError, KvStore, MemoryKv};
use kv_mounts::FileKv;
use std::fs::Files;

/// A store in memory, or the files below a folder.
#[derive(Drop)]
pub enum Store<R: Files + AllocGlobal + Drop> {
    Memory(MemoryKv),
    Files(FileKv<R>),
}

impl<R: Files + AllocGlobal + Drop> KvStore for Store<R> {
    ghost use Rattle.script_runner.specs.Stores.{seen_of};

    ghost seen = { seen_of };

    fn get(&mut self, key: &str) -> Result<Option<Vec<u8>>, KvError> {
        match self {
            Store::Memory(store) => store.get(key),
            Store::Files(store) => store.get(key),
        }
    }

    fn get_shared(&mut self, key: &str) -> Result<Option<Bytes>, KvError> {
        match self {
            Store::Memory(store) => store.get_shared(key),
            Store::Files(store) => store.get_shared(key),
        }
    }

    fn together(&self, changes: &[Change], from: usize) -> bool {
        match self {
            Store::Memory(store) => store.together(changes, from),
            Store::Files(store) => store.together(changes, from),
        }
    }

    fn apply(&mut self, changes: &[Change]) -> Result<(), KvError> {
        match self {
            Store::Memory(store) => store.apply(changes),
            Store::Files(store) => store.apply(changes),
        }
    }

    fn apply_owned(&mut self, changes: Vec<Change>) -> Result<(), KvError> {
        match self {
            Store::Memory(store) => store.apply_owned(changes),
            Store::Files(store) => store.apply_owned(changes),
        }
    }

    fn finish(&mut self) -> Result<(), Failed> {
        match self {
            Store::Memory(store) => store.finish(),
            Store::Files(store) => store.finish(),
        }
    }
}
