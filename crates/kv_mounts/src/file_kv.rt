ghost use Rattle.std.specs.Prelude.{◌≡◌, ◌≤◌, ◌<◌, false, IfOk};
ghost use Rattle.kv_face.specs.Store.{IsToldExactly};

use crate::paths::{put_file, read_file, remove_file};
use kv_face::{Change, Failed, KvError, KvStore};
use std::alloc::AllocError;
use std::fs::Files;
use std::marker::Model;

/// A store of files: a key is the path of a file below a folder, and an absent key has no file.
///
/// Bytes are written beside the file, under its name with `~new` behind, and take its place; when they reach the disk is left to
/// the system. Folders are made as they are needed. Only regular files are read: a pipe or a device under a key fails. A key of which a part between "/" is empty, `.` or `..`, or ends in `~new`, fails. Changes are made one at a time.
/// Each error of the system is a fault; that a file is missing isn't one. What the files hold no contract tells.
#[derive(Drop)]
pub struct FileKv<R: Files + AllocGlobal + Drop> {
    rt: R,
    root: String,
    full: Vec<u64>,
    last: u64,
    is_finished: bool,
}

impl<R: Files + AllocGlobal + Drop> Model for FileKv<R> {
    ghost use Rattle.std.specs.Prelude.{◌+◌, sum};
    ghost use Rattle.kv_mounts.specs.Files.{FileStore};

    ghost Value = { FileStore };

    ghost view = { λ s. record { faults = sum s.full.items + s.last; is_finished = s.is_finished } };
}

impl<R: Files + AllocGlobal + Drop> FileKv<R> {
    /// The files below a folder; an empty text is the current one.
    ///
    /// # Errors
    /// An allocation failed.
    pub fn new(rt: R, root: &str) -> Result<Self, AllocError>
        ensures { IfOk result (λ s. s ≡ record { faults = 0; is_finished = false }) }
    {
        let alloc = rt.alloc();
        let root = String::from_str(alloc, if root.is_empty() { "." } else { root })?;
        Ok(FileKv {
            rt,
            root,
            full: Vec::new(alloc),
            last: 0,
            is_finished: false,
        })
    }

    // Counts a fault. Where the last count is full and there is no memory for another, that is the answer.
    fn fault(&mut self) -> KvError
        ensures cause { IsToldExactly self.old.faults self.new.faults (result ≡ KvError.Failed) }
        ensures kept { self.new.is_finished ≡ self.old.is_finished }
    {
        if self.last == u64::MAX {
            if self.full.push(self.last).is_err() {
                return KvError::Memory;
            }
            self.last = 0;
        }
        self.last += 1;
        KvError::Failed
    }

    // The answer for a failure.
    fn failed(&mut self, e: KvError) -> KvError
        ensures cause { IsToldExactly self.old.faults self.new.faults (result ≡ KvError.Failed) }
        ensures kept { self.new.is_finished ≡ self.old.is_finished }
        ensures memory { e ≡ KvError.Memory → result ≡ KvError.Memory }
    {
        match e {
            KvError::Failed => self.fault(),
            KvError::Memory => KvError::Memory,
        }
    }
}

impl<R: Files + AllocGlobal + Drop> KvStore for FileKv<R> {
    ghost use Rattle.kv_mounts.specs.Files.{file_seen};

    ghost seen = { file_seen };

    fn get(&mut self, key: &str) -> Result<Option<Vec<u8>>, KvError> {
        match read_file(&self.rt, self.root.as_str(), key) {
            Ok(bytes) => Ok(bytes),
            Err(e) => Err(self.failed(e)),
        }
    }

    fn together(&self, changes: &[Change], _from: usize) -> bool {
        changes.len() <= 1
    }

    fn apply(&mut self, changes: &[Change]) -> Result<(), KvError> {
        let Some(change) = changes.first() else {
            return Ok(());
        };
        self.is_finished = false;
        let made = match &change.bytes {
            Some(bytes) => put_file(
                &self.rt,
                self.root.as_str(),
                change.key.items(),
                bytes.items(),
            ),
            None => remove_file(&self.rt, self.root.as_str(), change.key.items()),
        };
        match made {
            Ok(()) => Ok(()),
            Err(e) => Err(self.failed(e)),
        }
    }

    fn finish(&mut self) -> Result<(), Failed> {
        self.is_finished = true;
        Ok(())
    }
}
