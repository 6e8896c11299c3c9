// Scripts of a real program. They tell no bytes: what a file holds is the system's.
ghost use Rattle.std.specs.Prelude.{◌≡◌, None};

use kv_face::{Failed, Scripts, one_more};
use std::fs::{self, Files};
use std::io::Read;
use std::marker::Model;

/// Scripts that are files, by their paths. A contract sees its count of faults alone.
#[derive(Drop)]
pub struct FileScripts<R: Files + Drop> {
    rt: R,
    file: Option<R::File>,
    faults: u64,
}

impl<R: Files + Drop> Model for FileScripts<R> {
    ghost use Rattle.std.specs.Prelude.{ℕ};

    ghost Value = { ℕ };

    ghost view = { λ s. s.faults };
}

impl<R: Files + Drop> FileScripts<R> {
    /// The files that the runtime reaches.
    pub fn new(rt: R) -> Self
        ensures { result ≡ 0 }
    {
        FileScripts {
            rt,
            file: None,
            faults: 0,
        }
    }
}

impl<R: Files + Drop> Scripts for FileScripts<R> {
    ghost contents = { λ s. None };

    ghost left = { λ s. None };

    ghost faults = { λ s. s };

    fn select(&mut self, name: &str) -> Result<(), Failed> {
        match fs::open(&self.rt, name) {
            Ok(file) => {
                self.file = Some(file);
                Ok(())
            }
            Err(_) => {
                self.file = None;
                self.faults = one_more(self.faults);
                Err(Failed)
            }
        }
    }

    fn next(&mut self, buf: &mut [u8]) -> Result<usize, Failed> {
        let Some(file) = &mut self.file else {
            return Ok(0);
        };
        match file.read(buf) {
            Ok(n) => Ok(n),
            Err(_) => {
                self.faults = one_more(self.faults);
                Err(Failed)
            }
        }
    }
}
