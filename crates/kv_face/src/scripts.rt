ghost use Rattle.std.specs.Prelude.{◌≡◌, ◌≤◌, ◌<◌, ◌+◌, ◌^◌, ◌++◌, ◌∷◌, [], ◌↔◌, ◌||◌, ◌&&◌, min, length, take, drop, slice_get, Some, IfOk, IfSome, OnOk, OnErr, IsErr, IsTrue, option_map};
ghost use Rattle.std.specs.FinMap as finmap;
ghost use Rattle.kv_face.specs.Added.{scripts_of, bytes_of, left_of};
ghost use Rattle.kv_face.specs.Streams.{TakesBytes, WhereTold, Rises};

use crate::calls::{CountedCalls, one_more};
use crate::error::Failed;
use crate::streams::Scripts;
use cells::{List, Name};
use std::alloc::{AllocError, Global};
use std::marker::Model;

#[derive(Drop)]
struct Script {
    name: Name,
    bytes: List<u8>,
}

/// Scripts in memory, whose calls fail exactly where a test says so.
///
/// A `select` fails where it was named, or where its name is unknown; a `next` fails where it was named. Before a
/// `select`, and after one that failed, nothing is left to read.
#[derive(Drop)]
pub struct MemoryScripts {
    alloc: Global,
    scripts: Vec<Script>,
    reading: Option<usize>,
    at: usize,
    selects: CountedCalls,
    nexts: CountedCalls,
    faults: u64,
}

impl Model for MemoryScripts {
    ghost use Rattle.std.specs.Prelude.{◌<◌, length, IfSome};
    ghost use Rattle.std.specs.Coded.{codes};
    ghost use Rattle.kv_face.specs.Store.{contents_code};
    ghost use Rattle.kv_face.specs.MemoryStreams.{ScriptsInMemory};
    ghost use Rattle.kv_face.specs.Added.{scripts_of, left_of};

    ghost Value = { ScriptsInMemory };

    ghost coded = { Prim.hlevel (codes, contents_code) };

    ghost view = { λ s. record {
      scripts = scripts_of s.scripts.items;
      left = left_of s.scripts.items s.reading s.at;
      selects = s.selects;
      nexts = s.nexts;
      faults = s.faults;
    } };

    ghost invariant = { λ s. IfSome s.reading (λ place. place < length s.scripts.items) };
}

impl MemoryScripts {
    ghost use Rattle.kv_face.specs.MemoryStreams.{no_scripts};

    /// No scripts, and no call that is to fail.
    pub fn new(alloc: Global) -> Self
        ensures { result ≡ no_scripts }
    {
        MemoryScripts {
            alloc,
            scripts: Vec::new(alloc),
            reading: None,
            at: 0,
            selects: CountedCalls::new(alloc),
            nexts: CountedCalls::new(alloc),
            faults: 0,
        }
    }

    /// Adds a script. Under a name that is there already the new bytes stand from now on; a script that is being read goes
    /// on as it was.
    ///
    /// # Errors
    /// Want of memory alone; then nothing changed.
    pub fn add(&mut self, name: &str, bytes: &[u8]) -> Result<(), AllocError>
        ensures ok { OnOk result (self.new
            ≡ record self.old { scripts = finmap.insert self.old.scripts name.now bytes.now }) }
        ensures err { OnErr result (self.new ≡ self.old) }
    {
        let name = Name::wrap(String::from_str(self.alloc, name)?);
        let bytes = List::wrap(Vec::from_slice(self.alloc, bytes)?);
        self.scripts.push(Script { name, bytes })?;
        Ok(())
    }

    /// Names a call of `select`, counted from 1, that is to fail.
    ///
    /// # Errors
    /// Want of memory alone; then nothing changed.
    pub fn fail_select(&mut self, nth: u64) -> Result<(), AllocError>
        ensures ok { OnOk result (self.new
            ≡ record self.old { selects = record self.old.selects { named = self.old.selects.named ++ nth ∷ [] } }) }
        ensures err { OnErr result (self.new ≡ self.old) }
    {
        self.selects.name(nth)
    }

    /// Names a call of `next`, counted from 1, that is to fail.
    ///
    /// # Errors
    /// Want of memory alone; then nothing changed.
    pub fn fail_next(&mut self, nth: u64) -> Result<(), AllocError>
        ensures ok { OnOk result (self.new
            ≡ record self.old { nexts = record self.old.nexts { named = self.old.nexts.named ++ nth ∷ [] } }) }
        ensures err { OnErr result (self.new ≡ self.old) }
    {
        self.nexts.name(nth)
    }
}

/// The place of the last script of a name.
fn place_of(scripts: &[Script], name: &str) -> Option<usize>
    ensures bytes { option_map (λ place. bytes_of (slice_get scripts.now place)) result
        ≡ finmap.get (scripts_of scripts.now) name.now }
    ensures within { IfSome result (λ place. place < length scripts.now) }
{
    let mut place = None;
    for i in 0..scripts.len() {
        if name == scripts[i].name.items() {
            place = Some(i);
        }
    }
    place
}

/// What is left of the script at a place.
fn left(scripts: &[Script], place: Option<usize>, at: usize) -> &[u8]
    ensures bytes { result.now ≡ left_of scripts.now place at }
    ensures fits { at + length result.now < 2 ^ 64 }
{
    let Some(place) = place else {
        return &[];
    };
    let Some(script) = scripts.get(place) else {
        return &[];
    };
    let bytes = script.bytes.items();
    let (_, rest) = bytes.split_at(at.min(bytes.len()));
    rest
}

/// Copies as many bytes as there is room for.
fn copy_front(from: &[u8], to: &mut [u8]) -> usize
    ensures count { result ≡ min (length from.now) (length to.old) }
    ensures bytes { to.new ≡ take result from.now ++ drop result to.old }
{
    let n = from.len().min(to.len());
    let (front, _) = from.split_at(n);
    let (place, _) = to.split_at_mut(n);
    place.copy_from_slice(front);
    n
}

impl Scripts for MemoryScripts {
    ghost use Rattle.std.specs.Prelude.{Some};
    ghost use Rattle.std.specs.FinMap as finmap;
    ghost use Rattle.kv_face.specs.Memory.{fails};
    ghost use Rattle.kv_face.specs.MemoryStreams.{select_fails, after_select, after_next};

    ghost contents = { λ s. Some s.scripts };

    ghost left = { λ s. Some s.left };

    ghost faults = { λ s. s.faults };

    fn select(&mut self, name: &str) -> Result<(), Failed>
        ensures failed { IsErr result ↔ IsTrue (select_fails self.old name.now) }
        ensures after { self.new ≡ after_select self.old name.now }
        ensures cause { Rises self.old.faults self.new.faults (IsErr result) }
    {
        self.reading = None;
        self.at = 0;
        if !self.selects.call() {
            self.reading = place_of(&self.scripts, name);
        }
        if self.reading.is_some() {
            return Ok(());
        }
        self.faults = one_more(self.faults);
        Err(Failed)
    }

    fn next(&mut self, buf: &mut [u8]) -> Result<usize, Failed>
        ensures failed { IsErr result ↔ IsTrue (fails self.old.nexts) }
        ensures count { IfOk result (λ n. n ≡ min (length self.old.left) (length buf.old)) }
        ensures bytes { IfOk result (λ n. buf.new ≡ take n self.old.left ++ drop n buf.old) }
        ensures kept { OnErr result (buf.new ≡ buf.old) }
        ensures after { self.new ≡ after_next self.old (length buf.old) }
        ensures cause { Rises self.old.faults self.new.faults (IsErr result) }
    {
        if self.nexts.call() {
            self.faults = one_more(self.faults);
            return Err(Failed);
        }
        let n = copy_front(left(&self.scripts, self.reading, self.at), buf);
        self.at += n;
        Ok(n)
    }
}
