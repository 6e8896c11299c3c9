// The versions of a chunk's words.
ghost use Rattle.std.specs.Prelude.{◌≡◌, ◌<◌, ◌≤◌, ℕ, ◌↔◌, ◌&&◌, ◌==◌, nat_le, [], ◌∷◌, length, Some, None, IfOk, OnOk, OnErr, IsTrue, Contains, if◌then◌else◌};
ghost use Rattle.chunk_versions.specs.Moments.{newest, touched};
ghost use Rattle.chunk_versions.specs.Versions.{IsVersions, word_as_of, with_table, with_put, HasSameWords};

use crate::put::Put;
use crate::touches::is_among;
use crate::walks::{link_of, put_at};
use std::alloc::{AllocError, Global};
use std::marker::Model;

/// The most words that are put, and the most events that touch the chunk.
const MOST: usize = 4_294_967_295;

/// The words that the places of one chunk had, behind each event. The time of `put` and `word` is constant; the memory is 16 bytes for each
/// word that is put, 8 for each event that touches the chunk, and 4 for each place once a word is put.
#[derive(Debug, Drop)]
pub struct ChunkVersions {
    pub(crate) size: usize,
    pub(crate) fill: u64,
    pub(crate) touches: Vec<u64>,
    pub(crate) last: Vec<u32>,
    pub(crate) puts: Vec<Put>,
}

impl Model for ChunkVersions {
    ghost use Rattle.chunk_versions.specs.Versions.{Versions, IsVersions};

    ghost Value = { Versions };

    ghost view = { λ c. record {
      size = c.size;
      fill = c.fill;
      touches = c.touches.items;
      last = c.last.items;
      puts = c.puts.items;
    } };

    ghost invariant = { λ c. IsVersions (record {
      size = c.size;
      fill = c.fill;
      touches = c.touches.items;
      last = c.last.items;
      puts = c.puts.items;
    }) };
}

impl ChunkVersions {
    /// A chunk of so many places, opened by the event of this number, each with the same word.
    ///
    /// # Errors
    /// `AllocError` where memory is wanting.
    pub fn new(
        alloc: Global,
        opened: u64,
        size: usize,
        fill: u64,
    ) -> Result<ChunkVersions, AllocError>
        ensures size { IfOk result (λ v. v.size ≡ size) }
        ensures touches { IfOk result (λ v. v.touches ≡ opened ∷ []) }
        ensures words { IfOk result (λ v. (m place : ℕ)
            → word_as_of v m place ≡ (if nat_le opened m then Some fill else None)) }
    {
        let touches = Vec::from_slice(alloc, &[opened])?;
        Ok(ChunkVersions {
            size,
            fill,
            touches,
            last: Vec::new(alloc),
            puts: Vec::new(alloc),
        })
    }

    /// Puts a word at a place, by the event of this number, in place of what the event put there before. The chunk is touched by the event.
    ///
    /// # Errors
    /// `AllocError` where memory is wanting, or 2^32 - 1 words were put. No word has changed then.
    pub fn put(
        &mut self,
        alloc: Global,
        number: u64,
        place: usize,
        word: u64,
    ) -> Result<(), AllocError>
        requires number { newest self.old.touches ≤ number }
        requires place { place < self.old.size }
        ensures size { self.new.size ≡ self.old.size }
        ensures touches { OnOk result (self.new.touches ≡ touched number self.old.touches) }
        ensures words { OnOk result ((m q : ℕ) → word_as_of self.new m q
            ≡ (if nat_le number m && q == place then Some word else word_as_of self.old m q)) }
        ensures err { OnErr result (HasSameWords self.old self.new) }
    {
        match self.touch(number) {
            Ok(()) => self.put_newest(alloc, place, word),
            Err(e) => Err(e),
        }
    }

    /// How many places the chunk has.
    pub fn size(&self) -> usize
        ensures { result ≡ self.now.size }
    {
        self.size
    }

    /// The number of the newest event that touched the chunk.
    pub fn newest(&self) -> u64
        ensures value { result ≡ newest self.now.touches }
        ensures valid { IsVersions self.now }
    {
        self.touches[self.touches.len() - 1]
    }

    /// The word that a place has now.
    pub fn word(&self, place: usize) -> u64
        ensures { (m : ℕ) → newest self.now.touches ≤ m → word_as_of self.now m place ≡ Some result }
    {
        let link = link_of(&self.last, place);
        put_at(&self.puts, self.fill, link).word
    }

    /// Whether the event of this number touched the chunk. The time is logarithmic in the count of events that did.
    pub fn is_touched(&self, number: u64) -> bool
        ensures { IsTrue result ↔ Contains self.now.touches number }
    {
        is_among(&self.touches, number)
    }

    // The event of this number touches the chunk.
    fn touch(&mut self, number: u64) -> Result<(), AllocError>
        requires { newest self.old.touches ≤ number }
        ensures ok { OnOk result (self.new ≡ record self.old { touches = touched number self.old.touches }) }
        ensures err { OnErr result (self.new ≡ self.old) }
        ensures valid { IsVersions self.old }
    {
        if self.touches[self.touches.len() - 1] == number {
            return Ok(());
        }
        self.touches.push(number)?;
        Ok(())
    }

    // Puts a word at a place, by the newest event.
    fn put_newest(&mut self, alloc: Global, place: usize, word: u64) -> Result<(), AllocError>
        requires { place < self.old.size }
        ensures ok { OnOk result (self.new ≡ with_put place word (with_table self.old)) }
        ensures err { OnErr result (HasSameWords self.old self.new) }
        ensures size { self.new.size ≡ self.old.size }
        ensures valid { IsVersions self.old }
    {
        match self.make_table(alloc) {
            Ok(()) => self.link(place, word),
            Err(e) => Err(e),
        }
    }

    // Makes room for the newest puts of the places, where there is none.
    fn make_table(&mut self, alloc: Global) -> Result<(), AllocError>
        ensures ok { OnOk result (self.new ≡ with_table self.old) }
        ensures err { OnErr result (self.new ≡ self.old) }
        ensures valid { IsVersions self.old }
    {
        if self.last.is_empty() {
            self.last = vec![in alloc; 0; self.size]?;
        }
        Ok(())
    }

    // Puts a word at a place, by the newest event, in a table that has the place.
    fn link(&mut self, place: usize, word: u64) -> Result<(), AllocError>
        requires { place < length self.old.last }
        ensures ok { OnOk result (self.new ≡ with_put place word self.old) }
        ensures err { OnErr result (self.new ≡ self.old) }
    {
        if self.puts.len() >= MOST || self.touches.len() > MOST {
            return Err(AllocError);
        }
        let touch = (self.touches.len() - 1) as u32;
        let before = self.last[place];
        self.puts.push(Put {
            word,
            touch,
            before,
        })?;
        self.last[place] = self.puts.len() as u32;
        Ok(())
    }
}
