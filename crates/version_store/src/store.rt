// The versions of all chunks.
ghost use Rattle.std.specs.Prelude.{◌≡◌, ◌++◌, [], List, length, false, None, IsTrue, OnOk};
ghost use Rattle.history.specs.Arrays.{Known, is_local};
ghost use Rattle.history.specs.Chunks.{Chunk};
ghost use Rattle.history.specs.History.{History};
ghost use Rattle.history.specs.Writes.{Put};
ghost use Rattle.history.specs.declared.array.Home.TheVariants.{Local};
ghost use Rattle.version_store.specs.Opened.{IsOpened};
ghost use Rattle.version_store.specs.Putting.{ArePutIn, HasRoomUnder};
ghost use Rattle.version_store.specs.Stores.{opening_under, IsStoreOf, IsPartStoreOf};

use crate::filling::{room_in, room_in_new};
use crate::opening::{Opening, array_of, opening_at, opening_of};
use crate::placed::PlacedWord;
use crate::putting::{Table, enter_local, put_in};
use cells::Dense;
use history::{ArrayInfo, Home};
use indexmap::IndexMap;
use std::alloc::{AllocError, Global};

/// The versions of all chunks of a run. A chunk is entered by the first word that a commit puts into it, that of a local array when it is
/// opened. The memory is 24 bytes for each array, what `ChunkVersions` takes of each chunk that is entered, and its id.
#[derive(Drop)]
pub struct VersionStore {
    pub(crate) arrays: Vec<Opening>,
    pub(crate) chunks: Table,
}

impl VersionStore {
    /// No array.
    pub fn new(alloc: Global) -> VersionStore
        ensures { IsStoreOf [] result }
    {
        VersionStore {
            arrays: Vec::new(alloc),
            chunks: IndexMap::new(alloc),
        }
    }

    /// The event of this number opens an array.
    ///
    /// # Errors
    /// `AllocError` where memory is wanting.
    pub fn open(&mut self, alloc: Global, number: u64, info: &ArrayInfo) -> Result<(), AllocError>
        ensures { OnOk result (IsOpened number info.now self.old self.new) }
    {
        match &info.home {
            Home::Zarr { .. } => self.open_stored(number, info),
            Home::N5 { .. } => self.open_stored(number, info),
            Home::Zarr3 { .. } => self.open_stored(number, info),
            Home::Local { start } => self.open_local(alloc, number, info, start),
        }
    }

    fn open_stored(&mut self, number: u64, info: &ArrayInfo) -> Result<(), AllocError>
        requires { is_local info.now.home ≡ false }
        ensures { OnOk result (IsOpened number info.now self.old self.new) }
    {
        self.arrays.push(opening_of(number, info))?;
        Ok(())
    }

    fn open_local(
        &mut self,
        alloc: Global,
        number: u64,
        info: &ArrayInfo,
        start: &Dense,
    ) -> Result<(), AllocError>
        requires { info.now.home ≡ Local start.now }
        ensures { OnOk result (IsOpened number info.now self.old self.new) }
    {
        let array = self.count();
        enter_local(alloc, &mut self.chunks, array, number, start)?;
        self.arrays.push(opening_of(number, info))?;
        Ok(())
    }

    /// Puts words at places of the chunk of this id, one after another, by the event of this number, a commit.
    ///
    /// # Errors
    /// `AllocError` where memory is wanting.
    pub fn put_words(
        &mut self,
        alloc: Global,
        number: u64,
        id: &[u64],
        words: &[PlacedWord],
    ) -> Result<(), AllocError>
        requires { HasRoomUnder self.old number id.now words.now }
        ensures { OnOk result ((h : History) (puts : List Put) (k : Known) (c : Chunk) (ps : List Put)
            → IsPartStoreOf h puts self.old → ArePutIn h k c ps number id.now words.now
            → IsPartStoreOf h (puts ++ ps) self.new) }
    {
        let opening = self.opening_under(id);
        put_in(alloc, &mut self.chunks, opening, number, id, words)
    }

    /// Whether words may be put at these places by the event of this number: the chunk has the places, and no later event touched it.
    /// The words of a commit may always be put.
    pub fn has_room(&self, number: u64, id: &[u64], words: &[PlacedWord]) -> bool
        ensures room { IsTrue result → HasRoomUnder self.now number id.now words.now }
        ensures commits { (h : History) (puts : List Put) (k : Known) (c : Chunk) (ps : List Put)
            → IsPartStoreOf h puts self.now → ArePutIn h k c ps number id.now words.now → IsTrue result }
    {
        match self.chunks.get(id) {
            Some(chunk) => room_in(chunk, number, words),
            None => room_in_new(self.opening_under(id), number, words),
        }
    }

    // How many arrays were opened.
    fn count(&self) -> u64
        ensures { result ≡ length self.now.arrays.items }
    {
        self.arrays.len() as u64
    }

    // How the chunks of the array begin that an id names.
    pub(crate) fn opening_under(&self, id: &[u64]) -> Opening
        ensures { result ≡ opening_under self.now id.now }
    {
        opening_at(&self.arrays, array_of(id))
    }
}
