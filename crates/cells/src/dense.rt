ghost use Rattle.std.specs.Prelude.{◌≡◌, ℕ, ◌*◌, ◌<◌, ◌≤◌, ◌^◌, length, slice_index, slice_index_or, slice_set, false, true, replicate, All, EachIndex, IfOk, IsTrue, ◌↔◌};

use crate::dtype::Dtype;
use crate::items::{
    are_all, fill_zeros, item, lay_items, put_item, put_items, put_words, take_items, take_words,
};
use crate::places::count_cells;
use crate::run::Run;
use list_types::Sizes;
use std::alloc::{AllocError, Global};
use std::marker::Model;

/// Numbers of one dtype in a shape: an item for each cell, in C order, the lowest byte first. A contract sees a word for each.
#[derive(Debug, Drop)]
pub struct Dense {
    dtype: Dtype,
    shape: Sizes,
    bytes: Vec<u8>,
}

impl Model for Dense {
    ghost use Rattle.cells.specs.Dense.{DenseCells};
    ghost use Rattle.cells.specs.Places.{cell_count};
    ghost use Rattle.cells.specs.Items.{words_in, AreItems};

    ghost Value = { DenseCells };

    ghost view = { λ dense. record { dtype = dense.dtype; shape = dense.shape; words = words_in dense.dtype (cell_count dense.shape) dense.bytes.items } };

    ghost invariant = { λ dense. AreItems dense.dtype dense.shape dense.bytes.items };
}

impl Dense {
    ghost use Rattle.cells.specs.Bytes.{byte_count};
    ghost use Rattle.cells.specs.Numbers.{IsWord};
    ghost use Rattle.cells.specs.Places.{cell_count};
    ghost use Rattle.cells.specs.Runs.{IsRunInside, pairs_of, pairs_put, pairs_taken};
    ghost use Rattle.cells.specs.Dense.{DenseCells, IsDense};
    ghost use Rattle.cells.specs.Items.{words_where, SpellsItems};

    /// The numbers that bytes spell in a shape, item by item, the lowest byte first.
    pub fn from_bytes(dtype: Dtype, shape: Sizes, bytes: Vec<u8>) -> Dense
        requires rank { length shape ≤ 32 }
        requires small { cell_count shape ≤ 2 ^ 24 }
        requires full { length bytes.items ≡ cell_count shape * byte_count dtype }
        ensures dtype { result.dtype ≡ dtype }
        ensures shape { result.shape ≡ shape }
        ensures spells { SpellsItems dtype bytes.items result.words }
        ensures well_formed { IsDense result }
    {
        // A look at the bytes, by which it is known that they are bytes.
        let _ = look(bytes.as_slice());
        Dense {
            dtype,
            shape,
            bytes,
        }
    }

    /// The numbers that words stand for in a shape, which stand in C order.
    ///
    /// # Errors
    ///
    /// `AllocError` where there is no memory.
    pub fn of_words(
        alloc: Global,
        dtype: Dtype,
        shape: Sizes,
        words: &[u64],
    ) -> Result<Dense, AllocError>
        requires { IsDense (record { dtype = dtype; shape = shape; words = words.now }) }
        ensures { IfOk result (λ dense. dense ≡ record { dtype = dtype; shape = shape; words = words.now }) }
    {
        let mut bytes = vec![in alloc; 0; words.len() * dtype.byte_count()]?;
        put_words(dtype, words, &mut bytes);
        Ok(Dense {
            dtype,
            shape,
            bytes,
        })
    }

    /// One number in each cell of a shape.
    ///
    /// # Errors
    ///
    /// `AllocError` where there is no memory.
    pub fn filled(
        alloc: Global,
        dtype: Dtype,
        shape: &[u64],
        word: u64,
    ) -> Result<Dense, AllocError>
        requires rank { length shape.now ≤ 32 }
        requires small { cell_count shape.now ≤ 2 ^ 24 }
        requires word { IsWord dtype word }
        ensures { IfOk result (λ dense.
            dense ≡ record { dtype = dtype; shape = shape.now; words = replicate (cell_count shape.now) word }) }
    {
        let Some(count) = count_cells(shape, 1 << 24) else {
            unreachable!();
        };
        let cells = count as usize;
        let shape = Sizes::wrap(Vec::from_slice(alloc, shape)?);
        let mut bytes = vec![in alloc; 0; cells * dtype.byte_count()]?;
        fill_zeros(dtype, cells, word, &mut bytes);
        Ok(Dense {
            dtype,
            shape,
            bytes,
        })
    }

    /// The same numbers again.
    ///
    /// # Errors
    ///
    /// `AllocError` where there is no memory.
    pub fn copy(&self, alloc: Global) -> Result<Dense, AllocError>
        ensures { IfOk result (λ dense. dense ≡ self.now) }
    {
        let shape = Sizes::wrap(Vec::from_slice(alloc, self.shape.items())?);
        let bytes = Vec::from_slice(alloc, &self.bytes)?;
        Ok(Dense {
            dtype: self.dtype,
            shape,
            bytes,
        })
    }

    /// The type of the numbers.
    pub fn dtype(&self) -> Dtype
        ensures value { result ≡ self.now.dtype }
        ensures well_formed { IsDense self.now }
    {
        self.dtype
    }

    /// The sizes along the dimensions, in cells.
    pub fn shape(&self) -> &[u64]
        ensures value { result.now ≡ self.now.shape }
        ensures well_formed { IsDense self.now }
    {
        self.shape.items()
    }

    /// The words of the cells, in C order.
    ///
    /// # Errors
    ///
    /// `AllocError` where there is no memory.
    pub fn to_words(&self, alloc: Global) -> Result<Vec<u64>, AllocError>
        ensures value { IfOk result (λ words. words.items ≡ self.now.words) }
        ensures well_formed { IsDense self.now }
    {
        let count = self.bytes.len() / self.dtype.byte_count();
        let mut words = vec![in alloc; 0; count]?;
        take_words(self.dtype, &self.bytes, &mut words);
        Ok(words)
    }

    /// Whether each cell has a word.
    pub fn is_all(&self, word: u64) -> bool
        ensures { IsTrue result ↔ EachIndex self.now.words (λ k. slice_index self.now.words k ≡ word) }
    {
        let cells = self.bytes.len() / self.dtype.byte_count();
        are_all(self.dtype, cells, word, &self.bytes)
    }

    /// How many cells there are.
    pub fn count(&self) -> usize
        ensures value { result ≡ length self.now.words }
        ensures well_formed { IsDense self.now }
    {
        self.bytes.len() / self.dtype.byte_count()
    }

    /// The bytes of the cells, item by item in C order, the lowest byte first.
    pub fn bytes(&self) -> &[u8]
        ensures spells { SpellsItems self.now.dtype result.now self.now.words }
        ensures well_formed { IsDense self.now }
    {
        let bytes = self.bytes.as_slice();
        // A look at the bytes, by which it is known that they are bytes.
        let _ = look(bytes);
        bytes
    }

    /// The same bytes, as they were kept.
    pub fn into_bytes(self) -> Vec<u8>
        ensures spells { SpellsItems self.dtype result.items self.words }
        ensures well_formed { IsDense self }
    {
        // A look at the bytes, by which it is known that they are bytes.
        let _ = look(self.bytes.as_slice());
        self.bytes
    }

    /// The word at a place in C order.
    pub fn get(&self, place: usize) -> u64
        requires { place < length self.now.words }
        ensures value { result ≡ slice_index self.now.words place }
        ensures word { IsWord self.now.dtype result }
    {
        item(self.dtype, place, &self.bytes)
    }

    /// Puts a word at a place in C order.
    pub fn set(&mut self, place: usize, word: u64)
        requires place { place < length self.old.words }
        requires word { IsWord self.old.dtype word }
        ensures { self.new ≡ record self.old { words = slice_set self.old.words place word } }
    {
        put_item(self.dtype, place, word, &mut self.bytes);
    }

    /// Puts the words of a view along a run: for each pair in turn, the view's word at the pair's place in the chunk.
    pub fn write_run(&mut self, run: &Run, words: &[u64])
        requires run { IsRunInside run.now (length words.now) (length self.old.words) }
        requires words { All (IsWord self.old.dtype) words.now }
        ensures { self.new ≡ record self.old { words = pairs_put (pairs_of run.now) words.now self.old.words } }
    {
        let cells = self.bytes.len() / self.dtype.byte_count();
        put_items(self.dtype, cells, *run, words, &mut self.bytes);
    }

    /// Puts the words of a chunk into a view along a run: for each pair in turn, the chunk's word at the pair's place in the view.
    pub fn read_run(&self, run: &Run, out: &mut [u64])
        requires { IsRunInside run.now (length out.old) (length self.now.words) }
        ensures { out.new ≡ pairs_taken (pairs_of run.now) self.now.words out.old }
    {
        let cells = self.bytes.len() / self.dtype.byte_count();
        take_items(self.dtype, cells, *run, &self.bytes, out);
    }

    /// Puts a word in the place of another wherever the mask is set.
    pub fn set_where(&mut self, mask: &[bool], words: &[u64])
        requires mask { length mask.now ≡ length self.old.words }
        requires size { length words.now ≡ length self.old.words }
        requires words { (place : ℕ) → place < length self.old.words → slice_index_or mask.now place false ≡ true
            → IsWord self.old.dtype (slice_index words.now place) }
        ensures { self.new ≡ record self.old { words = words_where mask.now words.now self.old.words } }
    {
        lay_items(self.dtype, mask.len(), mask, words, &mut self.bytes);
    }
}

// Nothing is done: a slice's numbers are bytes.
fn look(bytes: &[u8])
    ensures { (i : ℕ) → slice_index bytes.now i < 256 }
{}
