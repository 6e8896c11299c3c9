// The words of a write.
ghost use Rattle.std.specs.Prelude.{◌≡◌, length, replicate, IfOk};
ghost use Rattle.list_types.specs.Written.{words_seen};

use std::alloc::{AllocError, Global};
use std::marker::Model;

/// The words of a write, one for each cell in C order: a word for each, or one for all of them, which takes no memory. A contract sees the list.
#[derive(Debug, Drop)]
pub struct WrittenWords {
    held: Held,
}

#[derive(Debug, Drop)]
enum Held {
    Each { words: Vec<u64> },
    One { word: u64, count: usize },
}

impl Model for WrittenWords {
    ghost use Rattle.std.specs.Prelude.{List, ℕ};
    ghost use Rattle.list_types.specs.Written.{words_held};

    ghost Value = { List ℕ };

    ghost view = { λ w. words_held w.held };
}

/// The words of a write, lent.
#[derive(Clone, Copy)]
pub enum SeenWords<'a> {
    /// A word for each cell.
    Each { words: &'a [u64] },
    /// One word for so many cells.
    One { word: u64, count: usize },
}

impl WrittenWords {
    /// A word for each cell.
    pub fn each(words: Vec<u64>) -> Self
        ensures { result ≡ words.items }
    {
        WrittenWords {
            held: Held::Each { words },
        }
    }

    /// One word for so many cells.
    pub fn one(word: u64, count: usize) -> Self
        ensures { result ≡ replicate count word }
    {
        WrittenWords {
            held: Held::One { word, count },
        }
    }

    /// How many there are.
    pub fn len(&self) -> usize
        ensures { result ≡ length self.now }
    {
        match &self.held {
            Held::Each { words } => words.len(),
            Held::One { word: _, count } => *count,
        }
    }

    /// The words, lent.
    pub fn seen(&self) -> SeenWords<'_>
        ensures { words_seen result ≡ self.now }
    {
        match &self.held {
            Held::Each { words } => SeenWords::Each { words },
            Held::One { word, count } => SeenWords::One {
                word: *word,
                count: *count,
            },
        }
    }

    /// A word for each cell.
    ///
    /// # Errors
    /// Want of memory alone.
    pub fn to_vec(&self, alloc: Global) -> Result<Vec<u64>, AllocError>
        ensures { IfOk result (λ words. words.items ≡ self.now) }
    {
        match &self.held {
            Held::Each { words } => Vec::from_slice(alloc, words),
            Held::One { word, count } => Ok(vec![in alloc; *word; *count]?),
        }
    }

    /// The same words once more.
    ///
    /// # Errors
    /// Want of memory alone.
    pub fn copy(&self, alloc: Global) -> Result<WrittenWords, AllocError>
        ensures { IfOk result (λ words. words ≡ self.now) }
    {
        match &self.held {
            Held::Each { words } => Ok(WrittenWords::each(Vec::from_slice(alloc, words)?)),
            Held::One { word, count } => Ok(WrittenWords::one(*word, *count)),
        }
    }
}
