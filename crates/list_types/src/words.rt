// Lists of numbers as fields of public types. A contract sees each as its list.
ghost use Rattle.std.specs.Prelude.{◌≡◌, ◌<◌, length, slice_set, nat_eq};
ghost use Rattle.std.specs.Ordering.{int_eq};
ghost use Rattle.std.specs.Cmp.{partial_equiv_from_equiv, nat_eq_equiv, int_eq_equiv};
ghost use Rattle.std.specs.Cmp.Lexicographic.{pointwise, lists_equiv, lists_per};

use std::marker::Model;

/// Words, each the two's complement of a number in 64 bits.
#[derive(Debug, Drop)]
pub struct Words {
    values: Vec<u64>,
}

impl Model for Words {
    ghost use Rattle.std.specs.Prelude.{List, ℕ};

    ghost Value = { List ℕ };

    ghost view = { λ words. words.values.items };
}

impl Words {
    /// The words of a `Vec`.
    pub fn wrap(values: Vec<u64>) -> Self
        ensures { result ≡ values.items }
    {
        Words { values }
    }

    /// The words, in order.
    pub fn items(&self) -> &[u64]
        ensures { result.now ≡ self.now }
    {
        &self.values
    }

    /// The words as a `Vec`.
    pub fn into_inner(self) -> Vec<u64>
        ensures { result.items ≡ self }
    {
        self.values
    }

    /// Puts a word in the place of the one that stands there.
    pub fn set(&mut self, place: usize, word: u64)
        requires { place < length self.old }
        ensures { self.new ≡ slice_set self.old place word }
    {
        self.values[place] = word;
    }
}

/// Sizes along the dimensions, in cells or chunks.
#[derive(Debug, Drop)]
pub struct Sizes {
    values: Vec<u64>,
}

impl Model for Sizes {
    ghost use Rattle.std.specs.Prelude.{List, ℕ};

    ghost Value = { List ℕ };

    ghost view = { λ sizes. sizes.values.items };
}

impl Sizes {
    /// The sizes of a `Vec`.
    pub fn wrap(values: Vec<u64>) -> Self
        ensures { result ≡ values.items }
    {
        Sizes { values }
    }

    /// The sizes, the first dimension first.
    pub fn items(&self) -> &[u64]
        ensures { result.now ≡ self.now }
    {
        &self.values
    }

    /// The sizes as a `Vec`.
    pub fn into_inner(self) -> Vec<u64>
        ensures { result.items ≡ self }
    {
        self.values
    }
}

/// An index vector, or a list of indices.
#[derive(Debug, Drop)]
pub struct Index {
    values: Vec<i64>,
}

impl Model for Index {
    ghost use Rattle.std.specs.Prelude.{List, ℤ};

    ghost Value = { List ℤ };

    ghost view = { λ index. index.values.items };
}

impl Index {
    /// The indices of a `Vec`.
    pub fn wrap(values: Vec<i64>) -> Self
        ensures { result ≡ values.items }
    {
        Index { values }
    }

    /// The indices, in order.
    pub fn items(&self) -> &[i64]
        ensures { result.now ≡ self.now }
    {
        &self.values
    }

    /// The indices as a `Vec`.
    pub fn into_inner(self) -> Vec<i64>
        ensures { result.items ≡ self }
    {
        self.values
    }
}

impl PartialEq for Words {
    ghost eq = { λ one other. pointwise nat_eq one other };

    ghost laws = { lists_per (partial_equiv_from_equiv nat_eq_equiv) };

    fn eq(&self, other: &Self) -> bool {
        self.values.as_slice() == other.values.as_slice()
    }
}

impl Eq for Words {
    ghost laws = { lists_equiv nat_eq_equiv };
}

impl PartialEq for Sizes {
    ghost eq = { λ one other. pointwise nat_eq one other };

    ghost laws = { lists_per (partial_equiv_from_equiv nat_eq_equiv) };

    fn eq(&self, other: &Self) -> bool {
        self.values.as_slice() == other.values.as_slice()
    }
}

impl Eq for Sizes {
    ghost laws = { lists_equiv nat_eq_equiv };
}

impl PartialEq for Index {
    ghost eq = { λ one other. pointwise int_eq one other };

    ghost laws = { lists_per (partial_equiv_from_equiv int_eq_equiv) };

    fn eq(&self, other: &Self) -> bool {
        self.values.as_slice() == other.values.as_slice()
    }
}

impl Eq for Index {
    ghost laws = { lists_equiv int_eq_equiv };
}
