ghost use Rattle.std.specs.Prelude.{◌≡◌, ◌^◌, [], ◌∷◌, ◌++◌, OnOk, OnErr};
ghost use Rattle.cells.specs.Numbers.{IsWord, IsCongruent, number_of};
ghost use Rattle.cast_driver.specs.Chain.{AreJoined, BeginsWith, dtype_after, word_out, word_back, fewest_bits_out, fewest_bits_back, NoneNarrower};
ghost use Rattle.cells.specs.declared.dtype.Dtype.{Dtype};

use crate::cast::Cast;
use std::alloc::{AllocError, Global};
use std::marker::Model;

/// Casts one after another: the first is the one next to the array, and each takes up the dtype that the one before it
/// gives. A contract sees the list.
#[derive(Debug, Drop)]
pub struct Chain {
    casts: Vec<Cast>,
}

impl Model for Chain {
    ghost use Rattle.std.specs.Prelude.{List};
    ghost use Rattle.cast_driver.specs.declared.cast.Cast.{Cast};
    ghost use Rattle.cast_driver.specs.Chain.{AreJoined};

    ghost Value = { List Cast };

    ghost view = { λ chain. chain.casts.items };

    ghost invariant = { λ chain. AreJoined chain.casts.items };
}

impl Chain {
    /// A chain without a cast. It keeps the allocator, and takes no memory.
    pub fn new(alloc: Global) -> Chain
        ensures { result ≡ [] }
    {
        Chain {
            casts: Vec::new(alloc),
        }
    }

    /// Puts a cast at the end, where numbers come out.
    ///
    /// # Errors
    ///
    /// `AllocError` where there is no memory. The chain is then as it was.
    pub fn push(&mut self, cast: Cast) -> Result<(), AllocError>
        requires { AreJoined (self.old ++ cast ∷ []) }
        ensures ok { OnOk result (self.new ≡ self.old ++ cast ∷ []) }
        ensures err { OnErr result (self.new ≡ self.old) }
    {
        self.casts.push(cast)?;
        Ok(())
    }

    /// The casts, the one next to the array first.
    pub fn casts(&self) -> &[Cast]
        ensures value { result.now ≡ self.now }
        ensures joined { AreJoined self.now }
    {
        &self.casts
    }

    /// The word that is shown for a kept one: cast by the first, then by the next, and so on.
    pub fn out(&self, word: u64) -> u64
        ensures value { result ≡ word_out self.now word }
        ensures word { (base : Dtype) → IsWord base word → IsWord (dtype_after base self.now) result }

        // The number that is shown differs from the one that is kept by a multiple of 2 to the bits of the narrowest dtype
        // to which a cast leads.
        ensures congruent { (base : Dtype) → BeginsWith base self.now →
            IsCongruent (2 ^ fewest_bits_out self.now) (number_of base word)
            (number_of (dtype_after base self.now) result) }
    {
        let mut shown = word;
        for cast in &self.casts {
            shown = cast.out(shown);
        }
        shown
    }

    /// The word that is kept for one written as it is shown: cast back by the last, then by the one before it, and so on.
    pub fn back(&self, word: u64) -> u64
        ensures value { result ≡ word_back self.now word }
        ensures word { (base : Dtype) → BeginsWith base self.now → IsWord (dtype_after base self.now) word
            → IsWord base result }

        // The number that is kept differs from the one that was written by a multiple of 2 to the bits of the narrowest dtype
        // from which a cast leads.
        ensures congruent { (base : Dtype) → BeginsWith base self.now →
            IsCongruent (2 ^ fewest_bits_back self.now) (number_of (dtype_after base self.now) word)
            (number_of base result) }

        // What was written is shown again where no dtype on the way has fewer bits.
        ensures read_again { (base : Dtype) → BeginsWith base self.now → IsWord (dtype_after base self.now) word →
            NoneNarrower (dtype_after base self.now) self.now → word_out self.now result ≡ word }
    {
        let mut kept = word;
        for cast in self.casts.iter().rev() {
            kept = cast.back(kept);
        }
        kept
    }
}
