ghost use Rattle.std.specs.Prelude.{◌≡◌};
ghost use Rattle.cells.specs.Numbers.{IsWord, IsConverted, number_of, conv_word};

use cells::{Dtype, conv};

/// A cast of an array's numbers from the dtype in which they are kept to the one in which they are shown.
///
/// TensorStore, driver `cast`, conversion of integers.
#[derive(Clone, Copy, Debug, PartialEq, Eq)]
pub struct Cast {
    pub from: Dtype,
    pub to: Dtype,
}

impl Cast {
    /// The word that is shown for a kept one: the number of the range of `to` that is congruent to it modulo 2 to the bits
    /// of `to`.
    pub fn out(&self, word: u64) -> u64
        ensures value { result ≡ conv_word self.now.from word self.now.to }
        ensures word { IsWord self.now.to result }
        ensures congruent { IsConverted self.now.to (number_of self.now.from word) (number_of self.now.to result) }
    {
        conv(self.from, word, self.to)
    }

    /// The word that is kept for one written as it is shown: the number of the range of `from` that is congruent to it
    /// modulo 2 to the bits of `from`.
    pub fn back(&self, word: u64) -> u64
        ensures value { result ≡ conv_word self.now.to word self.now.from }
        ensures word { IsWord self.now.from result }
        ensures congruent { IsConverted self.now.from (number_of self.now.to word) (number_of self.now.from result) }
    {
        conv(self.to, word, self.from)
    }
}
