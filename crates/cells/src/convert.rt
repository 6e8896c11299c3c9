ghost use Rattle.std.specs.Prelude.{◌≡◌, ◌<◌, ◌^◌, pos};
ghost use Rattle.cells.specs.Numbers.{IsWord, IsConverted, bits_of, number_of, word_of, conv_word, converted, low_bits};

use crate::dtype::Dtype;

/// Converts a word of one dtype to another: the number in the new range that is congruent to the old one modulo 2 to
/// the new dtype's bits. A number that both hold stays the same.
///
/// TensorStore, driver `cast`, conversion of integers.
pub fn conv(from: Dtype, word: u64, to: Dtype) -> u64
    ensures value { result ≡ conv_word from word to }
    ensures word { IsWord to result }
    ensures congruent { IsConverted to (number_of from word) (number_of to result) }
{
    extended(to, low_bits(to, word))
}

/// The low bits of a word, as many as the dtype has.
pub(crate) fn low_bits(dtype: Dtype, word: u64) -> u64
    ensures { result ≡ low_bits dtype word }
{
    match dtype {
        Dtype::I8 | Dtype::U8 => word & 0xff,
        Dtype::I16 | Dtype::U16 => word & 0xffff,
        Dtype::I32 | Dtype::U32 => word & 0xffff_ffff,
        Dtype::I64 | Dtype::U64 => word,
    }
}

/// The word whose low bits are these: where the dtype is signed, the highest of them is carried on.
pub(crate) fn extended(dtype: Dtype, low: u64) -> u64
    requires { low < 2 ^ bits_of dtype }
    ensures { result ≡ word_of (converted dtype (pos low)) }
{
    match dtype {
        Dtype::I8 if low >= 0x80 => low + 0xffff_ffff_ffff_ff00,
        Dtype::I16 if low >= 0x8000 => low + 0xffff_ffff_ffff_0000,
        Dtype::I32 if low >= 0x8000_0000 => low + 0xffff_ffff_0000_0000,
        _ => low,
    }
}
