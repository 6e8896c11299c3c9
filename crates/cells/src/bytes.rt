ghost use Rattle.std.specs.Prelude.{◌≡◌, length};
ghost use Rattle.cells.specs.Numbers.{IsWord};
ghost use Rattle.cells.specs.Bytes.{byte_count, word_bytes, word_of_bytes, unsigned_number};

use crate::convert::{extended, low_bits};
use crate::dtype::Dtype;
use byteorder::{BigEndian, ByteOrder, LittleEndian};

/// Writes a word as bytes, as many as its dtype has: two's complement, the highest byte first where `big`, else the
/// lowest first.
///
/// Zarr version 2, "Data type encoding", byte order; N5 has the highest byte first.
pub fn put_word(dtype: Dtype, big: bool, word: u64, out: &mut [u8])
    requires room { length out.old ≡ byte_count dtype }
    requires word { IsWord dtype word }
    ensures bytes { out.new ≡ word_bytes dtype big word }
    ensures back { word_of_bytes dtype big out.new ≡ word }
{
    let low = low_bits(dtype, word);
    let count = out.len();
    if big {
        BigEndian::write_uint(out, low, count);
    } else {
        LittleEndian::write_uint(out, low, count);
    }
}

/// Reads the word that bytes spell, as many as its dtype has: two's complement, the highest byte first where `big`, else
/// the lowest first.
///
/// Zarr version 2, "Data type encoding", byte order; N5 has the highest byte first.
pub fn take_word(dtype: Dtype, big: bool, bytes: &[u8]) -> u64
    requires { length bytes.now ≡ byte_count dtype }
    ensures value { result ≡ word_of_bytes dtype big bytes.now }
    ensures word { IsWord dtype result }
    ensures back { word_bytes dtype big result ≡ bytes.now }
{
    extended(dtype, unsigned_number(dtype, big, bytes))
}

// The bytes as one number from 0 on.
fn unsigned_number(dtype: Dtype, big: bool, bytes: &[u8]) -> u64
    requires { length bytes.now ≡ byte_count dtype }
    ensures value { result ≡ unsigned_number dtype big bytes.now }
{
    let count = bytes.len();
    if big {
        BigEndian::read_uint(bytes, count)
    } else {
        LittleEndian::read_uint(bytes, count)
    }
}
