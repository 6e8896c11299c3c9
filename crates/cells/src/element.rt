// One element. The width is fixed in each arm, so that a loop in which the dtype is known moves whole numbers.
ghost use Rattle.std.specs.Prelude.{◌≡◌, ◌<◌, length, if◌then◌else◌};
ghost use Rattle.byteorder.specs.Endian.{big_bytes, little_bytes};
ghost use Rattle.cells.specs.Bytes.{byte_count, word_bytes, word_of_bytes, unsigned_number};

use crate::convert::conv;
use crate::dtype::Dtype;
use byteorder::{BigEndian, ByteOrder, LittleEndian};

/// The word that an element spells.
#[inline(always)]
pub(crate) fn take(dtype: Dtype, big: bool, bytes: &[u8]) -> u64
    requires { length bytes.now ≡ byte_count dtype }
    ensures { result ≡ word_of_bytes dtype big bytes.now }
{
    conv(Dtype::U64, unsigned(dtype, big, bytes), dtype)
}

// The bytes as one number from 0 on.
#[inline(always)]
fn unsigned(dtype: Dtype, big: bool, bytes: &[u8]) -> u64
    requires { length bytes.now ≡ byte_count dtype }
    ensures { result ≡ unsigned_number dtype big bytes.now }
{
    if big {
        match dtype {
            Dtype::I8 | Dtype::U8 => u64::from(bytes[0]),
            Dtype::I16 | Dtype::U16 => u64::from(BigEndian::read_u16(bytes)),
            Dtype::I32 | Dtype::U32 => u64::from(BigEndian::read_u32(bytes)),
            Dtype::I64 | Dtype::U64 => BigEndian::read_u64(bytes),
        }
    } else {
        match dtype {
            Dtype::I8 | Dtype::U8 => u64::from(bytes[0]),
            Dtype::I16 | Dtype::U16 => u64::from(LittleEndian::read_u16(bytes)),
            Dtype::I32 | Dtype::U32 => u64::from(LittleEndian::read_u32(bytes)),
            Dtype::I64 | Dtype::U64 => LittleEndian::read_u64(bytes),
        }
    }
}

/// Writes a word as an element.
#[inline(always)]
pub(crate) fn put(dtype: Dtype, big: bool, word: u64, out: &mut [u8])
    requires { length out.old ≡ byte_count dtype }
    ensures { out.new ≡ word_bytes dtype big word }
{
    match dtype {
        Dtype::I8 | Dtype::U8 => put_8(big, word & 0xff, out),
        Dtype::I16 | Dtype::U16 => put_16(big, (word & 0xffff) as u16, out),
        Dtype::I32 | Dtype::U32 => put_32(big, (word & 0xffff_ffff) as u32, out),
        Dtype::I64 | Dtype::U64 => put_64(big, word, out),
    }
}

#[inline(always)]
fn put_8(big: bool, number: u64, out: &mut [u8])
    requires room { length out.old ≡ 1 }
    requires small { number < 256 }
    ensures { out.new ≡ (if big then big_bytes 1 number else little_bytes 1 number) }
{
    if big {
        BigEndian::write_uint(out, number, 1);
    } else {
        LittleEndian::write_uint(out, number, 1);
    }
}

#[inline(always)]
fn put_16(big: bool, number: u16, out: &mut [u8])
    requires { length out.old ≡ 2 }
    ensures { out.new ≡ (if big then big_bytes 2 number else little_bytes 2 number) }
{
    if big {
        BigEndian::write_u16(out, number);
    } else {
        LittleEndian::write_u16(out, number);
    }
}

#[inline(always)]
fn put_32(big: bool, number: u32, out: &mut [u8])
    requires { length out.old ≡ 4 }
    ensures { out.new ≡ (if big then big_bytes 4 number else little_bytes 4 number) }
{
    if big {
        BigEndian::write_u32(out, number);
    } else {
        LittleEndian::write_u32(out, number);
    }
}

#[inline(always)]
fn put_64(big: bool, number: u64, out: &mut [u8])
    requires { length out.old ≡ 8 }
    ensures { out.new ≡ (if big then big_bytes 8 number else little_bytes 8 number) }
{
    if big {
        BigEndian::write_u64(out, number);
    } else {
        LittleEndian::write_u64(out, number);
    }
}
