ghost use Rattle.std.specs.Prelude.{◌≡◌, IsTrue, ◌↔◌};

/// The type of an array's numbers: whole numbers of 8 to 64 bits, signed or unsigned.
///
/// Zarr version 2, "Data type encoding"; N5, "dataType".
#[derive(Clone, Copy, Debug, PartialEq, Eq)]
pub enum Dtype {
    I8,
    U8,
    I16,
    U16,
    I32,
    U32,
    I64,
    U64,
}

impl Dtype {
    ghost use Rattle.cells.specs.Numbers.{bits_of, is_signed, least_of, greatest_of, Holds, IsWord, number_of, word_of};

    /// How many bits a number takes.
    pub fn bits(self) -> u32
        ensures { result ≡ bits_of self }
    {
        match self {
            Dtype::I8 | Dtype::U8 => 8,
            Dtype::I16 | Dtype::U16 => 16,
            Dtype::I32 | Dtype::U32 => 32,
            Dtype::I64 | Dtype::U64 => 64,
        }
    }

    /// Whether there are numbers below 0.
    pub fn is_signed(self) -> bool
        ensures { result ≡ is_signed self }
    {
        match self {
            Dtype::I8 | Dtype::I16 | Dtype::I32 | Dtype::I64 => true,
            Dtype::U8 | Dtype::U16 | Dtype::U32 | Dtype::U64 => false,
        }
    }

    /// The least number.
    pub fn least(self) -> i128
        ensures { result ≡ least_of self }
    {
        match self {
            Dtype::I8 => i128::from(i8::MIN),
            Dtype::I16 => i128::from(i16::MIN),
            Dtype::I32 => i128::from(i32::MIN),
            Dtype::I64 => i128::from(i64::MIN),
            Dtype::U8 | Dtype::U16 | Dtype::U32 | Dtype::U64 => 0,
        }
    }

    /// The greatest number.
    pub fn greatest(self) -> i128
        ensures { result ≡ greatest_of self }
    {
        match self {
            Dtype::I8 => i128::from(i8::MAX),
            Dtype::U8 => i128::from(u8::MAX),
            Dtype::I16 => i128::from(i16::MAX),
            Dtype::U16 => i128::from(u16::MAX),
            Dtype::I32 => i128::from(i32::MAX),
            Dtype::U32 => i128::from(u32::MAX),
            Dtype::I64 => i128::from(i64::MAX),
            Dtype::U64 => i128::from(u64::MAX),
        }
    }

    /// Whether a number lies in the range, both ends included.
    pub fn holds(self, number: i128) -> bool
        ensures { IsTrue result ↔ Holds self number }
    {
        self.least() <= number && number <= self.greatest()
    }

    /// The number that a word stands for.
    pub fn number(self, word: u64) -> i128
        requires { IsWord self word }
        ensures value { result ≡ number_of self word }
        ensures held { Holds self result }
        ensures back { word_of result ≡ word }
    {
        if self.is_signed() {
            i128::from(word.cast_signed())
        } else {
            i128::from(word)
        }
    }

    /// The word that stands for a number: its two's complement in 64 bits.
    pub fn word(self, number: i128) -> u64
        requires { Holds self number }
        ensures value { result ≡ word_of number }
        ensures word { IsWord self result }
        ensures back { number_of self result ≡ number }
    {
        if number < 0 {
            (number + (1 << 64)) as u64
        } else {
            number as u64
        }
    }
}
