// The names of the dtypes, and how many bytes an element has.
ghost use Rattle.std.specs.Prelude.{◌≡◌, ◌≤◌};
ghost use Rattle.cells.specs.Bytes.{byte_count};
ghost use Rattle.cells.specs.DtypeNames.{dtype_name, dtype_named};

use crate::dtype::Dtype;

impl Dtype {
    /// The name, as "int32" or "uint8".
    ///
    /// N5, "dataType"; Zarr version 3, "Data types".
    pub fn name(self) -> &'static str
        ensures { result.now ≡ dtype_name self }
    {
        match self {
            Dtype::I8 => "int8",
            Dtype::U8 => "uint8",
            Dtype::I16 => "int16",
            Dtype::U16 => "uint16",
            Dtype::I32 => "int32",
            Dtype::U32 => "uint32",
            Dtype::I64 => "int64",
            Dtype::U64 => "uint64",
        }
    }

    /// The dtype of a name; `None` for any other text.
    pub fn named(text: &str) -> Option<Dtype>
        ensures { result ≡ dtype_named text.now }
    {
        match text {
            "int8" => Some(Dtype::I8),
            "uint8" => Some(Dtype::U8),
            "int16" => Some(Dtype::I16),
            "uint16" => Some(Dtype::U16),
            "int32" => Some(Dtype::I32),
            "uint32" => Some(Dtype::U32),
            "int64" => Some(Dtype::I64),
            "uint64" => Some(Dtype::U64),
            _ => None,
        }
    }

    /// How many bytes an element has.
    pub fn byte_count(self) -> usize
        ensures value { result ≡ byte_count self }
        ensures least { 1 ≤ result }
        ensures greatest { result ≤ 8 }
    {
        (self.bits() / 8) as usize
    }
}
