/// The greatest rank.
pub const LARGEST_RANK: usize = 32;

/// The greatest finite index. The least is its negative, and each infinity is one further.
pub const GREATEST_INDEX: i64 = 4_611_686_018_427_387_902;

/// The upper infinity; the lower one is its negative.
pub const INFINITY: i64 = 4_611_686_018_427_387_903;

/// The greatest size of a dimension of an array.
pub const LARGEST_SIZE: u64 = 4_611_686_018_427_387_902;

/// The most bytes of a label.
pub const LONGEST_LABEL: usize = 64;

/// The most entries of an index array.
pub const MOST_ENTRIES: u64 = 4_194_304;

/// The most cells of a view that is read or written, and the most lists that nest its values.
pub const MOST_CELLS: u64 = 4_194_304;

/// The most cells of a chunk.
pub const MOST_CHUNK_CELLS: u64 = 16_777_216;
