/// What the scripts of a run are.
#[derive(Clone, Copy, Debug, PartialEq, Eq)]
pub enum Input {
    /// Files: the words from place `first` on, counted from 0, are their names.
    Files { first: usize },
    /// Made from a number; no file is read.
    Made { number: u32 },
}

/// What the words of a command line ask for.
#[derive(Clone, Copy, Debug, PartialEq, Eq)]
pub struct Settings {
    /// How many workers run sessions, from 1 to 64.
    pub workers: u32,
    /// How many cells the chunk cache may hold, at most 2^27.
    pub cache: u64,
    pub input: Input,
}

/// The kinds of options.
#[derive(Clone, Copy, Debug, PartialEq, Eq)]
pub(crate) enum Kind {
    Workers,
    Cache,
    Make,
}
