ghost use Rattle.std.specs.Prelude.{◌≡◌};
ghost use Rattle.chunk_fetches.specs.Sources.{is_new};

/// Where a read has the chunk of a piece from.
#[derive(Clone, Copy, Debug, PartialEq, Eq)]
pub enum Source {
    /// At each cell of the piece a word is staged.
    Covered,
    /// The transaction keeps the chunk, at this place.
    Old { place: u64 },
    /// It is to be fetched.
    New,
}

/// Whether the chunk is to be fetched.
pub(crate) fn is_new(source: Source) -> bool
    ensures { result ≡ is_new source }
{
    match source {
        Source::New => true,
        Source::Covered => false,
        Source::Old { .. } => false,
    }
}
