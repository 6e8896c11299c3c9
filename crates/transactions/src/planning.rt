// Where a read has the chunks of a view's pieces from.
ghost use Rattle.std.specs.Prelude.{◌≡◌, ◌<◌, ℕ, List, Some, IfOk, length, slice_index_or};
ghost use Rattle.std.specs.List.{AllByRecursion};
ghost use Rattle.std.specs.Option.{option_copied};
ghost use Rattle.cells.specs.Dense.{IsDense};
ghost use Rattle.chunk_fetches.specs.Staging.{CanStage};
ghost use Rattle.chunk_fetches.specs.declared.Piece.{Piece as PieceOf};
ghost use Rattle.transactions.specs.Had.{IsDenseOrNone, had_from, had_of, snapshot_of, snapshots_of};
ghost use Rattle.chunk_fetches.specs.Sources.{source_of, sources_of, count_new};
ghost use Rattle.transactions.specs.Txn.{counting};
ghost use Rattle.chunk_fetches.specs.Kept.{place_from};

use crate::txn::Txn;
use chunk_cache::Snapshot;
use chunk_fetches::{Kept, Source, ViewCells};
use std::alloc::{AllocError, Global};

impl Txn {
    /// For each piece of a view, where its chunk is from.
    pub(crate) fn sources(
        &self,
        alloc: Global,
        cells: &ViewCells,
    ) -> Result<Vec<Source>, AllocError>
        requires { CanStage self.now.staged cells.now (length cells.now.leaves) }
        ensures { IfOk result (λ sources. sources.items ≡ sources_of self.now.staged self.now.kept cells.now.pieces) }
    {
        let mut sources = Vec::new(alloc);
        for piece in 0..cells.pieces.items().len() {
            sources.push(self.source(cells, piece))?;
        }
        Ok(sources)
    }

    fn source(&self, cells: &ViewCells, piece: usize) -> Source
        requires cells { CanStage self.now.staged cells.now (length cells.now.leaves) }
        requires piece { piece < length cells.now.pieces }
        ensures { (d : PieceOf) → result ≡ source_of self.now.staged self.now.kept
            (slice_index_or cells.now.pieces piece d) }
    {
        if !self.staging.needs(cells, piece) {
            return Source::Covered;
        }
        match self.place(cells.pieces.items()[piece].id.items()) {
            Some(place) => Source::Old { place },
            None => Source::New,
        }
    }

    // The place of the chunk that is kept under an id.
    fn place(&self, id: &[u64]) -> Option<u64>
        ensures { result ≡ place_from 0 self.now.kept id.now }
    {
        match self.places.get(id) {
            Some(place) => counted(&self.kept, id, *place),
            None => None,
        }
    }
}

// The place, where the chunk there has the id.
fn counted(kept: &[Kept], id: &[u64], place: u64) -> Option<u64>
    ensures { result ≡ counting kept.now id.now (Some place) }
{
    match kept.get(place as usize) {
        Some(k) if id == k.id.items() => Some(place),
        _ => None,
    }
}

/// The chunk of one piece, where so many were fetched for those before it.
pub(crate) fn had_of<'a>(
    source: Source,
    kept: &'a [Kept],
    fetched: &'a [Kept],
    next: usize,
) -> Option<&'a Kept>
    ensures { option_copied result ≡ had_of source kept.now fetched.now next }
{
    match source {
        Source::Covered => None,
        Source::Old { place } => kept.get(place as usize),
        Source::New => fetched.get(next),
    }
}

/// How many chunks are fetched for a piece.
pub(crate) fn count_new(source: Source) -> usize
    ensures { result ≡ count_new source }
{
    match source {
        Source::New => 1,
        Source::Covered => 0,
        Source::Old { .. } => 0,
    }
}

/// The cells of the chunks of pieces, by their sources: of those that are kept, and of those that were fetched, in order.
pub(crate) fn chunks_from(
    alloc: Global,
    sources: &[Source],
    kept: &[Kept],
    fetched: &[Kept],
) -> Result<Vec<Option<Snapshot>>, AllocError>
    ensures value { IfOk result (λ chunks. chunks.items ≡ snapshots_of (had_from sources.now kept.now fetched.now 0)) }
    ensures dense { IfOk result (λ chunks. AllByRecursion IsDenseOrNone chunks.items) }
{
    let mut chunks = Vec::new(alloc);
    let mut next = 0;
    for source in sources {
        chunks.push(shared(had_of(*source, kept, fetched, next))?)?;
        next += count_new(*source);
    }
    Ok(chunks)
}

fn shared(had: Option<&Kept>) -> Result<Option<Snapshot>, AllocError>
    ensures value { IfOk result (λ chunk. chunk ≡ snapshot_of (option_copied had.entry)) }
    ensures dense { IfOk result IsDenseOrNone }
{
    match had {
        Some(k) => Ok(Some(share(&k.snapshot)?)),
        None => Ok(None),
    }
}

fn share(snapshot: &Snapshot) -> Result<Snapshot, AllocError>
    ensures value { IfOk result (λ s. s ≡ snapshot.now) }
    ensures dense { IfOk result (λ s. IsDense s.cells) }
{
    let _ = snapshot.cells().count();
    snapshot.share()
}
