// The words that a view shows.
ghost use Rattle.std.specs.Prelude.{◌≡◌, ℕ, List, Some, length, map, replicate, IfOk};
ghost use Rattle.std.specs.List.{AllByRecursion};
ghost use Rattle.cells.specs.Numbers.{IsWord};
ghost use Rattle.history.specs.History.{History};
ghost use Rattle.history.specs.Reads.{unwritten};
ghost use Rattle.history.specs.Writes.{Content, read_values, written};
ghost use Rattle.history.specs.declared.event.Op.{Op};
ghost use Rattle.stack_driver.specs.Views.{look_of};
ghost use Rattle.stack_driver.specs.declared.view.View.{View};
ghost use Rattle.stack_targets.specs.Landings.{leaves_of};
ghost use Rattle.transaction_cells.specs.Found.{found};
ghost use Rattle.transaction_cells.specs.Gathered.{AreChunksOf, AreTypedChunks, shown_word, IsTold, runs_read, runs_shown, FitsChunk, FitsStaged, pieces_gathered, FitPieces};
ghost use Rattle.transaction_cells.specs.Operations.{AreStaged, HasSites, IsLeafIn};
ghost use Rattle.transaction_cells.specs.Pieces.{AreCells};
ghost use Rattle.transaction_cells.specs.Sites.{Site, sites_of};
ghost use Rattle.transaction_cells.specs.Staging.{CanStage};

use crate::staging::{Staging, Table};
use crate::view_cells::{Piece, ViewCells};
use cells::Run;
use chunk_cache::Snapshot;
use rebase_writes::{Staged, read_run};
use std::alloc::{AllocError, Global};

impl Staging {
    /// The words that a view shows, cell by cell: what is staged, else what the chunk of the cell's piece has, through the casts of the
    /// cell's leaf. `chunks` has for each piece its chunk, or none where at each of the piece's cells a word is staged.
    ///
    /// # Errors
    /// Want of memory alone.
    pub fn gather(
        &self,
        alloc: Global,
        cells: &ViewCells,
        chunks: &[Option<Snapshot>],
    ) -> Result<Vec<u64>, AllocError>
        requires cells { CanStage self.now cells.now (length cells.now.leaves) }
        requires chunks { AreChunksOf cells.now.pieces chunks.now }
        ensures value { IfOk result (λ words. (sites : List Site) → AreCells sites cells.now
            → words.items ≡ map (shown_word self.now cells.now.pieces chunks.now) sites) }
        ensures history { IfOk result (λ words. (events : History) (v : View) (ops : List Op) (content : Content)
            → AllByRecursion (IsLeafIn events) (leaves_of v) → HasSites v → AreCells (sites_of v) cells.now
            → AreStaged events ops self.now → AllByRecursion (IsTold events content cells.now.pieces chunks.now)
            (unwritten ops v) → map Some words.items ≡ read_values (written ops content) v) }
        ensures typed { IfOk result (λ words. (events : History) (v : View) (ops : List Op)
            → AllByRecursion (IsLeafIn events) (leaves_of v) → HasSites v → AreCells (sites_of v) cells.now
            → AreStaged events ops self.now → AreTypedChunks events cells.now.pieces chunks.now
            → AllByRecursion (IsWord (look_of v).dtype) words.items) }
    {
        let mut words = vec![in alloc; 0; cells.leaves.len()]?;
        show(self, cells, chunks, &mut words);
        Ok(words)
    }
}

// Writes the words that a view shows over zeros.
fn show(staging: &Staging, cells: &ViewCells, chunks: &[Option<Snapshot>], out: &mut [u64])
    requires cells { CanStage staging.now cells.now (length cells.now.leaves) }
    requires chunks { AreChunksOf cells.now.pieces chunks.now }
    requires zeros { out.old ≡ replicate (length cells.now.leaves) 0 }
    ensures { (sites : List Site) → AreCells sites cells.now
        → out.new ≡ map (shown_word staging.now cells.now.pieces chunks.now) sites }
{
    fill(&staging.table, cells.pieces.items(), chunks, out);
    cells.out(out);
}

// Puts the words of all pieces.
fn fill(table: &Table, pieces: &[Piece], chunks: &[Option<Snapshot>], out: &mut [u64])
    requires { FitPieces (found table.now.entries) (length out.old) pieces.now chunks.now }
    ensures { out.new ≡ pieces_gathered (found table.now.entries) pieces.now chunks.now out.old }
{
    for (k, piece) in pieces.iter().enumerate() {
        read_chunk(&chunks[k], piece.runs.items(), out);
        show_staged(table, piece, out);
    }
}

fn read_chunk(chunk: &Option<Snapshot>, runs: &[Run], out: &mut [u64])
    requires { FitsChunk runs.now (length out.old) chunk.now }
    ensures { out.new ≡ runs_read runs.now chunk.now out.old }
{
    if let Some(snapshot) = chunk {
        read_runs(snapshot, runs, out);
    }
}

fn read_runs(snapshot: &Snapshot, runs: &[Run], out: &mut [u64])
    requires { FitsChunk runs.now (length out.old) (Some snapshot.now) }
    ensures { out.new ≡ runs_read runs.now (Some snapshot.now) out.old }
{
    let dense = snapshot.cells();
    for run in runs {
        read_run(dense, run, out);
    }
}

fn show_staged(table: &Table, piece: &Piece, out: &mut [u64])
    requires { FitsStaged piece.now.runs (length out.old) (found table.now.entries piece.now.id) }
    ensures { out.new ≡ runs_shown piece.now.runs (found table.now.entries piece.now.id) out.old }
{
    if let Some(staged) = table.get(piece.id.items()) {
        show_runs(staged, piece.runs.items(), out);
    }
}

fn show_runs(staged: &Staged, runs: &[Run], out: &mut [u64])
    requires { FitsStaged runs.now (length out.old) (Some staged.now) }
    ensures { out.new ≡ runs_shown runs.now (Some staged.now) out.old }
{
    for run in runs {
        staged.read_run(run, out);
    }
}
