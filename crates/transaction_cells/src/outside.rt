// Which cells of a view a read needs outside a shape.
ghost use Rattle.std.specs.Prelude.{◌≡◌, ◌↔◌, ◌+◌, ◌*◌, ◌<◌, ◌≤◌, ◌&&◌, ℕ, List, [], ◌∷◌, Some, length, not, true, nat_lt, is_none, unwrap_or, slice_index_or, IsTrue};
ghost use Rattle.std.specs.List.{AllByRecursion, list_any};
ghost use Rattle.std.specs.Option.{ForSome, option_map};
ghost use Rattle.cells.specs.Places.{cell_count};
ghost use Rattle.cells.specs.Runs.{pairs_of};
ghost use Rattle.history.specs.Arrays.{Known, known_after, chunk_shape};
ghost use Rattle.history.specs.History.{History};
ghost use Rattle.history.specs.Reads.{unwritten};
ghost use Rattle.history.specs.declared.event.Op.{Op};
ghost use Rattle.rebase_writes.specs.Staged.{staged_at};
ghost use Rattle.stack_driver.specs.declared.view.View.{View};
ghost use Rattle.stack_targets.specs.Landings.{leaves_of};
ghost use Rattle.transaction_cells.specs.Needs.{IsRunIn};
ghost use Rattle.transaction_cells.specs.Operations.{AreStaged, HasSites, IsLeafIn};
ghost use Rattle.transaction_cells.specs.Outside.{AreRanked, IsInGrid, index_in, is_place_inside, is_pair_outside, are_outside, needs_outside, is_cell_outside};
ghost use Rattle.transaction_cells.specs.Pieces.{AreCells};
ghost use Rattle.transaction_cells.specs.Sites.{sites_of};
ghost use Rattle.transaction_cells.specs.Staging.{CanStage};
ghost use Rattle.transaction_cells.specs.declared.view_cells.Piece.{Piece};

use crate::staging::{Staging, place_at};
use crate::view_cells::ViewCells;
use cells::Run;
use rebase_writes::Staged;

impl Staging {
    /// Whether a read of a view needs a cell of one of its pieces that lies outside a shape of the piece's array: no word is staged at
    /// it. `chunk` is the shape of the array's chunks. Where the piece's chunk lies inside the shape, no cell is looked at. It takes no
    /// memory.
    pub fn needs_outside(
        &self,
        cells: &ViewCells,
        piece: usize,
        chunk: &[u64],
        shape: &[u64],
    ) -> bool
        requires cells { CanStage self.now cells.now (length cells.now.leaves) }
        requires piece { piece < length cells.now.pieces }
        requires grid { (d : Piece) → IsInGrid shape.now chunk.now (slice_index_or cells.now.pieces piece d) }
        ensures value { (d : Piece) → result ≡ needs_outside shape.now chunk.now self.now
            (slice_index_or cells.now.pieces piece d) }
        ensures history { (d : Piece) (events : History) (v : View) (ops : List Op) (array : ℕ) (index : List ℕ)
            (k : Known) → AllByRecursion (IsLeafIn events) (leaves_of v) → HasSites v → AreCells (sites_of v) cells.now
            → AreStaged events ops self.now
            → (slice_index_or cells.now.pieces piece d).id ≡ array ∷ index → known_after events array ≡ Some k
            → chunk.now ≡ chunk_shape k.info
            → result ≡ list_any (is_cell_outside events shape.now (slice_index_or cells.now.pieces piece d).id)
            (unwritten ops v) }
    {
        let piece = &cells.pieces.items()[piece];
        let index = index_in(piece.id.items());
        if is_within(shape, chunk, index) {
            return false;
        }
        let staged = self.table.get(piece.id.items());
        are_outside(staged, shape, chunk, index, piece.size, piece.runs.items())
    }
}

// The index of the chunk in an id.
fn index_in(id: &[u64]) -> &[u64]
    ensures { result.now ≡ index_in id.now }
{
    match id.split_first() {
        Some((_, index)) => index,
        None => id,
    }
}

// Whether the whole chunk lies in the shape.
fn is_within(shape: &[u64], chunk: &[u64], index: &[u64]) -> bool
    requires { AreRanked shape.now chunk.now index.now }
    ensures { IsTrue result → (place : ℕ) → place < cell_count chunk.now
        → is_place_inside shape.now chunk.now index.now place ≡ true }
{
    for k in 0..chunk.len() {
        if shape[k] / chunk[k] <= index[k] {
            return false;
        }
    }
    true
}

fn are_outside(
    staged: Option<&Staged>,
    shape: &[u64],
    chunk: &[u64],
    index: &[u64],
    size: u64,
    runs: &[Run],
) -> bool
    requires staged { ForSome staged (λ s. length s.now ≡ size) }
    requires ranks { AreRanked shape.now chunk.now index.now }
    requires size { size ≡ cell_count chunk.now }
    requires runs { AllByRecursion (IsRunIn size) runs.now }
    ensures { result ≡ are_outside shape.now chunk.now index.now (unwrap_or (option_map (λ s.
        s.now) staged.entry) []) runs.now }
{
    for run in runs {
        if has_outside(staged, shape, chunk, index, size, run) {
            return true;
        }
    }
    false
}

fn has_outside(
    staged: Option<&Staged>,
    shape: &[u64],
    chunk: &[u64],
    index: &[u64],
    size: u64,
    run: &Run,
) -> bool
    requires staged { ForSome staged (λ s. length s.now ≡ size) }
    requires ranks { AreRanked shape.now chunk.now index.now }
    requires size { size ≡ cell_count chunk.now }
    requires run { IsRunIn size run.now }
    ensures { result ≡ list_any (is_pair_outside shape.now chunk.now index.now (unwrap_or (option_map (λ s.
        s.now) staged.entry) [])) (pairs_of run.now) }
{
    for k in 0..run.len {
        let place = place_at(run, k);
        if is_bare_at(staged, place) && !is_inside_at(shape, chunk, index, size, place as u64) {
            return true;
        }
    }
    false
}

fn is_bare_at(staged: Option<&Staged>, place: usize) -> bool
    requires { ForSome staged (λ s. place < length s.now) }
    ensures { result ≡ is_none (staged_at (unwrap_or (option_map (λ s. s.now) staged.entry) []) place) }
{
    match staged {
        Some(staged) => !staged.covers(place),
        None => true,
    }
}

// Whether the cell at a place of a chunk lies in the shape: along each dimension the rest of the place tells the index in the chunk.
fn is_inside_at(shape: &[u64], chunk: &[u64], index: &[u64], size: u64, place: u64) -> bool
    requires ranks { AreRanked shape.now chunk.now index.now }
    requires size { size ≡ cell_count chunk.now }
    requires place { place < size }
    ensures { result ≡ is_place_inside shape.now chunk.now index.now place }
{
    let mut row = size;
    let mut rest = place;
    for k in 0..chunk.len() {
        row /= chunk[k];
        if !is_below(index[k], chunk[k], rest / row, shape[k]) {
            return false;
        }
        rest %= row;
    }
    true
}

// Whether index `r` of chunk `c` along a dimension lies below the size. Nothing is multiplied.
fn is_below(c: u64, n: u64, r: u64, size: u64) -> bool
    requires { r < n }
    ensures { result ≡ nat_lt (c * n + r) size }
{
    let full = size / n;
    c < full || (c == full && r < size % n)
}
