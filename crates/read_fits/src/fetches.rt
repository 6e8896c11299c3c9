// Whether a read calls the store.
ghost use Rattle.std.specs.Prelude.{◌≡◌, ◌↔◌, ◌<◌, ℕ, Some, IfOk, IsTrue, get_or, length};
ghost use Rattle.std.specs.List.{slice_get};
ghost use Rattle.history.specs.declared.array.ArrayInfo.{ArrayInfo as InfoOf};
ghost use Rattle.history.specs.Arrays.{Known, known_after};
ghost use Rattle.history.specs.Commit.{Transaction};
ghost use Rattle.history.specs.History.{History};
ghost use Rattle.history.specs.ReadRows.{IsOnMount, mount_of};
ghost use Rattle.stated_arrays.specs.Outcomes.{AreKeptOf, IsOpenedAs};
ghost use Rattle.stated_arrays.specs.Outline.{outline};
ghost use Rattle.transaction_cells.specs.Staging.{CanStage};
ghost use Rattle.transaction_cells.specs.declared.view_cells.Piece.{Piece as PieceOf};
ghost use Rattle.line_fits.specs.Fitting.{IsFetched};
ghost use Rattle.line_fits.specs.Transcript.{mount};
ghost use Rattle.read_fits.specs.Fetches.{HasFetchedPiece, HasInfos, IsFetchedPiece, IsKnownPiece};
ghost use Rattle.read_fits.specs.Owned.{AreOwn, IsThere};

use crate::own::{Own, id_at};
use crate::reads::located;
use history::{ArrayInfo, Home};
use stack_driver::View;
use stated_arrays::{Openings, array_opened};
use std::alloc::{AllocError, Global};
use transaction_cells::ViewCells;

/// Whether a read of the view calls the store: it needs a stored chunk that no earlier Read of its transaction named. The openings are those of
/// the history's outline. The time is that of the view's cells.
///
/// # Errors
/// `AllocError` where memory is wanting.
pub fn is_fetched(
    alloc: Global,
    own: &Own,
    view: &View,
    openings: &Openings,
) -> Result<bool, AllocError>
    requires own { (history : History) × (upto : ℕ) × (t : Transaction) × (outline history ≡ openings.now.events)
        × IsThere history upto view.now
        × AreOwn history upto t.ops own.now.staging own.now.reads.set.keys }
    requires openings { AreKeptOf openings.now.events openings.now.opened openings.now.places }
    ensures { IfOk result (λ is. (history : History) (upto : ℕ) (t : Transaction)
        → outline history ≡ openings.now.events
        → IsThere history upto view.now → AreOwn history upto t.ops own.now.staging own.now.reads.set.keys
        → IsTrue is ↔ IsFetched history t view.now) }
{
    let cells = located(alloc, view)?;
    Ok(has_fetched(own, &cells, openings))
}

// Whether one of the pieces is fetched.
fn has_fetched(own: &Own, cells: &ViewCells, openings: &Openings) -> bool
    requires cells { CanStage own.now.staging cells.now (length cells.now.leaves) }
    requires known { (i : ℕ) (d : PieceOf) → i < length cells.now.pieces
        → IsKnownPiece openings.now.events (get_or cells.now.pieces i d) }
    requires infos { HasInfos openings.now.events openings.now.opened }
    ensures { IsTrue result
        ↔ HasFetchedPiece openings.now.events own.now.staging own.now.reads.set.keys cells.now.pieces }
{
    for i in 0..cells.pieces.items().len() {
        if is_fetched_piece(own, cells, i, openings) {
            return true;
        }
    }
    false
}

fn is_fetched_piece(own: &Own, cells: &ViewCells, at: usize, openings: &Openings) -> bool
    requires cells { CanStage own.now.staging cells.now (length cells.now.leaves) }
    requires at { at < length cells.now.pieces }
    requires known { (d : PieceOf) → IsKnownPiece openings.now.events (get_or cells.now.pieces at d) }
    requires infos { HasInfos openings.now.events openings.now.opened }
    ensures { (d : PieceOf) → IsTrue result ↔ IsFetchedPiece openings.now.events own.now.staging
        own.now.reads.set.keys (get_or cells.now.pieces at d) }
{
    if !own.staging.needs(cells, at) {
        return false;
    }
    let id = id_at(cells, at);
    if own.reads.has(id) {
        return false;
    }
    is_stored(openings, array_in(id))
}

/// The number of the array that an id begins with.
pub(crate) fn array_in(id: &[u64]) -> u64
    ensures { result ≡ get_or id.now 0 0 }
{
    if id.is_empty() { 0 } else { id[0] }
}

/// Whether the array of a number, which is one of those that were opened, lies on the mount.
pub fn is_stored(openings: &Openings, array: u64) -> bool
    requires known { (k : Known) × (known_after openings.now.events array ≡ Some k) }
    requires infos { HasInfos openings.now.events openings.now.opened }
    ensures { IsTrue result ↔ IsOnMount mount (known_after openings.now.events array) }
{
    is_on_mount(&info_of(openings, array).home)
}

fn is_on_mount(home: &Home) -> bool
    ensures { IsTrue result ↔ (mount_of home.now ≡ Some mount) }
{
    match home {
        Home::Zarr { mount, .. } => mount.items() == "memory",
        Home::N5 { mount, .. } => mount.items() == "memory",
        Home::Zarr3 { mount, .. } => mount.items() == "memory",
        Home::Local { .. } => false,
    }
}

/// The array of a number, as it was opened.
pub(crate) fn info_of(openings: &Openings, array: u64) -> &ArrayInfo
    requires { (info : InfoOf) × IsOpenedAs openings.now.events openings.now.opened array info }
    ensures { (info : InfoOf) → IsOpenedAs openings.now.events openings.now.opened array info → result.now ≡ info }
{
    let number = number_at(openings.opened.items(), array);
    array_opened(openings.events.items(), number)
}

/// The number of the event that opened an array.
pub(crate) fn number_at(opened: &[u64], array: u64) -> u64
    requires { (n : ℕ) × (slice_get opened.now array ≡ Some n) }
    ensures { slice_get opened.now array ≡ Some result }
{
    opened[array as usize]
}
