// What a read asks for, besides what its transaction wrote.
ghost use Rattle.std.specs.Prelude.{◌≡◌, ◌↔◌, ◌<◌, ◌∷◌, ◌++◌, [], List, None, All, length, map, get_or, IfOk, OnOk, IsTrue};
ghost use Rattle.chunk_versions.specs.Marks.{no_cell, casts_of};
ghost use Rattle.chunk_versions.specs.declared.asked.AskedCell.{AskedCell as CellOf};
ghost use Rattle.stack_driver.specs.Targets.{outwards};
ghost use Rattle.transaction_cells.specs.declared.view_cells.Piece.{Piece as PieceOf};
ghost use Rattle.history.specs.History.{History};
ghost use Rattle.history.specs.declared.event.Op.{Op as OpOf};
ghost use Rattle.stack_driver.specs.declared.view.View.{View as ViewOf};
ghost use Rattle.transaction_cells.specs.Lanes.{LaneSeen};
ghost use Rattle.event_replay.specs.Demands.{IsReadIn, TellsSeen, AreTellingPieces, IsTellingPiece, IsBareOf, AreCovered, bare};

use crate::demand::{AskedPiece, Demand};
use crate::locating::chains_of;
use crate::pairs::{asked_cells, piece_at};
use cells::copy_sizes;
use std::alloc::{AllocError, Global};
use transaction_cells::{Lane, Staging, ViewCells};
use version_store::AskedCell;

/// What a read asks for whose cells are these, and which shows these words: `None` where the words that its transaction staged are
/// shown otherwise, so that no history has it. The time is that of the cells.
///
/// # Errors
/// `AllocError` where memory is wanting.
pub fn demand_of(
    alloc: Global,
    cells: ViewCells,
    staging: &Staging,
    words: &[u64],
) -> Result<Option<Demand>, AllocError>
    requires { (history : History) × (ops : List OpOf) × (view : ViewOf)
        × IsReadIn history ops view words.now cells staging.now }
    ensures { IfOk result (TellsSeen cells staging.now words.now) }
{
    let Some(pieces) = asked_pieces(alloc, &cells, staging, words)? else {
        return Ok(None);
    };
    let ViewCells { lanes, .. } = cells;
    let casts = chains_of(alloc, lanes)?;
    Ok(Some(Demand { casts, pieces }))
}

// The pieces, or that the words that are staged are shown otherwise.
fn asked_pieces(
    alloc: Global,
    cells: &ViewCells,
    staging: &Staging,
    words: &[u64],
) -> Result<Option<Vec<AskedPiece>>, AllocError>
    requires { (history : History) × (ops : List OpOf) × (view : ViewOf)
        × IsReadIn history ops view words.now cells.now staging.now }
    ensures { IfOk result (AreTellingPieces cells.now staging.now words.now) }
{
    let mut pieces = Vec::new(alloc);
    for i in 0..cells.pieces.items().len() {
        let Some(piece) = asked_piece(alloc, cells, staging, words, i)? else {
            return Ok(None);
        };
        pieces.push(piece)?;
    }
    Ok(Some(pieces))
}

// The same of one piece.
fn asked_piece(
    alloc: Global,
    cells: &ViewCells,
    staging: &Staging,
    words: &[u64],
    at: usize,
) -> Result<Option<AskedPiece>, AllocError>
    requires read { (history : History) × (ops : List OpOf) × (view : ViewOf)
        × IsReadIn history ops view words.now cells.now staging.now }
    requires at { at < length cells.now.pieces }
    ensures { IfOk result (λ found. (d : PieceOf)
        → IsTellingPiece cells.now staging.now words.now (get_or cells.now.pieces at d).id found) }
{
    let piece = piece_at(cells.pieces.items(), at);
    let own = staging.words_at(alloc, cells, at)?;
    let asked = asked_cells(alloc, piece.runs.items(), &cells.leaves, words)?;
    match bare_cells(alloc, cells.lanes.items(), &asked, &own)? {
        Some(asked) => {
            let id = copy_sizes(alloc, piece.id.items())?;
            Ok(Some(AskedPiece { id, asked }))
        }
        None => Ok(None),
    }
}

// The cells that no word covers; `None` where a word that covers one is shown otherwise.
fn bare_cells(
    alloc: Global,
    lanes: &[Lane],
    asked: &[AskedCell],
    own: &[Option<u64>],
) -> Result<Option<Vec<AskedCell>>, AllocError>
    requires same { length own.now ≡ length asked.now }
    requires lanes { All (λ (a : CellOf). a.leaf < length lanes.now) asked.now }
    ensures { IfOk result (IsBareOf (map (λ (lane : LaneSeen). lane.casts) lanes.now) asked.now own.now) }
{
    let mut rest = Vec::new(alloc);
    for i in 0..asked.len() {
        let (cell, word) = pair_of(asked, own, i);
        if !keep_bare(&mut rest, lanes, cell, word)? {
            return Ok(None);
        }
    }
    Ok(Some(rest))
}

// Keeps a cell that no word covers; tells whether one that does is shown as it was asked for.
fn keep_bare(
    rest: &mut Vec<AskedCell>,
    lanes: &[Lane],
    cell: AskedCell,
    word: Option<u64>,
) -> Result<bool, AllocError>
    requires { cell.leaf < length lanes.now }
    ensures covered { IfOk result (λ is. IsTrue is
        ↔ AreCovered (map (λ (lane : LaneSeen). lane.casts) lanes.now) (cell ∷ []) (word ∷ [])) }
    ensures kept { OnOk result (rest.new.items ≡ rest.old.items ++ bare (cell ∷ []) (word ∷ [])) }
{
    match word {
        Some(word) => Ok(is_shown(lanes, cell, word)),
        None => {
            rest.push(cell)?;
            Ok(true)
        }
    }
}

fn pair_of(asked: &[AskedCell], own: &[Option<u64>], at: usize) -> (AskedCell, Option<u64>)
    requires asked { at < length asked.now }
    requires own { at < length own.now }
    ensures cell { result.0 ≡ get_or asked.now at no_cell }
    ensures own { result.1 ≡ get_or own.now at None }
{
    (asked[at], own[at])
}

// Whether a word is shown through the casts of a cell as it was asked for.
fn is_shown(lanes: &[Lane], cell: AskedCell, word: u64) -> bool
    requires { cell.leaf < length lanes.now }
    ensures { IsTrue result
        ↔ (outwards (casts_of (map (λ (lane : LaneSeen). lane.casts) lanes.now) cell) word ≡ cell.word) }
{
    let lane = &lanes[cell.leaf as usize];
    lane.casts.out(word) == cell.word
}
