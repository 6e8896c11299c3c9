ghost use Rattle.std.specs.Prelude.{◌≡◌, length, replicate, IfOk, IsTrue};
ghost use Rattle.std.specs.List.{AllByRecursion};
ghost use Rattle.transaction_cells.specs.Casting.{ArePlain, HasLane, taken_back};
ghost use Rattle.transaction_cells.specs.Gathered.{taken_out};

use crate::cell_leaves::CellLeaves;
use crate::lane::Lane;
use cells::{List, Run, SeenWords, Sizes, WrittenWords};
use std::alloc::{AllocError, Global};

/// A chunk that a view touches, and the view's cells in it.
#[derive(Debug, Drop)]
pub struct Piece {
    /// The number of the chunk's array, and behind it the chunk's index.
    pub id: Sizes,
    /// How many cells the chunk has.
    pub size: u64,
    /// Places in the view beside places in the chunk, in C order.
    pub runs: List<Run>,
}

/// Where the cells of a view lie.
#[derive(Debug, Drop)]
pub struct ViewCells {
    /// For each cell in C order the number of its leaf.
    pub leaves: CellLeaves,
    /// What each leaf tells.
    pub lanes: List<Lane>,
    /// The chunks that the view touches: arrays in the order of their numbers, and the chunks of one in lexical order.
    pub pieces: List<Piece>,
}

impl ViewCells {
    /// True only where no leaf has a cast, so that what is kept of a word is what a view shows.
    pub(crate) fn is_plain(&self) -> bool
        ensures { IsTrue result → ArePlain self.now.lanes }
    {
        are_plain(self.lanes.items())
    }

    /// The words that are kept for those that a view shows, cell by cell: each taken back through the casts of its leaf.
    ///
    /// # Errors
    /// Want of memory alone.
    pub fn back(&self, alloc: Global, words: &WrittenWords) -> Result<Vec<u64>, AllocError>
        requires count { length words.now ≡ length self.now.leaves }
        requires lanes { AllByRecursion (HasLane self.now.lanes) self.now.leaves }
        ensures { IfOk result (λ kept. kept.items ≡ taken_back self.now.lanes self.now.leaves words.now) }
    {
        match words.seen() {
            SeenWords::Each { words } => { back(alloc, self.lanes.items(), &self.leaves, words) }
            SeenWords::One { word, count } => one_back(
                alloc,
                self.lanes.items(),
                &self.leaves,
                word,
                count,
            ),
        }
    }

    /// Takes the words that are kept of a view's cells outwards, each through the casts of its leaf.
    pub fn out(&self, words: &mut [u64])
        requires count { length words.old ≡ length self.now.leaves }
        requires lanes { AllByRecursion (HasLane self.now.lanes) self.now.leaves }
        ensures { words.new ≡ taken_out self.now.lanes self.now.leaves words.old }
    {
        out(self.lanes.items(), &self.leaves, words);
    }
}

fn back(
    alloc: Global,
    lanes: &[Lane],
    leaves: &CellLeaves,
    words: &[u64],
) -> Result<Vec<u64>, AllocError>
    requires count { length words.now ≡ length leaves.now }
    requires lanes { AllByRecursion (HasLane lanes.now) leaves.now }
    ensures { IfOk result (λ kept. kept.items ≡ taken_back lanes.now leaves.now words.now) }
{
    if are_plain(lanes) {
        return Ok(Vec::from_slice(alloc, words)?);
    }
    cast_back(alloc, lanes, leaves, words)
}

// The same of one word for all cells.
fn one_back(
    alloc: Global,
    lanes: &[Lane],
    leaves: &CellLeaves,
    word: u64,
    count: usize,
) -> Result<Vec<u64>, AllocError>
    requires count { count ≡ length leaves.now }
    requires lanes { AllByRecursion (HasLane lanes.now) leaves.now }
    ensures { IfOk result (λ kept. kept.items ≡ taken_back lanes.now leaves.now (replicate count word)) }
{
    let words = vec![in alloc; word; count]?;
    if are_plain(lanes) {
        return Ok(words);
    }
    cast_back(alloc, lanes, leaves, &words)
}

// Whether no leaf has a cast, so that each word is kept as it is shown.
fn are_plain(lanes: &[Lane]) -> bool
    ensures { IsTrue result → ArePlain lanes.now }
{
    for lane in lanes {
        if !lane.casts.casts().is_empty() {
            return false;
        }
    }
    true
}

fn cast_back(
    alloc: Global,
    lanes: &[Lane],
    leaves: &CellLeaves,
    words: &[u64],
) -> Result<Vec<u64>, AllocError>
    requires count { length words.now ≡ length leaves.now }
    requires lanes { AllByRecursion (HasLane lanes.now) leaves.now }
    ensures { IfOk result (λ kept. kept.items ≡ taken_back lanes.now leaves.now words.now) }
{
    let mut kept = Vec::with_capacity(alloc, words.len())?;
    for cell in 0..leaves.len() {
        let lane = &lanes[leaves.leaf(cell) as usize];
        kept.push(lane.casts.back(words[cell]))?;
    }
    Ok(kept)
}

fn out(lanes: &[Lane], leaves: &CellLeaves, words: &mut [u64])
    requires count { length words.old ≡ length leaves.now }
    requires lanes { AllByRecursion (HasLane lanes.now) leaves.now }
    ensures { words.new ≡ taken_out lanes.now leaves.now words.old }
{
    if !are_plain(lanes) {
        cast_out(lanes, leaves, words);
    }
}

fn cast_out(lanes: &[Lane], leaves: &CellLeaves, words: &mut [u64])
    requires count { length words.old ≡ length leaves.now }
    requires lanes { AllByRecursion (HasLane lanes.now) leaves.now }
    ensures { words.new ≡ taken_out lanes.now leaves.now words.old }
{
    for cell in 0..leaves.len() {
        let lane = &lanes[leaves.leaf(cell) as usize];
        words[cell] = lane.casts.out(words[cell]);
    }
}
