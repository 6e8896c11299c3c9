// Which leaf each cell of a view comes from.
ghost use Rattle.std.specs.Prelude.{◌≡◌, ◌<◌, length, replicate, slice_index};

use cells::List;
use std::marker::Model;

/// For each cell of a view, in C order, the number of its leaf. Where all come from the first leaf, as in a view of one array, it takes no memory. A
/// contract sees the list.
#[derive(Debug, Drop)]
pub struct CellLeaves {
    held: Held,
}

#[derive(Debug, Drop)]
enum Held {
    Each { leaves: List<u32> },
    First { count: usize },
}

impl Model for CellLeaves {
    ghost use Rattle.std.specs.Prelude.{List, ℕ};
    ghost use Rattle.transaction_cells.specs.CellLeaves.{leaves_held};

    ghost Value = { List ℕ };

    ghost view = { λ l. leaves_held l.held };
}

impl CellLeaves {
    /// A number for each cell.
    pub fn each(leaves: List<u32>) -> Self
        ensures { result ≡ leaves }
    {
        CellLeaves {
            held: Held::Each { leaves },
        }
    }

    /// So many cells of the first leaf.
    pub fn first(count: usize) -> Self
        ensures { result ≡ replicate count 0 }
    {
        CellLeaves {
            held: Held::First { count },
        }
    }

    /// How many cells there are.
    pub fn len(&self) -> usize
        ensures { result ≡ length self.now }
    {
        match &self.held {
            Held::Each { leaves } => leaves.items().len(),
            Held::First { count } => *count,
        }
    }

    /// The number of a cell's leaf.
    pub fn leaf(&self, cell: usize) -> u32
        requires { cell < length self.now }
        ensures { result ≡ slice_index self.now cell }
    {
        match &self.held {
            Held::Each { leaves } => leaves.items()[cell],
            Held::First { .. } => 0,
        }
    }
}
