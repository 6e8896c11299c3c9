// The number of cells of sizes.
ghost use Rattle.std.specs.Prelude.{◌≡◌, ◌≤◌, ◌^◌};
ghost use Rattle.cells.specs.Places.{cell_count};

use cells::{MOST_CHUNK_CELLS, count_cells};

/// The number of cells.
pub(crate) fn cells_of(sizes: &[u64]) -> usize
    requires { cell_count sizes.now ≤ 2 ^ 24 }
    ensures { result ≡ cell_count sizes.now }
{
    let Some(count) = count_cells(sizes, MOST_CHUNK_CELLS) else {
        unreachable!();
    };
    count as usize
}
