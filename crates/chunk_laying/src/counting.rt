// How many chunks a new shape cuts.
ghost use Rattle.std.specs.Prelude.{◌≡◌, ◌<◌, ◌≤◌, ◌+◌, ◌-◌, ◌*◌, min, length};
ghost use Rattle.std.specs.Int.{div_ceil};
ghost use Rattle.std.specs.Option.{SomeIff};
ghost use Rattle.cells.specs.Shapes.{IsChunkShape};
ghost use Rattle.history.specs.Resizes.{whole_along};
ghost use Rattle.chunk_laying.specs.Resized.{cut_indices};

/// The most chunks that a new shape may cut.
pub const MOST_CUT_CHUNKS: u64 = 65_536;

// One more than that stands for every greater count.
pub(crate) const MANY: u64 = 65_537;

/// How many chunks there are and how many of them a new shape cuts, `MANY` standing for every greater count.
#[derive(Clone, Copy)]
pub(crate) struct Counts {
    pub(crate) all: u64,
    pub(crate) cut: u64,
}

/// How many chunks a new shape of an array cuts: those with a cell in the old shape and not in the new one. `None` exactly
/// where there are more than 65,536. It takes a few steps a dimension, however many chunks there are.
pub fn count_cut(chunk_shape: &[u64], old: &[u64], new: &[u64]) -> Option<u64>
    requires chunks { IsChunkShape chunk_shape.now }
    requires old { length old.now ≡ length chunk_shape.now }
    requires new { length new.now ≡ length chunk_shape.now }
    ensures { let count = length (cut_indices chunk_shape.now old.now new.now) in SomeIff result (count ≤ 65536) count }
{
    let mut all = 1u64;
    let mut cut = 0u64;
    for k in (0..chunk_shape.len()).rev() {
        let count = old[k].div_ceil(chunk_shape[k]);
        let whole = whole_along(old[k], new[k], chunk_shape[k], count);
        cut = cut_with(count, whole, all, cut);
        all = all_with(count, all);
    }
    if cut <= MOST_CUT_CHUNKS {
        Some(cut)
    } else {
        None
    }
}

// How many chunks along a dimension keep all their cells.
pub(crate) fn whole_along(size: u64, new: u64, n: u64, count: u64) -> u64
    requires positive { 0 < n }
    requires count { count ≡ div_ceil size n }
    ensures value { result ≡ whole_along size new n count }
    ensures most { result ≤ count }
{
    if new < size { new / n } else { count }
}

// The chunks that are cut, with one dimension more: those past the whole ones along it, and of the whole ones those that are
// cut along another.
pub(crate) fn cut_with(count: u64, whole: u64, all: u64, cut: u64) -> u64
    requires whole { whole ≤ count }
    requires all { all ≤ 65537 }
    requires cut { cut ≤ 65537 }
    ensures { result ≡ min (min (count - whole) 65537 * all + min whole 65537 * cut) 65537 }
{
    ((count - whole).min(MANY) * all + whole.min(MANY) * cut).min(MANY)
}

// All chunks, with one dimension more.
pub(crate) fn all_with(count: u64, all: u64) -> u64
    requires { all ≤ 65537 }
    ensures { result ≡ min (min count 65537 * all) 65537 }
{
    (count.min(MANY) * all).min(MANY)
}
