// The answer to a read with these words.
ghost use Rattle.std.specs.Prelude.{◌≡◌, ◌<◌, ◌≤◌, ◌*◌, ◌∷◌, ℕ, List, None, IfOk, false};
ghost use Rattle.history.specs.Viewing.{origin_of as origin_in, shape_of as sizes_of, values_body};
ghost use Rattle.line_fits.specs.Bodies.{body_of};
ghost use Rattle.read_fits.specs.Rooms.{empty_lists};

use cells::{Index, Sizes, Words};
use index_transform::size_of;
use line_fits::Body;
use stack_driver::{View, dtype, transform_of};
use std::alloc::{AllocError, Global};

/// The answer to a read with these words. The time is that of the view's dimensions.
pub(crate) fn values_of(alloc: Global, view: &View, words: Words) -> Result<Body, AllocError>
    ensures { IfOk result (λ body. body ≡ body_of (values_body view.now None words)) }
{
    match box_of(alloc, view) {
        Ok(found) => Ok(body_in(view, found, words)),
        Err(e) => Err(e),
    }
}

fn body_in(view: &View, found: IndexBox, words: Words) -> Body
    ensures { found ≡ record { origin = origin_in view.now; shape = sizes_of view.now }
        → result ≡ body_of (values_body view.now None words) }
{
    let IndexBox { origin, shape } = found;
    Body::Values {
        origin,
        shape,
        dtype: dtype(view),
        words,
    }
}

// The lower bounds of a view, and its sizes.
#[derive(Drop)]
struct IndexBox {
    origin: Index,
    shape: Sizes,
}

fn box_of(alloc: Global, view: &View) -> Result<IndexBox, AllocError>
    ensures { IfOk result (λ found. found ≡ record { origin = origin_in view.now; shape = sizes_of view.now }) }
{
    let origin = origin_of(alloc, view)?;
    let shape = shape_of(alloc, view)?;
    Ok(IndexBox {
        origin: Index::wrap(origin),
        shape: Sizes::wrap(shape),
    })
}

fn origin_of(alloc: Global, view: &View) -> Result<Vec<i64>, AllocError>
    ensures { IfOk result (λ lows. lows.items ≡ origin_in view.now) }
{
    transform_of(view)
        .domain()
        .dims
        .items()
        .iter()
        .map(|dim| dim.lo)
        .collect(alloc)
}

fn shape_of(alloc: Global, view: &View) -> Result<Vec<u64>, AllocError>
    ensures { IfOk result (λ shape. shape.items ≡ sizes_of view.now) }
{
    transform_of(view)
        .domain()
        .dims
        .items()
        .iter()
        .map(|dim| size_of(dim))
        .collect(alloc)
}

/// Whether so many bytes have room for the values of a view: two for each list that has no item. A view without cells may take more such lists
/// than there are bytes anywhere.
pub(crate) fn has_room(alloc: Global, view: &View, bytes: usize) -> Result<bool, AllocError>
    ensures { IfOk result (λ has. has ≡ false → bytes < 2 * empty_lists (sizes_of view.now)) }
{
    let shape = shape_of(alloc, view)?;
    Ok(has_room_for(&shape, bytes))
}

fn has_room_for(shape: &[u64], bytes: usize) -> bool
    ensures { result ≡ false → bytes < 2 * empty_lists shape.now }
{
    empty_lists(shape) <= bytes as u64 / 2
}

// How many lists have no item, or 2^64 - 1 where there are more.
fn empty_lists(shape: &[u64]) -> u64
    ensures { result ≤ empty_lists shape.now }
{
    let mut lists: u64 = 0;
    let mut at = shape.len();
    while at > 0 {
        at -= 1;
        lists = lists_around(shape[at], lists);
    }
    lists
}

// The same with one size more in front.
fn lists_around(size: u64, lists: u64) -> u64
    ensures { (shape : List ℕ) → lists ≤ empty_lists shape → result ≤ empty_lists (size ∷ shape) }
{
    if size == 0 {
        1
    } else {
        lists.saturating_mul(size)
    }
}
