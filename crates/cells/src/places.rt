ghost use Rattle.std.specs.Prelude.{◌≡◌, ◌<◌, ◌≤◌, ◌^◌, ◌/◌, ◌%◌, length};
ghost use Rattle.std.specs.Option.{SomeIff};
ghost use Rattle.cells.specs.Places.{cell_count, IsInside, place_of, index_at, c_place, f_place, c_index, f_index};

use crate::order::Order;

/// The number of cells of a shape: the product of its sizes, 0 where some size is 0, however great the others are. `None`
/// exactly where it is more than `limit`.
pub fn count_cells(shape: &[u64], limit: u64) -> Option<u64>
    ensures { SomeIff result (cell_count shape.now ≤ limit) (cell_count shape.now) }
{
    if shape.contains(&0) {
        return Some(0);
    }
    let mut count = 1u64;
    for size in shape {
        match count.checked_mul(*size) {
            Some(more) => count = more,
            None => return None,
        }
    }
    if count <= limit { Some(count) } else { None }
}

/// The place of an index vector: its number among the cells of the shape, from 0.
///
/// Zarr version 2, "Arrays", member `order`.
#[tactic(auto, using(crate::proofs::PlaceLaws::places))]
pub fn place(shape: &[u64], order: Order, index: &[u64]) -> usize
    requires inside { IsInside shape.now index.now }
    requires small { cell_count shape.now ≤ 2 ^ 24 }
    ensures value { result ≡ place_of shape.now order index.now }
    ensures below { result < cell_count shape.now }
    ensures back { index_at shape.now order result ≡ index.now }
{
    let place = match order {
        Order::C => c_place(shape, index),
        Order::F => f_place(shape, index),
    };
    place as usize
}

// The place in C order: each size takes what stands before it a whole row further.
fn c_place(shape: &[u64], index: &[u64]) -> u64
    requires inside { IsInside shape.now index.now }
    requires small { cell_count shape.now ≤ 2 ^ 24 }
    ensures { result ≡ c_place shape.now index.now }
{
    let mut place = 0;
    for k in 0..shape.len() {
        place = place * shape[k] + index[k];
    }
    place
}

// The place in F order: the same from the last dimension to the first.
fn f_place(shape: &[u64], index: &[u64]) -> u64
    requires inside { IsInside shape.now index.now }
    requires small { cell_count shape.now ≤ 2 ^ 24 }
    ensures { result ≡ f_place shape.now index.now }
{
    let mut place = 0;
    for k in (0..shape.len()).rev() {
        place = place * shape[k] + index[k];
    }
    place
}

/// Writes the index vector at a place.
///
/// Zarr version 2, "Arrays", member `order`.
#[tactic(auto, using(crate::proofs::PlaceLaws::places))]
pub fn index_of(shape: &[u64], order: Order, place: usize, out: &mut [u64])
    requires below { place < cell_count shape.now }
    requires room { length out.old ≡ length shape.now }
    ensures value { out.new ≡ index_at shape.now order place }
    ensures inside { IsInside shape.now out.new }
    ensures back { place_of shape.now order out.new ≡ place }
{
    match order {
        Order::C => c_index(shape, place as u64, out),
        Order::F => f_index(shape, place as u64, out),
    }
}

// The index vector at a place in C order: the last index is the rest by the last size, and so on to the first.
fn c_index(shape: &[u64], place: u64, out: &mut [u64])
    requires below { place < cell_count shape.now }
    requires room { length out.old ≡ length shape.now }
    ensures { out.new ≡ c_index shape.now place }
{
    let mut rest = place;
    for k in (0..shape.len()).rev() {
        out[k] = rest % shape[k];
        rest /= shape[k];
    }
}

// The index vector at a place in F order: the same from the first dimension to the last.
fn f_index(shape: &[u64], place: u64, out: &mut [u64])
    requires below { place < cell_count shape.now }
    requires room { length out.old ≡ length shape.now }
    ensures { out.new ≡ f_index shape.now place }
{
    let mut rest = place;
    for k in 0..shape.len() {
        out[k] = rest % shape[k];
        rest /= shape[k];
    }
}

/// A number's quotient and remainder by a size. A guess at the quotient is tried first, since dividing is slow.
pub fn divided(x: u64, size: u64, guess: u64) -> (u64, u64)
    requires { 0 < size }
    ensures quotient { result.0 ≡ x / size }
    ensures remainder { result.1 ≡ x % size }
{
    if let Some(first) = guess.checked_mul(size) {
        if first <= x && x - first < size {
            return (guess, x - first);
        }
    }
    (x / size, x % size)
}
