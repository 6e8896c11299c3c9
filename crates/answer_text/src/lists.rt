// How many lists values without a cell take.
ghost use Rattle.std.specs.Prelude.{◌≡◌, ◌==◌, ◌<◌, ◌↔◌, IsTrue, IfSome, length};
ghost use Rattle.std.specs.List.{position_from};
ghost use Rattle.transform_json.specs.Written.{before_zero};
ghost use Rattle.answer_text.specs.Nested.{HasFewLists};

use cells::{MOST_ENTRIES, count_cells};

/// Whether the numbers of a shape can be written in nested lists: those that have a cell always, those without one where 2^22
/// lists at most stand before the first size of 0. A short line could ask for 2^62 of them otherwise.
pub fn has_few_lists(shape: &[u64]) -> bool
    ensures { IsTrue result ↔ HasFewLists shape.now }
{
    match count_cells(shape, 0) {
        Some(_) => count_cells(before_zero(shape), MOST_ENTRIES).is_some(),
        None => true,
    }
}

// The sizes before the first that is 0.
fn before_zero(shape: &[u64]) -> &[u64]
    ensures { result.now ≡ before_zero shape.now }
{
    match first_zero(shape) {
        Some(place) => &shape[..place],
        None => shape,
    }
}

fn first_zero(shape: &[u64]) -> Option<usize>
    ensures place { result ≡ position_from (λ size. size == 0) 0 shape.now }
    ensures bound { IfSome result (λ place. place < length shape.now) }
{
    shape.iter().position(|size| *size == 0)
}
