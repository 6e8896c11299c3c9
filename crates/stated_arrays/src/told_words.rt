// The words that a transcript tells of a read.
ghost use Rattle.std.specs.Prelude.{◌≡◌, ◌≤◌, ◌^◌, Ok, IfOk, length};
ghost use Rattle.cells.specs.Places.{cell_count};
ghost use Rattle.history.specs.Viewing.{shape_of as sizes_of};
ghost use Rattle.index_transform.specs.Cells.{cells_of, count_answer};
ghost use Rattle.script_lines.specs.NestedWords.{nested_words};
ghost use Rattle.serde_json.specs.View.{view as data_in};
ghost use Rattle.stack_driver.specs.Views.{look_of};
ghost use Rattle.transcript_cut.specs.Standings.{words_given};

use cells::{Dtype, Words};
use index_transform::size_of;
use script_lines::{ValuesError, nested_words};
use serde_json::Value;
use stack_driver::{View, dtype, transform_of};
use std::alloc::{AllocError, Global};

/// The words that values give to the cells of a view, one after another: lists that are nested as its shape says, in
/// C order. Values that are no such lists give none.
///
/// The view's cells are few enough to be counted, as those of each view are that a transcript has opened.
///
/// # Errors
/// An allocation failed.
pub fn words_told(alloc: Global, v: &View, values: &Value) -> Result<Words, AllocError>
    requires { count_answer (look_of v.now).dims ≡ Ok (length (cells_of (look_of v.now).dims)) }
    ensures { IfOk result (λ words. words
        ≡ words_given (nested_words (look_of v.now).dtype (sizes_of v.now) (data_in values.now))) }
{
    let shape = shape_of(alloc, v)?;
    match nested(alloc, dtype(v), &shape, values) {
        Ok(words) => Ok(Words::wrap(words)),
        Err(e) => Err(e),
    }
}

fn shape_of(alloc: Global, v: &View) -> Result<Vec<u64>, AllocError>
    ensures { IfOk result (λ shape. shape.items ≡ sizes_of v.now) }
{
    transform_of(v)
        .domain()
        .dims
        .items()
        .iter()
        .map(|dim| size_of(dim))
        .collect(alloc)
}

fn nested(
    alloc: Global,
    dtype: Dtype,
    shape: &[u64],
    values: &Value,
) -> Result<Vec<u64>, AllocError>
    requires { cell_count shape.now ≤ 2 ^ 22 }
    ensures { IfOk result (λ words. words.items ≡ words_given (nested_words dtype shape.now (data_in values.now))) }
{
    match nested_words(alloc, dtype, shape, values) {
        Ok(words) => Ok(words),
        Err(ValuesError::Bad { .. }) => Ok(Vec::new(alloc)),
        Err(ValuesError::Memory) => Err(AllocError),
    }
}
