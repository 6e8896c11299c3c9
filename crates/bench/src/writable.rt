// Whether a chunk may be written: the only block of an N5 array has no cell outside.
ghost use Rattle.std.specs.Prelude.{◌≡◌, ◌<◌, ◌*◌, ℕ, List, IsTrue, length, slice_index};
ghost use Rattle.cells.specs.Elements.{word_at};
ghost use Rattle.cells.specs.Places.{IsInside};
ghost use Rattle.chunk_forms.specs.Grammar.{MayWrite};
ghost use Rattle.n5_blocks.specs.Block.{IsReached, IsZeroOutside, cut_sizes};

use cells::Dense;
use chunk_forms::Form;
use n5_blocks::N5Meta;

pub(crate) fn may_write(form: &Form, chunk: &[u64], d: &Dense) -> bool
    ensures { IsTrue result → MayWrite form.now chunk.now (word_at d.now) }
{
    match form {
        Form::N5 { meta } => is_whole(meta, chunk),
        _ => true,
    }
}

// Whether the block of this index is the whole array.
fn is_whole(m: &N5Meta, chunk: &[u64]) -> bool
    ensures { IsTrue result → IsReached m.now chunk.now × ((word : List ℕ → ℕ) → IsZeroOutside m.now chunk.now word) }
{
    if chunk.len() != m.dimensions.items().len() || !are_zero(chunk) {
        return false;
    }
    m.dimensions.items() == m.block.items()
}

fn are_zero(numbers: &[u64]) -> bool
    ensures { IsTrue result → (k : ℕ) → k < length numbers.now → slice_index numbers.now k ≡ 0 }
{
    numbers.iter().all(|n| *n == 0)
}
