// The words of a view as they are printed.
ghost use Rattle.std.specs.Prelude.{◌≡◌, ◌⊎◌, Ok, None, Some, IfOk, length};
ghost use Rattle.history.specs.Viewing.{origin_of as origin_in, shape_of as sizes_of, values_body as values_of};
ghost use Rattle.index_transform.specs.Cells.{cells_of, count_answer};
ghost use Rattle.line_acts.specs.Ranks.{HasRank};
ghost use Rattle.line_meanings.specs.Bodies.{body_of};
ghost use Rattle.line_meanings.specs.declared.Body.TheVariants as printed;
ghost use Rattle.line_meanings.specs.Form.{HasFactors, MayHaveFactors};
ghost use Rattle.line_meanings.specs.Numbers.{downsampling, downsampling_of};
ghost use Rattle.stack_driver.specs.Views.{look_of};

use cells::{Dtype, Index, Sizes, Words};
use downsample_view::down as downsampled;
use index_transform::size_of;
use line_meanings::{Body, DownWant, has_few_lists};
use stack_driver::{View, dtype, transform_of};
use std::alloc::{AllocError, Global};

/// The answer with the words of a view, downsampled where factors are given; want of memory also where the words take too many lists to be
/// written.
pub fn values_body(alloc: Global, v: &View, down: &Option<DownWant>, words: Words) -> Body
    requires count { count_answer (look_of v.now).dims ≡ Ok (length (cells_of (look_of v.now).dims)) }
    requires words { length words ≡ length (cells_of (look_of v.now).dims) }
    requires factors { MayHaveFactors down.now }
    requires rank { HasRank down.now v.now }
    ensures { (result ≡ body_of (values_of v.now (downsampling_of down.now) words)) ⊎ (result ≡ printed.Memory) }
{
    match down {
        Some(want) => fewer(alloc, v, want, words.items()),
        None => whole(alloc, v, words),
    }
}

fn fewer(alloc: Global, v: &View, want: &DownWant, words: &[u64]) -> Body
    requires count { count_answer (look_of v.now).dims ≡ Ok (length (cells_of (look_of v.now).dims)) }
    requires words { length words.now ≡ length (cells_of (look_of v.now).dims) }
    requires factors { HasFactors want.now }
    requires rank { HasRank (Some want.now) v.now }
    ensures { (result ≡ body_of (values_of v.now (Some (downsampling want.now)) words.now))
        ⊎ (result ≡ printed.Memory) }
{
    let domain = transform_of(v).domain();
    match downsampled(
        alloc,
        domain,
        dtype(v),
        words,
        want.factors.items(),
        want.method,
    ) {
        Ok(d) => shown(d.origin, d.shape, dtype(v), d.words),
        Err(_) => Body::Memory,
    }
}

// The answer with words, unless they have no cell and take too many lists to be written.
fn shown(origin: Index, shape: Sizes, dtype: Dtype, words: Words) -> Body
    ensures { (result ≡ printed.Values origin shape dtype words) ⊎ (result ≡ printed.Memory) }
{
    if !has_few_lists(shape.items()) {
        return Body::Memory;
    }
    Body::Values {
        origin,
        shape,
        dtype,
        words,
    }
}

fn whole(alloc: Global, v: &View, words: Words) -> Body
    ensures { (result ≡ body_of (values_of v.now None words)) ⊎ (result ≡ printed.Memory) }
{
    match box_of(alloc, v) {
        Ok(found) => shown(found.origin, found.shape, dtype(v), words),
        Err(_) => Body::Memory,
    }
}

// The lower bounds of a view, and its sizes.
#[derive(Drop)]
struct IndexBox {
    origin: Index,
    shape: Sizes,
}

fn box_of(alloc: Global, v: &View) -> Result<IndexBox, AllocError>
    ensures { IfOk result (λ b. b ≡ record { origin = origin_in v.now; shape = sizes_of v.now }) }
{
    let origin = origin_of(alloc, v)?;
    let shape = shape_of(alloc, v)?;
    Ok(IndexBox {
        origin: Index::wrap(origin),
        shape: Sizes::wrap(shape),
    })
}

fn origin_of(alloc: Global, v: &View) -> Result<Vec<i64>, AllocError>
    ensures { IfOk result (λ lows. lows.items ≡ origin_in v.now) }
{
    transform_of(v)
        .domain()
        .dims
        .items()
        .iter()
        .map(|dim| dim.lo)
        .collect(alloc)
}

/// The sizes of a view.
pub(crate) fn shape_of(alloc: Global, v: &View) -> Result<Vec<u64>, AllocError>
    ensures { IfOk result (λ shape. shape.items ≡ sizes_of v.now) }
{
    transform_of(v)
        .domain()
        .dims
        .items()
        .iter()
        .map(|dim| size_of(dim))
        .collect(alloc)
}
