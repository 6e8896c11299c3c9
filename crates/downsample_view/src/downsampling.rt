ghost use Rattle.std.specs.Prelude.{◌≡◌, ℤ, List, IsTrue, IfOk, length, map};
ghost use Rattle.std.specs.List.{AllByRecursion, list_all};
ghost use Rattle.index_intervals.specs.Members.{is_finite};
ghost use Rattle.index_transform.specs.Cells.{cells_of};
ghost use Rattle.index_transform.specs.Walks.{IsCell};
ghost use Rattle.downsample_view.specs.Groups.{IsFactor, new_dims, HasCell};
ghost use Rattle.downsample_view.specs.Downsampled.{downsampled, new_word};

use crate::method::Method;
use crate::outcome::Down;
use crate::places::places;
use crate::sizes::{origins, sizes};
use crate::slots::kept_words;
use cells::{Dtype, Index, Sizes, Words};
use index_intervals::Interval;
use index_transform::Domain;
use std::alloc::{AllocError, Global};

/// The words of a finite domain downsampled by a factor for each dimension, each from 1 to 4194304.
///
/// There is one word for each cell of the domain, in C order. A group of cells begins at a multiple of the factor, so one at
/// the lower bound may be cut in front, and one at the upper bound behind. An empty dimension stays empty.
///
/// # Errors
///
/// Want of memory alone.
///
/// TensorStore, driver `downsample`.
pub fn down(
    alloc: Global,
    domain: &Domain,
    dtype: Dtype,
    words: &[u64],
    factors: &[u64],
    method: Method,
) -> Result<Down, AllocError>
    requires finite { IsTrue (list_all is_finite domain.now.dims) }
    requires ranks { length factors.now ≡ length domain.now.dims }
    requires factors { AllByRecursion IsFactor factors.now }
    requires words { length words.now ≡ length (cells_of domain.now.dims) }
    ensures value { IfOk result (λ d. d ≡ downsampled method dtype factors.now domain.now.dims words.now) }
    ensures reached { IfOk result (λ d. (y : List ℤ) → IsCell (new_dims method factors.now domain.now.dims) y
        → HasCell method factors.now domain.now.dims y) }
{
    let dims = domain.dims.items();
    let origin = origins(alloc, dims, factors, method)?;
    let shape = sizes(alloc, dims, factors, method)?;
    Ok(Down {
        origin: Index::wrap(origin),
        shape: Sizes::wrap(shape),
        words: Words::wrap(new_words(alloc, dims, dtype, words, factors, method)?),
    })
}

fn new_words(
    alloc: Global,
    dims: &[Interval],
    dtype: Dtype,
    words: &[u64],
    factors: &[u64],
    method: Method,
) -> Result<Vec<u64>, AllocError>
    requires finite { IsTrue (list_all is_finite dims.now) }
    requires ranks { length factors.now ≡ length dims.now }
    requires factors { AllByRecursion IsFactor factors.now }
    requires words { length words.now ≡ length (cells_of dims.now) }
    ensures { IfOk result (λ all. all.items ≡ map (new_word method dtype factors.now dims.now words.now)
        (cells_of (new_dims method factors.now dims.now))) }
{
    if words.is_empty() {
        return Ok(Vec::new(alloc));
    }
    let (count, list) = places(alloc, dims, factors, method)?;
    kept_words(alloc, &list, count, words, dtype, method)
}
