// How a view's leaves are numbered.
ghost use Rattle.std.specs.Prelude.{◌≡◌, length, map, IfOk};
ghost use Rattle.stack_targets.specs.Axes.{dims_of};
ghost use Rattle.stack_targets.specs.Numberings.{axis_in, first_in, firsts_from, layer_in, numbering_of, size_of, stack_of, total_from};
ghost use Rattle.stack_targets.specs.declared.numbering.Numbering.{out-Numbering};

use crate::axes::axis_of;
use cells::List;
use index_transform::Transform;
use stack_driver::View;
use std::alloc::{AllocError, Global};

/// The numbers of a view's leaves, counted from left to right: an array has one leaf, and of a stack each layer begins at a
/// number of its own.
#[derive(Drop)]
pub(crate) enum Numbering {
    Leaf,
    Stack {
        /// How many leaves there are; 2^32 - 1 where there are more.
        leaves: u32,
        /// The number of each layer's first leaf.
        firsts: List<u32>,
        /// The dimension along which the layers stand one behind another, if there is one.
        axis: Option<usize>,
        /// The layers' own numbers.
        layers: List<Numbering>,
    },
}

/// The numbering of a view's leaves, by one walk.
#[cycle(number)]
pub(crate) fn number(alloc: Global, v: &View) -> Result<Numbering, AllocError>
    ensures { IfOk result (λ n. n ≡ numbering_of v.now) }
{
    match v {
        View::Leaf { .. } => Ok(Numbering::Leaf),
        View::Cast { base, .. } => number(alloc, base.get()),
        View::Stack { layers, transform } => {
            let layers = layers.items();
            stacked(alloc, layers, transform, number_all(alloc, layers)?)
        }
    }
}

#[cycle(number)]
fn number_all(alloc: Global, layers: &[View]) -> Result<Vec<Numbering>, AllocError>
    ensures { IfOk result (λ all. all.items ≡ map numbering_of layers.now) }
{
    let mut all = Vec::with_capacity(alloc, layers.len())?;
    for layer in layers {
        all.push(number(alloc, layer)?)?;
    }
    Ok(all)
}

// The numbering of a stack, by those of its layers.
fn stacked(
    alloc: Global,
    layers: &[View],
    transform: &Transform,
    numberings: Vec<Numbering>,
) -> Result<Numbering, AllocError>
    ensures { IfOk result (λ n. n ≡ stack_of (length transform.now.maps) (map dims_of layers.now) numberings.items) }
{
    let axis = axis_of(layers, transform.maps().len());
    let (leaves, firsts) = firsts_of(alloc, &numberings)?;
    Ok(Numbering::Stack {
        leaves,
        firsts: List::wrap(firsts),
        axis,
        layers: List::wrap(numberings),
    })
}

// How many leaves some layers have, and the number of each layer's first leaf.
fn firsts_of(alloc: Global, layers: &[Numbering]) -> Result<(u32, Vec<u32>), AllocError>
    ensures leaves { IfOk result (λ p. p.0 ≡ total_from 0 (map size_of layers.now)) }
    ensures firsts { IfOk result (λ p. p.1.items ≡ firsts_from 0 (map size_of layers.now)) }
{
    let mut leaves = 0u32;
    let mut firsts = Vec::with_capacity(alloc, layers.len())?;
    for layer in layers {
        firsts.push(leaves)?;
        leaves = leaves.saturating_add(size(layer));
    }
    Ok((leaves, firsts))
}

// How many leaves are numbered; 2^32 - 1 where there are more.
fn size(numbering: &Numbering) -> u32
    ensures { result ≡ size_of numbering.now }
{
    match numbering {
        Numbering::Leaf => 1,
        Numbering::Stack { leaves, .. } => *leaves,
    }
}

/// The number of the first leaf of a stack's layer; 0 where there is no such layer.
pub(crate) fn first_leaf(numbering: &Numbering, place: usize) -> u32
    ensures { result ≡ first_in (out-Numbering numbering.now) place }
{
    match numbering {
        Numbering::Leaf => 0,
        Numbering::Stack { firsts, .. } => match firsts.items().get(place) {
            Some(first) => *first,
            None => 0,
        },
    }
}

/// The dimension along which a stack's layers stand one behind another, if there is one.
pub(crate) fn axis(numbering: &Numbering) -> Option<usize>
    ensures { result ≡ axis_in (out-Numbering numbering.now) }
{
    match numbering {
        Numbering::Leaf => None,
        Numbering::Stack { axis, .. } => *axis,
    }
}

/// The numbering of a stack's layer; the same one where there is no such layer.
pub(crate) fn below(numbering: &Numbering, place: usize) -> &Numbering
    ensures { result.now ≡ layer_in numbering.now (out-Numbering numbering.now) place }
{
    match numbering {
        Numbering::Leaf => numbering,
        Numbering::Stack { layers, .. } => match layers.items().get(place) {
            Some(layer) => layer,
            None => numbering,
        },
    }
}
