// The array and the casts of a leaf, by its number.
ghost use Rattle.std.specs.Prelude.{◌≡◌, ◌<◌, ◌≤◌, ◌+◌, ◌++◌, ◌∷◌, [], length, map, take, slice_index_or, false, IfOk, IsTrue};
ghost use Rattle.stack_driver.specs.Conditions.{IsView};
ghost use Rattle.stack_driver.specs.Targets.{LeadTo};
ghost use Rattle.stack_driver.specs.Views.{look_of};
ghost use Rattle.stack_targets.specs.Landings.{IsLeafOfLayer, all_leaves, ground_of, leaves_of, no_leaf};

use cast_driver::{Cast, Chain};
use cells::Dtype;
use stack_driver::{ArrayRef, View, dtype, leaves};
use std::alloc::{AllocError, Global};

/// Whether a view has a leaf of this number, and fewer than 2^32 - 1 leaves.
pub fn has_leaf(v: &View, leaf: u32) -> bool
    ensures has { IsTrue result → leaf < length (leaves_of v.now) }
    ensures few { IsTrue result → length (leaves_of v.now) < 4294967295 }
    ensures lacks { result ≡ false → length (leaves_of v.now) < 4294967295 → length (leaves_of v.now) ≤ leaf }
{
    let all = leaves(v);
    all < u32::MAX && leaf < all
}

/// The array of a leaf of a view, by the leaf's number.
pub fn array_at(v: &View, leaf: u32) -> &ArrayRef
    requires some { leaf < length (leaves_of v.now) }
    requires few { length (leaves_of v.now) < 4294967295 }
    ensures { result.now ≡ (slice_index_or (leaves_of v.now) leaf no_leaf).array }
{
    match v {
        View::Leaf { array, .. } => array,
        View::Cast { base, .. } => array_at(base.get(), leaf),
        View::Stack { layers, .. } => {
            let layers = layers.items();
            let (place, rest) = layer_of(layers, leaf);
            array_at(&layers[place], rest)
        }
    }
}

/// The casts from a leaf of a view outwards, by the leaf's number, the one next to the array first.
///
/// # Errors
///
/// Want of memory alone.
pub fn casts_at(alloc: Global, v: &View, leaf: u32) -> Result<Chain, AllocError>
    requires view { IsView v.now }
    requires some { leaf < length (leaves_of v.now) }
    requires few { length (leaves_of v.now) < 4294967295 }
    ensures value { IfOk result (λ chain. chain ≡ (slice_index_or (leaves_of v.now) leaf no_leaf).casts) }
    ensures leads { IfOk result (λ chain. LeadTo chain (look_of v.now).dtype) }
{
    match v {
        View::Leaf { .. } => Ok(Chain::new(alloc)),
        View::Cast { to, base } => {
            let base = base.get();
            with_cast(casts_at(alloc, base, leaf)?, dtype(base), *to)
        }
        View::Stack { layers, .. } => {
            let layers = layers.items();
            let (place, rest) = layer_of(layers, leaf);
            casts_at(alloc, &layers[place], rest)
        }
    }
}

// A chain with one cast more.
fn with_cast(chain: Chain, from: Dtype, to: Dtype) -> Result<Chain, AllocError>
    requires { LeadTo chain from }
    ensures value { IfOk result (λ longer. longer ≡ chain ++ record { from = from; to = to } ∷ []) }
    ensures leads { IfOk result (λ longer. LeadTo longer to) }
{
    let mut chain = chain;
    let _ = chain.casts();
    chain.push(Cast { from, to })?;
    Ok(chain)
}

// The layer of a stack that has a leaf, by its place, and the leaf's number among the layer's own.
fn layer_of(layers: &[View], leaf: u32) -> (usize, u32)
    requires some { leaf < length (all_leaves (map ground_of layers.now)) }
    requires few { length (all_leaves (map ground_of layers.now)) < 4294967295 }
    ensures { IsLeafOfLayer layers.now leaf result.0 result.1 }
{
    let mut rest = leaf;
    for (place, layer) in layers.iter().enumerate() {
        let own = leaves(layer);
        if rest < own {
            return (place, rest);
        }
        rest -= own;
    }
    unreachable!()
}
