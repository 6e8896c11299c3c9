// A view's casts, leaves and depth.
ghost use Rattle.std.specs.Prelude.{◌≡◌, ◌^◌, ◌-◌, ◌++◌, ◌∷◌, [], min, map, IfOk};
ghost use Rattle.stack_driver.specs.Counts.{casts_of, leaves_of, sum_of, depth_of, greatest_of};
ghost use Rattle.stack_driver.specs.Targets.{LeadTo};
ghost use Rattle.stack_driver.specs.Views.{look_of};

use crate::look::dtype;
use crate::view::View;
use cast_driver::{Cast, Chain, Dtype};
use std::alloc::{AllocError, Global};

/// The casts of a view down to a leaf or a stack, the one next to it first. Those of a leaf are empty.
///
/// # Errors
///
/// Want of memory alone.
pub fn casts(alloc: Global, v: &View) -> Result<Chain, AllocError>
    ensures value { IfOk result (λ chain. chain ≡ casts_of v.now) }
    ensures leads { IfOk result (λ chain. LeadTo chain (look_of v.now).dtype) }
{
    match v {
        View::Leaf { .. } => Ok(Chain::new(alloc)),
        View::Cast { to, base } => {
            let base = base.get();
            with_cast(casts(alloc, base)?, dtype(base), *to)
        }
        View::Stack { .. } => Ok(Chain::new(alloc)),
    }
}

// A chain with one cast more.
fn with_cast(chain: Chain, from: Dtype, to: Dtype) -> Result<Chain, AllocError>
    requires { LeadTo chain from }
    ensures value { IfOk result (λ longer. longer ≡ chain ++ record { from = from; to = to } ∷ []) }
    ensures leads { IfOk result (λ longer. LeadTo longer to) }
{
    let mut chain = chain;
    let _ = chain.casts();
    chain.push(Cast { from, to })?;
    Ok(chain)
}

/// How many leaves a view has; 2^32 - 1 where there are more.
#[cycle(leaves)]
pub fn leaves(v: &View) -> u32
    ensures { result ≡ min (leaves_of v.now) (2 ^ 32 - 1) }
{
    match v {
        View::Leaf { .. } => 1,
        View::Cast { base, .. } => leaves(base.get()),
        View::Stack { layers, .. } => all_leaves(layers.items()),
    }
}

#[cycle(leaves)]
fn all_leaves(layers: &[View]) -> u32
    ensures { result ≡ min (sum_of (map leaves_of layers.now)) (2 ^ 32 - 1) }
{
    let mut count = 0u32;
    for layer in layers {
        count = count.saturating_add(leaves(layer));
    }
    count
}

/// How many casts and stacks stand around a leaf of a view, at most; 2^32 - 1 where there are more.
#[cycle(depth)]
pub fn depth(v: &View) -> u32
    ensures { result ≡ min (depth_of v.now) (2 ^ 32 - 1) }
{
    match v {
        View::Leaf { .. } => 0,
        View::Cast { base, .. } => depth(base.get()).saturating_add(1),
        View::Stack { layers, .. } => deepest(layers.items()).saturating_add(1),
    }
}

/// The depth of the deepest of some views; 0 where there are none, 2^32 - 1 where it is more.
#[cycle(depth)]
pub fn deepest(layers: &[View]) -> u32
    ensures { result ≡ min (greatest_of (map depth_of layers.now)) (2 ^ 32 - 1) }
{
    let mut most = 0u32;
    for layer in layers {
        most = most.max(depth(layer));
    }
    most
}
