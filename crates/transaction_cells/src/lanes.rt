// The leaves of a view, as far as they tell where cells lie by chunks.
ghost use Rattle.std.specs.Prelude.{◌≡◌, ◌++◌, ◌∷◌, [], map, IfOk, OnOk};
ghost use Rattle.std.specs.List.{AllByRecursion};
ghost use Rattle.stack_driver.specs.Conditions.{IsView};
ghost use Rattle.stack_driver.specs.Targets.{LeadTo};
ghost use Rattle.stack_targets.specs.Landings.{all_leaves, ground_of, leaves_of};
ghost use Rattle.transaction_cells.specs.Lanes.{HasGrid, LaneSeen, cast_lane, lane_of, size_among};

use crate::lane::Lane;
use cast_driver::{Cast, Chain};
use cells::{List, Sizes, count_cells};
use stack_driver::{ArrayRef, View, dtype};
use std::alloc::{AllocError, Global};

/// The lanes of a view's leaves, from left to right. The view is walked once.
pub(crate) fn lanes_of(alloc: Global, v: &View) -> Result<List<Lane>, AllocError>
    requires { IsView v.now }
    ensures lanes { IfOk result (λ lanes. lanes ≡ map lane_of (leaves_of v.now)) }
    ensures ranks { OnOk result (AllByRecursion HasGrid (leaves_of v.now)) }
{
    let mut lanes = Vec::new(alloc);
    put_lanes(alloc, v, &mut lanes)?;
    Ok(List::wrap(lanes))
}

// Puts the lanes of a view's leaves behind those that are there.
#[cycle(put_lanes)]
fn put_lanes(alloc: Global, v: &View, lanes: &mut Vec<Lane>) -> Result<(), AllocError>
    requires { IsView v.now }
    ensures lanes { OnOk result (lanes.new.items ≡ lanes.old.items ++ map lane_of (leaves_of v.now)) }
    ensures ranks { OnOk result (AllByRecursion HasGrid (leaves_of v.now)) }
{
    match v {
        View::Leaf { array, .. } => put_leaf(alloc, array, lanes),
        View::Cast { to, base } => {
            let base = base.get();
            let mut below = Vec::new(alloc);
            put_lanes(alloc, base, &mut below)?;
            put_cast(
                below,
                Cast {
                    from: dtype(base),
                    to: *to,
                },
                lanes,
            )
        }
        View::Stack { layers, .. } => put_layers(alloc, layers.items(), lanes),
    }
}

#[cycle(put_lanes)]
fn put_layers(alloc: Global, layers: &[View], lanes: &mut Vec<Lane>) -> Result<(), AllocError>
    requires { AllByRecursion IsView layers.now }
    ensures lanes { OnOk result (lanes.new.items
        ≡ lanes.old.items ++ map lane_of (all_leaves (map ground_of layers.now))) }
    ensures ranks { OnOk result (AllByRecursion HasGrid (all_leaves (map ground_of layers.now))) }
{
    for layer in layers {
        put_lanes(alloc, layer, lanes)?;
    }
    Ok(())
}

// Puts the lane of an array without casts behind those that are there.
fn put_leaf(alloc: Global, array: &ArrayRef, lanes: &mut Vec<Lane>) -> Result<(), AllocError>
    ensures lane { OnOk result (lanes.new.items
        ≡ lanes.old.items ++ lane_of (record { array = array.now; casts = [] }) ∷ []) }
    ensures rank { OnOk result (HasGrid (record { array = array.now; casts = [] })) }
{
    let chunk = Sizes::wrap(Vec::from_slice(alloc, array.chunk.items())?);
    lanes.push(Lane {
        array: array.number,
        chunk,
        casts: Chain::new(alloc),
    })?;
    Ok(())
}

// Puts lanes behind those that are there, each with one cast more.
fn put_cast(below: Vec<Lane>, cast: Cast, lanes: &mut Vec<Lane>) -> Result<(), AllocError>
    requires { AllByRecursion (λ (lane : LaneSeen). LeadTo lane.casts cast.from) below.items }
    ensures { OnOk result (lanes.new.items ≡ lanes.old.items ++ map (cast_lane cast) below.items) }
{
    for lane in below {
        lanes.push(with_cast(lane, cast)?)?;
    }
    Ok(())
}

// A lane with one cast more.
fn with_cast(lane: Lane, cast: Cast) -> Result<Lane, AllocError>
    requires { LeadTo lane.casts cast.from }
    ensures { IfOk result (λ longer. longer ≡ cast_lane cast lane) }
{
    let Lane {
        array,
        chunk,
        mut casts,
    } = lane;
    let _ = casts.casts();
    casts.push(cast)?;
    Ok(Lane {
        array,
        chunk,
        casts,
    })
}

/// How many cells a chunk of an array has, by the first lane of the array.
pub(crate) fn size_of(lanes: &[Lane], array: u64) -> u64
    ensures { result ≡ size_among lanes.now array }
{
    for lane in lanes {
        if lane.array == array {
            return count_cells(lane.chunk.items(), 1 << 24).unwrap_or(0);
        }
    }
    0
}
