// The nodes of a Spec, which may have further Specs in them.
ghost use Rattle.std.specs.Prelude.{◌≡◌, ◌≢◌, [], Ok, Err, IfOk, IfErr, codes, decimal, map, option_map};
ghost use Rattle.serde_json.specs.Find.{get};
ghost use Rattle.serde_json.specs.View.{view};
ghost use Rattle.spec_forms.specs.Faults.{joined, in_turn};
ghost use Rattle.spec_open.specs.Nodes.{base_at, cast_in, layers_behind, layers_at, stack_in};
ghost use Rattle.spec_open.specs.Specs.{node_by, node_of, spec_at, inner_of};
ghost use Rattle.spec_forms.specs.declared.error.SpecError.{SpecError};

use crate::driver::{Driver, driver_at};
use crate::leaves::{
    given_node, layer_path, layers_in, stored_node, unknown_in_cast, unknown_in_given,
    unknown_in_stack, unknown_in_stored,
};
use crate::tree::Tree;
use cells::{Boxed, List, Name};
use meta_forms::Fault;
use serde_json::Value;
use spec_forms::{
    SpecError, SpecLeaf, false_at, joined, judged_dtype, judged_in_turn, none_before, own_fault,
    required, tail_at,
};
use std::alloc::Global;

/// The node that a value at a path is, with room for so many casts and stacks in one another; its leaves are put behind those
/// that there are.
///
/// # Errors
/// The first fault at its path; `Memory`. The leaves are not told then.
#[cycle(reading)]
#[tactic(auto, unfolding(crate::specs::Specs::node_of))]
pub(crate) fn read_node(
    alloc: Global,
    names: &[Name],
    room: u32,
    path: &str,
    leaves: &mut Vec<SpecLeaf>,
    value: &Value,
) -> Result<Tree, SpecError>
    ensures value { IfOk result (λ tree. node_of names.now (inner_of names.now room) path.now leaves.old.items
        (view value.now)
        ≡ Ok (record { tree = tree; leaves = leaves.new.items })) }
    ensures causes { IfErr result (λ e. e ≢ SpecError.Memory
        → node_of names.now (inner_of names.now room) path.now leaves.old.items (view value.now) ≡ Err e) }
{
    let driver = driver_at(alloc, path, value)?;
    node_by(alloc, names, room, path, leaves, value, driver)
}

#[cycle(reading)]
#[tactic(auto, unfolding(crate::specs::Specs::node_by))]
fn node_by(
    alloc: Global,
    names: &[Name],
    room: u32,
    path: &str,
    leaves: &mut Vec<SpecLeaf>,
    value: &Value,
    driver: Driver,
) -> Result<Tree, SpecError>
    ensures value { IfOk result (λ tree. node_by names.now (inner_of names.now room) path.now leaves.old.items
        (view value.now) driver
        ≡ Ok (record { tree = tree; leaves = leaves.new.items })) }
    ensures causes { IfErr result (λ e. e ≢ SpecError.Memory
        → node_by names.now (inner_of names.now room) path.now leaves.old.items (view value.now) driver ≡ Err e) }
{
    match driver {
        Driver::Stored(format) => {
            let unknown = unknown_in_stored(value);
            stored_node(alloc, names, format, path, unknown, leaves, value)
        }
        Driver::Array => given_node(alloc, path, unknown_in_given(value), leaves, value),
        Driver::Cast => {
            if room == 0 {
                return Err(own_fault(alloc, path, Fault::Bad));
            }
            let unknown = unknown_in_cast(value);
            cast_in(alloc, names, room - 1, path, unknown, leaves, value)
        }
        Driver::Stack => {
            if room == 0 {
                return Err(own_fault(alloc, path, Fault::Bad));
            }
            let unknown = unknown_in_stack(value);
            stack_in(alloc, names, room - 1, path, unknown, leaves, value)
        }
    }
}

#[cycle(reading)]
#[tactic(auto, unfolding(crate::specs::Nodes::cast_in))]
fn cast_in(
    alloc: Global,
    names: &[Name],
    room: u32,
    path: &str,
    unknown: Option<&str>,
    leaves: &mut Vec<SpecLeaf>,
    value: &Value,
) -> Result<Tree, SpecError>
    ensures value { IfOk result (λ tree. cast_in (spec_at names.now room) path.now (option_map (λ s.
        s.now) unknown.entry)
        leaves.old.items (view value.now) ≡ Ok (record { tree = tree; leaves = leaves.new.items })) }
    ensures causes { IfErr result (λ e. e ≢ SpecError.Memory → cast_in (spec_at names.now room) path.now
        (option_map (λ s. s.now) unknown.entry) leaves.old.items (view value.now) ≡ Err e) }
{
    false_at(alloc, "assume_metadata", path, unknown, value)?;
    let base = base_in_turn(alloc, names, room, path, unknown, leaves, value)?;
    false_at(alloc, "delete_existing", path, unknown, value)?;
    let to = judged_in_turn(alloc, path, unknown, "dtype", required(judged_dtype(value)))?;
    let tail = tail_at(alloc, path, unknown, value)?;
    Ok(Tree::Cast {
        to,
        base,
        transform: tail.transform,
        at: tail.at,
    })
}

// The Spec that is cast, in its turn.
#[cycle(reading)]
#[tactic(auto, unfolding(spec_forms::specs::Faults::in_turn, crate::specs::Nodes::base_at))]
fn base_in_turn(
    alloc: Global,
    names: &[Name],
    room: u32,
    path: &str,
    unknown: Option<&str>,
    leaves: &mut Vec<SpecLeaf>,
    value: &Value,
) -> Result<Boxed<Tree>, SpecError>
    ensures value { IfOk result (λ tree. in_turn path.now (option_map (λ s. s.now) unknown.entry) (codes "base")
        (base_at (spec_at names.now room) (joined path.now (codes "base")) leaves.old.items
        (get (codes "base") (view value.now)))
        ≡ Ok (record { tree = tree; leaves = leaves.new.items })) }
    ensures causes { IfErr result (λ e. e ≢ SpecError.Memory
        → in_turn path.now (option_map (λ s. s.now) unknown.entry) (codes "base")
        (base_at (spec_at names.now room) (joined path.now (codes "base")) leaves.old.items
        (get (codes "base") (view value.now)))
        ≡ Err e) }
{
    none_before(alloc, path, unknown, "base")?;
    let at = joined(alloc, path, "base")?;
    let Some(base) = value.get("base") else {
        return Err(own_fault(alloc, at.items(), Fault::Bad));
    };
    let tree = read_node(alloc, names, room, at.items(), leaves, base)?;
    Ok(Boxed::new(alloc, tree)?)
}

#[cycle(reading)]
#[tactic(auto, unfolding(crate::specs::Nodes::stack_in))]
fn stack_in(
    alloc: Global,
    names: &[Name],
    room: u32,
    path: &str,
    unknown: Option<&str>,
    leaves: &mut Vec<SpecLeaf>,
    value: &Value,
) -> Result<Tree, SpecError>
    ensures value { IfOk result (λ tree. stack_in (spec_at names.now room) path.now (option_map (λ s.
        s.now) unknown.entry)
        leaves.old.items (view value.now) ≡ Ok (record { tree = tree; leaves = leaves.new.items })) }
    ensures causes { IfErr result (λ e. e ≢ SpecError.Memory → stack_in (spec_at names.now room) path.now
        (option_map (λ s. s.now) unknown.entry) leaves.old.items (view value.now) ≡ Err e) }
{
    false_at(alloc, "assume_metadata", path, unknown, value)?;
    false_at(alloc, "delete_existing", path, unknown, value)?;
    let dtype = judged_in_turn(alloc, path, unknown, "dtype", judged_dtype(value))?;
    let layers = layers_in_turn(alloc, names, room, path, unknown, leaves, value)?;
    let tail = tail_at(alloc, path, unknown, value)?;
    Ok(Tree::Stack {
        layers: List::wrap(layers),
        dtype,
        transform: tail.transform,
        at: tail.at,
    })
}

// The Specs that are stacked, in their turn.
#[cycle(reading)]
#[tactic(auto, unfolding(spec_forms::specs::Faults::in_turn, crate::specs::Nodes::layers_at))]
fn layers_in_turn(
    alloc: Global,
    names: &[Name],
    room: u32,
    path: &str,
    unknown: Option<&str>,
    leaves: &mut Vec<SpecLeaf>,
    value: &Value,
) -> Result<Vec<Tree>, SpecError>
    ensures value { IfOk result (λ trees. in_turn path.now (option_map (λ s. s.now) unknown.entry) (codes "layers")
        (layers_at (spec_at names.now room) (joined path.now (codes "layers")) leaves.old.items
        (get (codes "layers") (view value.now)))
        ≡ Ok (record { trees = trees.items; leaves = leaves.new.items })) }
    ensures causes { IfErr result (λ e. e ≢ SpecError.Memory
        → in_turn path.now (option_map (λ s. s.now) unknown.entry) (codes "layers")
        (layers_at (spec_at names.now room) (joined path.now (codes "layers")) leaves.old.items
        (get (codes "layers") (view value.now)))
        ≡ Err e) }
{
    none_before(alloc, path, unknown, "layers")?;
    let at = joined(alloc, path, "layers")?;
    let Some(items) = layers_in(value) else {
        return Err(own_fault(alloc, at.items(), Fault::Bad));
    };
    layers_of(alloc, names, room, at.items(), leaves, items)
}

#[cycle(reading)]
fn layers_of(
    alloc: Global,
    names: &[Name],
    room: u32,
    path: &str,
    leaves: &mut Vec<SpecLeaf>,
    items: &[Value],
) -> Result<Vec<Tree>, SpecError>
    ensures value { IfOk result (λ trees. layers_behind (spec_at names.now room) path.now [] leaves.old.items
        (map view items.now)
        ≡ Ok (record { trees = trees.items; leaves = leaves.new.items })) }
    ensures causes { IfErr result (λ e. e ≢ SpecError.Memory
        → layers_behind (spec_at names.now room) path.now [] leaves.old.items (map view items.now) ≡ Err e) }
{
    let mut trees = Vec::with_capacity(alloc, items.len())?;
    for item in items {
        let layer = layer_at(alloc, names, room, path, trees.len(), leaves, item)?;
        trees.push(layer)?;
    }
    Ok(trees)
}

// The layer of a number.
#[cycle(reading)]
fn layer_at(
    alloc: Global,
    names: &[Name],
    room: u32,
    path: &str,
    number: usize,
    leaves: &mut Vec<SpecLeaf>,
    value: &Value,
) -> Result<Tree, SpecError>
    ensures value { IfOk result (λ tree. spec_at names.now room (joined path.now (decimal number)) leaves.old.items
        (view value.now)
        ≡ Ok (record { tree = tree; leaves = leaves.new.items })) }
    ensures causes { IfErr result (λ e. e ≢ SpecError.Memory
        → spec_at names.now room (joined path.now (decimal number)) leaves.old.items (view value.now) ≡ Err e) }
{
    let at = layer_path(alloc, path, number)?;
    read_node(alloc, names, room, at.items(), leaves, value)
}
