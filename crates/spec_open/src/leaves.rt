// Leaves of a Spec, and what the nodes over them share.
ghost use Rattle.std.specs.Prelude.{◌≡◌, ◌≢◌, ◌<◌, ◌++◌, ◌∷◌, [], Ok, Err, IfOk, IfErr, OnOk, codes, decimal, length, map, option_map, option_and_then};
ghost use Rattle.serde_json.specs.Find.{get};
ghost use Rattle.serde_json.specs.View.{view};
ghost use Rattle.json_forms.specs.Lists.{list_items};
ghost use Rattle.json_forms.specs.Members.{least_unknown};
ghost use Rattle.spec_forms.specs.Faults.{joined};
ghost use Rattle.spec_open.specs.Nodes.{few_leaves, leaf_node, cast_members, stack_members, few_layers};
ghost use Rattle.spec_forms.specs.Numbers.{given_members, given_at};
ghost use Rattle.spec_forms.specs.Stored.{stored_members, stored_at};
ghost use Rattle.spec_forms.specs.declared.error.SpecError.{SpecError};
ghost use Rattle.spec_open.specs.declared.tree.Tree.TheVariants as node;

use crate::tree::Tree;
use cells::Name;
use json_forms::{least_unknown, list_items};
use meta_forms::Fault;
use serde_json::Value;
use spec_forms::{
    Format, SpecError, SpecLeaf, Tail, given_at, joined, own_fault, stored_at, tail_at,
};
use std::alloc::{AllocError, Global};

const MOST_LEAVES: usize = 256;

/// A leaf that a store holds.
#[tactic(auto, unfolding(crate::specs::Nodes::leaf_node))]
pub(crate) fn stored_node(
    alloc: Global,
    names: &[Name],
    format: Format,
    path: &str,
    unknown: Option<&str>,
    leaves: &mut Vec<SpecLeaf>,
    value: &Value,
) -> Result<Tree, SpecError>
    ensures value { IfOk result (λ tree. leaf_node path.now (option_map (λ s.
        s.now) unknown.entry) leaves.old.items (view value.now)
        (stored_at names.now format path.now (option_map (λ s. s.now) unknown.entry) (view value.now))
        ≡ Ok (record { tree = tree; leaves = leaves.new.items })) }
    ensures causes { IfErr result (λ e. e ≢ SpecError.Memory
        → leaf_node path.now (option_map (λ s. s.now) unknown.entry) leaves.old.items (view value.now)
        (stored_at names.now format path.now (option_map (λ s. s.now) unknown.entry) (view value.now)) ≡ Err e) }
{
    few_leaves(alloc, path, leaves.as_slice())?;
    let leaf = stored_at(alloc, names, format, path, unknown, value)?;
    let tail = tail_at(alloc, path, unknown, value)?;
    put_leaf(leaves, leaf, tail)
}

/// A leaf whose numbers are given.
#[tactic(auto, unfolding(crate::specs::Nodes::leaf_node))]
pub(crate) fn given_node(
    alloc: Global,
    path: &str,
    unknown: Option<&str>,
    leaves: &mut Vec<SpecLeaf>,
    value: &Value,
) -> Result<Tree, SpecError>
    ensures value { IfOk result (λ tree. leaf_node path.now (option_map (λ s.
        s.now) unknown.entry) leaves.old.items (view value.now)
        (given_at path.now (option_map (λ s. s.now) unknown.entry) (view value.now))
        ≡ Ok (record { tree = tree; leaves = leaves.new.items })) }
    ensures causes { IfErr result (λ e. e ≢ SpecError.Memory
        → leaf_node path.now (option_map (λ s. s.now) unknown.entry) leaves.old.items (view value.now)
        (given_at path.now (option_map (λ s. s.now) unknown.entry) (view value.now)) ≡ Err e) }
{
    few_leaves(alloc, path, leaves.as_slice())?;
    let leaf = given_at(alloc, path, unknown, value)?;
    let tail = tail_at(alloc, path, unknown, value)?;
    put_leaf(leaves, leaf, tail)
}

#[tactic(auto, unfolding(crate::specs::Nodes::few_leaves))]
fn few_leaves(alloc: Global, path: &str, leaves: &[SpecLeaf]) -> Result<(), SpecError>
    ensures value { OnOk result (few_leaves path.now leaves.now ≡ Ok tt) }
    ensures few { OnOk result (length leaves.now < 256) }
    ensures causes { IfErr result (λ e. e ≢ SpecError.Memory → few_leaves path.now leaves.now ≡ Err e) }
{
    if leaves.len() < MOST_LEAVES {
        Ok(())
    } else {
        Err(own_fault(alloc, path, Fault::Bad))
    }
}

fn put_leaf(leaves: &mut Vec<SpecLeaf>, leaf: SpecLeaf, tail: Tail) -> Result<Tree, SpecError>
    requires { length leaves.old.items < 256 }
    ensures tree { IfOk result (λ tree. tree ≡ node.Leaf (length leaves.old.items) tail.transform tail.at) }
    ensures leaves { OnOk result (leaves.new.items ≡ leaves.old.items ++ leaf ∷ []) }
    ensures causes { IfErr result (λ e. e ≡ SpecError.Memory) }
{
    let number = leaves.len() as u32;
    leaves.push(leaf)?;
    Ok(Tree::Leaf {
        leaf: number,
        transform: tail.transform,
        at: tail.at,
    })
}

/// The path of a layer below that of all layers.
pub(crate) fn layer_path(alloc: Global, path: &str, number: usize) -> Result<Name, AllocError>
    ensures { IfOk result (λ name. name ≡ joined path.now (decimal number)) }
{
    let number = format!(in alloc; "{number}")?;
    joined(alloc, path, number.as_str())
}

/// The layers of a stack: 1 to 256 values.
pub(crate) fn layers_in(value: &Value) -> Option<&[Value]>
    ensures { option_map (λ items. map view items.now) result
        ≡ option_and_then few_layers (option_and_then list_items (get (codes "layers") (view value.now))) }
{
    few_layers(list_items(value.get("layers")?)?)
}

fn few_layers(items: &[Value]) -> Option<&[Value]>
    ensures { option_map (λ items. map view items.now) result ≡ few_layers (map view items.now) }
{
    if 1 <= items.len() && items.len() <= 256 {
        Some(items)
    } else {
        None
    }
}

pub(crate) fn unknown_in_stored(value: &Value) -> Option<&str>
    ensures { option_map (λ s. s.now) result ≡ least_unknown stored_members (view value.now) }
{
    least_unknown(
        value,
        &[
            "assume_metadata",
            "cache_pool",
            "context",
            "create",
            "data_copy_concurrency",
            "delete_existing",
            "driver",
            "dtype",
            "kvstore",
            "metadata",
            "open",
            "rank",
            "recheck_cached_data",
            "recheck_cached_metadata",
            "schema",
            "store_data_equal_to_fill_value",
            "transform",
        ],
    )
}

pub(crate) fn unknown_in_given(value: &Value) -> Option<&str>
    ensures { option_map (λ s. s.now) result ≡ least_unknown given_members (view value.now) }
{
    least_unknown(
        value,
        &[
            "array",
            "assume_metadata",
            "context",
            "data_copy_concurrency",
            "delete_existing",
            "driver",
            "dtype",
            "rank",
            "schema",
            "store_data_equal_to_fill_value",
            "transform",
        ],
    )
}

pub(crate) fn unknown_in_cast(value: &Value) -> Option<&str>
    ensures { option_map (λ s. s.now) result ≡ least_unknown cast_members (view value.now) }
{
    least_unknown(
        value,
        &[
            "assume_metadata",
            "base",
            "context",
            "data_copy_concurrency",
            "delete_existing",
            "driver",
            "dtype",
            "rank",
            "schema",
            "store_data_equal_to_fill_value",
            "transform",
        ],
    )
}

pub(crate) fn unknown_in_stack(value: &Value) -> Option<&str>
    ensures { option_map (λ s. s.now) result ≡ least_unknown stack_members (view value.now) }
{
    least_unknown(
        value,
        &[
            "assume_metadata",
            "context",
            "data_copy_concurrency",
            "delete_existing",
            "driver",
            "dtype",
            "layers",
            "rank",
            "schema",
            "store_data_equal_to_fill_value",
            "transform",
        ],
    )
}
