// The nodes of a Spec that ask for leaves.
ghost use Rattle.std.specs.Prelude.{◌≡◌, [], IfOk, map, unwrap_or};
ghost use Rattle.std.specs.Option.{option_copied};
ghost use Rattle.chunk_forms.specs.Members.{member_name};
ghost use Rattle.history.specs.Lines.{named_at, member_of_node};
ghost use Rattle.read_fits.specs.Openings.{node_of, first_path};

use cells::Name;
use chunk_forms::Member;
use read_fits::joined;
use spec_open::Tree;
use std::alloc::{AllocError, Global};

// The path of the node whose leaf has a number, if there is one.
#[cycle(finding)]
fn node_at(tree: &Tree, number: usize) -> Option<&Name>
    ensures { option_copied result ≡ node_of number tree.now }
{
    match tree {
        Tree::Leaf { leaf, at, .. } => {
            if *leaf as usize == number {
                Some(at)
            } else {
                None
            }
        }
        Tree::Cast { base, .. } => node_at(base.get(), number),
        Tree::Stack { layers, .. } => first_node(layers.items(), number),
    }
}

#[cycle(finding)]
fn first_node(layers: &[Tree], number: usize) -> Option<&Name>
    ensures { option_copied result ≡ first_path (map (node_of number) layers.now) }
{
    for layer in layers {
        let node = node_at(layer, number);
        if node.is_some() {
            return node;
        }
    }
    None
}

/// The path of a member of the node whose leaf has a number.
pub(crate) fn member_path(
    alloc: Global,
    tree: &Tree,
    number: usize,
    member: Member,
) -> Result<Name, AllocError>
    ensures { IfOk result (λ path. path ≡ member_of_node (unwrap_or (node_of number tree.now) [])
        (member_name member)) }
{
    match node_at(tree, number) {
        Some(node) => below(alloc, node.items(), member),
        None => below(alloc, "", member),
    }
}

fn below(alloc: Global, node: &str, member: Member) -> Result<Name, AllocError>
    ensures { IfOk result (λ path. path ≡ member_of_node node.now (member_name member)) }
{
    joined(alloc, node, place(member))
}

// Where a Spec names the member.
fn place(member: Member) -> &'static str
    ensures { result.now ≡ named_at (member_name member) }
{
    match member {
        Member::Shape => "metadata/shape",
        Member::Dimensions => "metadata/dimensions",
        Member::Dtype => "dtype",
        Member::Chunks => "metadata/chunks",
        Member::BlockSize => "metadata/blockSize",
        Member::ChunkGrid => "metadata/chunk_grid",
    }
}
