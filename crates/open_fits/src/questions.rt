// What is asked of the arrays at one moment, so that the answer to an open line fits.
ghost use Rattle.std.specs.Prelude.{◌≡◌, IfOk, map};
ghost use Rattle.read_fits.specs.Asked.{wanted_leaf};
ghost use Rattle.read_fits.specs.Lines.{bare};

use cells::{List, Name};
use read_fits::{OpenPlan, SpecLeaf, Tree, Wanted, wanted_by};
use std::alloc::{AllocError, Global};

/// An open line as it is told.
#[derive(Debug, Drop)]
pub struct OpenTold {
    /// The line's number.
    pub line: u64,
    /// The name that the line binds.
    pub name: Name,
    /// Behind how many events the line may have looked at the store: from so many up to so many, both included.
    pub from: u64,
    pub upto: u64,
    /// The numbers of new arrays that the answer prints.
    pub numbers: List<u64>,
    /// That of a failed store call, if the answer prints one.
    pub failed: Option<u64>,
    /// The answer's text, with its LF.
    pub text: List<u8>,
}

/// What a Spec asks to be opened: its leaves from left to right, and the tree over them.
#[derive(Debug, Drop)]
pub struct WantedPlan {
    pub leaves: List<Wanted>,
    pub tree: Tree,
}

/// Whether a leaf of an open line is refused as the answer tells it, or a store call for it may have failed.
#[derive(Debug, Drop)]
pub struct OpenQuestion {
    pub plan: WantedPlan,
    /// The places of the leaves that are asked: from this one to before `end`.
    pub first: usize,
    pub end: usize,
    /// Behind how many events.
    pub moment: u64,
    /// Whether the answer tells of a store call that failed.
    pub is_failed: bool,
    /// The line and its answer.
    pub told: OpenTold,
}

/// What a plan asks for.
pub(crate) fn plan_wanted(alloc: Global, plan: OpenPlan) -> Result<WantedPlan, AllocError>
    ensures leaves { IfOk result (λ w. map wanted_leaf w.leaves ≡ bare plan.leaves) }
    ensures tree { IfOk result (λ w. w.tree ≡ plan.tree) }
{
    let OpenPlan { leaves, tree } = plan;
    let wanted = leaves_wanted(alloc, leaves.into_inner())?;
    Ok(WantedPlan {
        leaves: List::wrap(wanted),
        tree,
    })
}

fn leaves_wanted(alloc: Global, leaves: Vec<SpecLeaf>) -> Result<Vec<Wanted>, AllocError>
    ensures { IfOk result (λ w. map wanted_leaf w.items ≡ bare leaves.items) }
{
    let mut wanted = Vec::with_capacity(alloc, leaves.len())?;
    for leaf in leaves {
        wanted.push(wanted_by(leaf))?;
    }
    Ok(wanted)
}
