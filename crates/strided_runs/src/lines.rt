// Runs of the pairs of nested loops, line by line.
ghost use Rattle.std.specs.Prelude.{◌≡◌, ◌≤◌, ◌<◌, ◌+◌, ◌*◌, ◌^◌, ◌∷◌, pos, IfOk, OnOk};
ghost use Rattle.std.specs.List.{fold};
ghost use Rattle.strided_runs.specs.Loops.{looped};
ghost use Rattle.strided_runs.specs.Growing.{grown};
ghost use Rattle.strided_runs.specs.Loops.{AllRun, ViewsRise, StayPlaces, view_reach, fits, run_as_one, as_one, joined, all_joined};
ghost use Rattle.strided_runs.specs.Runs.{runs_of_pairs};

use crate::growing::{Growing, place_along, view_along};
use cells::{List, Run};
use std::alloc::{AllocError, Global};

/// A loop over places: how often it runs, and how far each time in the view and in the chunk.
#[derive(Clone, Copy, Debug, PartialEq, Eq)]
pub struct Loop {
    pub times: u64,
    pub view_step: u64,
    pub chunk_step: i64,
}

/// The runs of the pairs of nested loops, from a first pair on.
pub fn runs_of_loops(
    alloc: Global,
    loops: &[Loop],
    view: u32,
    chunk: u32,
) -> Result<List<Run>, AllocError>
    requires some { AllRun loops.now }
    requires rise { ViewsRise loops.now }
    requires small { view + view_reach loops.now < 4194304 }
    requires places { StayPlaces loops.now (pos chunk) }
    ensures { IfOk result (λ runs. runs ≡ runs_of_pairs (looped loops.now view (pos chunk))) }
{
    let kept = join(alloc, loops)?;
    let mut growing = Growing::before(alloc, view, chunk);
    put_loops(&mut growing, &kept, view, chunk)?;
    growing.into_runs()
}

// The same loops, fewer where neighbours can run as one.
fn join(alloc: Global, loops: &[Loop]) -> Result<Vec<Loop>, AllocError>
    requires some { AllRun loops.now }
    requires rise { ViewsRise loops.now }
    requires small { view_reach loops.now < 4194304 }
    ensures { IfOk result (λ kept. kept.items ≡ all_joined loops.now) }
{
    let [outer, loops_behind @ ..] = loops else {
        return Ok(Vec::new(alloc));
    };
    join_from(alloc, *outer, loops_behind)
}

fn join_from(alloc: Global, first: Loop, loops: &[Loop]) -> Result<Vec<Loop>, AllocError>
    requires some { AllRun (first ∷ loops.now) }
    requires rise { ViewsRise (first ∷ loops.now) }
    requires small { view_reach (first ∷ loops.now) < 4194304 }
    ensures { IfOk result (λ kept. kept.items ≡ joined first loops.now) }
{
    let mut kept = Vec::new(alloc);
    let mut outer = first;
    for inner in loops {
        if run_as_one(&outer, inner) {
            outer = as_one(&outer, inner);
        } else {
            kept.push(outer)?;
            outer = *inner;
        }
    }
    kept.push(outer)?;
    Ok(kept)
}

// Whether an outer and an inner loop can run as one.
fn run_as_one(outer: &Loop, inner: &Loop) -> bool
    requires { inner.now.times ≤ 4194304 }
    ensures { result ≡ run_as_one outer.now inner.now }
{
    inner.times == 1 || outer.times == 1 || fits(outer, inner)
}

// Whether the outer loop goes on where the inner one ends.
fn fits(outer: &Loop, inner: &Loop) -> bool
    requires { inner.now.times ≤ 4194304 }
    ensures { result ≡ fits outer.now inner.now }
{
    let times = inner.times as u32;
    let view = u128::from(times) * u128::from(inner.view_step);
    let chunk = i128::from(times) * i128::from(inner.chunk_step);
    u128::from(outer.view_step) == view && i128::from(outer.chunk_step) == chunk
}

fn as_one(outer: &Loop, inner: &Loop) -> Loop
    requires { outer.now.times * inner.now.times < 2 ^ 64 }
    ensures { result ≡ as_one outer.now inner.now }
{
    if inner.times == 1 {
        *outer
    } else {
        Loop {
            times: outer.times * inner.times,
            ..*inner
        }
    }
}

// Puts the pairs of nested loops behind the others, a whole innermost loop at once.
fn put_loops(growing: &mut Growing, loops: &[Loop], view: u32, chunk: u32) -> Result<(), AllocError>
    requires before { growing.old.run.view + growing.old.run.len ≤ view }
    requires some { AllRun loops.now }
    requires rise { ViewsRise loops.now }
    requires small { view + view_reach loops.now < 4194304 }
    requires places { StayPlaces loops.now (pos chunk) }
    ensures { OnOk result (growing.new ≡ fold grown growing.old (looped loops.now view (pos chunk))) }
{
    let [outer, loops_behind @ ..] = loops else {
        return growing.push(view, chunk);
    };
    let times = outer.times as u32;
    if loops_behind.is_empty() {
        return growing.push_line(view, outer.view_step, chunk, outer.chunk_step, times);
    }
    for k in 0..times {
        let next = view_along(view, outer.view_step, k);
        put_loops(
            growing,
            loops_behind,
            next,
            place_along(chunk, outer.chunk_step, k),
        )?;
    }
    Ok(())
}
