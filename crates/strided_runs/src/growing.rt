ghost use Rattle.std.specs.Prelude.{◌≡◌, ◌≤◌, ◌<◌, ◌+◌, ◌-◌, ◌*◌, ◌^◌, ◌∷◌, ◌++◌, [], ℕ, ℤ, pos, ◌+ℤ◌, ◌*ℤ◌, unsigned_abs, IfOk, IfErr, OnOk, OnErr};
ghost use Rattle.std.specs.List.{fold};
ghost use Rattle.strided_runs.specs.Runs.{run_of_one, goes_on, longer};
ghost use Rattle.strided_runs.specs.Growing.{first_run, before_first, grown, runs_of_growing};
ghost use Rattle.strided_runs.specs.Loops.{IsPlace, ArePlaces, pairs_on};

use cells::{List, Run};
use std::alloc::{AllocError, Global};
use std::marker::Model;

/// Runs to which further pairs of a view's places and a chunk's are put.
#[derive(Debug, Drop)]
pub struct Growing {
    done: Vec<Run>,
    run: Run,
}

impl Model for Growing {
    ghost use Rattle.strided_runs.specs.Growing.{Grown};

    ghost Value = { Grown };

    ghost view = { λ growing. record { done = growing.done.items; run = growing.run } };
}

impl Growing {
    /// The run of one pair.
    pub fn new(alloc: Global, view: u32, chunk: u32) -> Growing
        ensures { result ≡ first_run (record { view = view; chunk = chunk }) }
    {
        Growing {
            done: Vec::new(alloc),
            run: run_of_one(view, chunk),
        }
    }

    /// No pair yet; the first one is to be this.
    pub fn before(alloc: Global, view: u32, chunk: u32) -> Growing
        ensures { result ≡ before_first (record { view = view; chunk = chunk }) }
    {
        let one = run_of_one(view, chunk);
        Growing {
            done: Vec::new(alloc),
            run: Run { len: 0, ..one },
        }
    }

    /// Puts a pair behind the others. After an error it isn't there.
    pub fn push(&mut self, view: u32, chunk: u32) -> Result<(), AllocError>
        requires before { self.old.run.view + self.old.run.len ≤ view }
        requires small { view < 4194304 }
        ensures ok { OnOk result (self.new ≡ grown self.old (record { view = view; chunk = chunk })) }
        ensures err { OnErr result (self.new ≡ self.old) }
    {
        if goes_on(&self.run, view, chunk) {
            self.run = longer(&self.run, view, chunk);
            return Ok(());
        }
        self.done.push(self.run)?;
        self.run = run_of_one(view, chunk);
        Ok(())
    }

    /// Puts the pairs of a line behind the others: both places go by steps, and the view's rises.
    pub fn push_line(
        &mut self,
        view: u32,
        view_step: u64,
        chunk: u32,
        step: i64,
        len: u32,
    ) -> Result<(), AllocError>
        requires before { self.old.run.view + self.old.run.len ≤ view }
        requires rise { 0 < view_step }
        requires few { len ≤ 4194304 }
        requires small { (k : ℕ) → k < len → view + view_step * k < 4194304 }
        requires places { ArePlaces chunk step len }
        ensures { OnOk result (self.new ≡ fold grown self.old (pairs_on view view_step chunk step 0 len)) }
    {
        // Three pairs tell the steps; the others follow by them.
        let some = len.min(3);
        for k in 0..some {
            let next = view_along(view, view_step, k);
            self.push(next, place_along(chunk, step, k))?;
        }
        self.run.len += len - some;
        Ok(())
    }

    /// The runs.
    pub fn into_runs(self) -> Result<List<Run>, AllocError>
        ensures { IfOk result (λ runs. runs ≡ runs_of_growing self) }
    {
        let Growing { mut done, run } = self;
        done.push(run)?;
        Ok(List::wrap(done))
    }
}

// The view's place of a pair of a line.
pub(crate) fn view_along(view: u32, step: u64, k: u32) -> u32
    requires { view + step * k < 4194304 }
    ensures { result ≡ view + step * k }
{
    (u64::from(view) + step * u64::from(k)) as u32
}

// The chunk's place of a pair of a line.
pub(crate) fn place_along(chunk: u32, step: i64, k: u32) -> u32
    requires { IsPlace (pos chunk +ℤ step *ℤ pos k) }
    ensures { result ≡ unsigned_abs (pos chunk +ℤ step *ℤ pos k) }
{
    scaled(chunk, step, k) as u32
}

fn scaled(chunk: u32, step: i64, k: u32) -> i128
    ensures { result ≡ pos chunk +ℤ step *ℤ pos k }
{
    i128::from(chunk) + i128::from(step) * i128::from(k)
}

fn run_of_one(view: u32, chunk: u32) -> Run
    ensures { result ≡ run_of_one (record { view = view; chunk = chunk }) }
{
    Run {
        view,
        view_step: 0,
        chunk,
        chunk_step: 0,
        len: 1,
    }
}

// Whether the pair is the next one by the run's steps, which a second pair sets.
fn goes_on(run: &Run, view: u32, chunk: u32) -> bool
    ensures { result ≡ goes_on run.now (record { view = view; chunk = chunk }) }
{
    let next_view = u64::from(run.view) + u64::from(run.view_step) * u64::from(run.len);
    let next_chunk = i128::from(run.chunk) + i128::from(run.chunk_step) * i128::from(run.len);
    run.len == 1 || (u64::from(view) == next_view && i128::from(chunk) == next_chunk)
}

// The run with a pair more.
fn longer(run: &Run, view: u32, chunk: u32) -> Run
    requires before { run.now.view + run.now.len ≤ view }
    requires small { view < 4194304 }
    ensures { result ≡ longer run.now (record { view = view; chunk = chunk }) }
{
    if run.len == 1 {
        Run {
            view: run.view,
            view_step: view - run.view,
            chunk: run.chunk,
            chunk_step: i64::from(chunk) - i64::from(run.chunk),
            len: 2,
        }
    } else {
        Run {
            len: run.len + 1,
            ..*run
        }
    }
}
