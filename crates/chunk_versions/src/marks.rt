// A moment at which a chunk shows the cells of a read.
ghost use Rattle.std.specs.Prelude.{◌≡◌, ◌<◌, ◌≤◌, ◌+◌, ◌-◌, ℕ, max, length, get_or, All, IfOk, IfSome, IfNone};
ghost use Rattle.chunk_versions.specs.Moments.{IsRising, newest, up_to};
ghost use Rattle.chunk_versions.specs.Marks.{HasCasts, no_cell, AreShownBehind, IsMark, HasNoMark};
ghost use Rattle.chunk_versions.specs.Reach.{IsGood, AreJudged};

use crate::asked::AskedCell;
use crate::reach::first_good;
use crate::touches::up_to;
use crate::versions::ChunkVersions;
use crate::walks::{link_of, rule_out};
use cast_driver::Chain;
use std::alloc::{AllocError, Global};

impl ChunkVersions {
    /// A moment from `from` on at which the chunk shows all the cells as they were asked for, each through its casts; `None` where there is
    /// none. The time is linear in the cells, the words that were put at the place of each from `from` on, and the events that touched the
    /// chunk then: who asks for one cell many times waits for it as often.
    ///
    /// # Errors
    /// `AllocError` where memory is wanting.
    pub fn find_mark(
        &self,
        alloc: Global,
        from: u64,
        casts: &[Chain],
        asked: &[AskedCell],
    ) -> Result<Option<u64>, AllocError>
        requires { All (HasCasts casts.now) asked.now }
        ensures some { IfOk result (λ found. IfSome found (IsMark self.now casts.now asked.now from)) }
        ensures none { IfOk result (λ found. IfNone found (HasNoMark self.now casts.now asked.now from)) }
    {
        let first = up_to(&self.touches, from).saturating_sub(1);
        let mut reach = vec![in alloc; 0; self.touches.len() - first]?;
        match self.first_shown(first, casts, asked, &mut reach) {
            Some(k) => Ok(Some(mark_of(&self.touches, first, from, k))),
            None => Ok(None),
        }
    }

    // The first candidate at which all the cells are shown as they were asked for: candidate `k` is the state behind the touch `first + k`.
    fn first_shown(
        &self,
        first: usize,
        casts: &[Chain],
        asked: &[AskedCell],
        reach: &mut [usize],
    ) -> Option<usize>
        requires casts { All (HasCasts casts.now) asked.now }
        requires count { first + length reach.old ≡ length self.now.touches }
        requires zeros { (k : ℕ) → IsGood reach.old k }
        ensures some { IfSome result (λ k. (first + k < length self.now.touches)
            × AreShownBehind self.now casts.now (first + k + 1) asked.now) }
        ensures none { IfNone result ((k : ℕ) → first + k < length self.now.touches
            → ¬ AreShownBehind self.now casts.now (first + k + 1) asked.now) }
    {
        self.judge_all(first, casts, asked, reach);
        first_good(reach)
    }

    // Rules out the candidates at which one of the cells isn't shown as it was asked for.
    fn judge_all(&self, first: usize, casts: &[Chain], asked: &[AskedCell], reach: &mut [usize])
        requires casts { All (HasCasts casts.now) asked.now }
        requires count { first + length reach.old ≡ length self.now.touches }
        ensures { AreJudged reach.old reach.new (λ k. AreShownBehind self.now casts.now (first + k + 1) asked.now) }
    {
        for i in 0..asked.len() {
            let cell = cell_at(casts, asked, i);
            let chain = &casts[cell.leaf as usize];
            let link = link_of(&self.last, cell.place as usize);
            rule_out(&self.puts, self.fill, first, link, chain, cell.word, reach);
        }
    }
}

// A cell of those asked for.
fn cell_at(casts: &[Chain], asked: &[AskedCell], at: usize) -> AskedCell
    requires casts { All (HasCasts casts.now) asked.now }
    requires within { at < length asked.now }
    ensures value { result ≡ get_or asked.now at no_cell }
    ensures casts { HasCasts casts.now result }
{
    asked[at]
}

// The moment of a candidate: the state behind the touch `first + k`, seen from `from` on.
fn mark_of(touches: &[u64], first: usize, from: u64, k: usize) -> u64
    requires rising { IsRising touches.now }
    requires first { first ≡ up_to from touches.now - 1 }
    requires within { first + k < length touches.now }
    ensures count { up_to result touches.now ≡ first + k + 1 }
    ensures from { from ≤ result }
    ensures upto { result ≤ max from (newest touches.now) }
{
    from.max(touches[first + k])
}
