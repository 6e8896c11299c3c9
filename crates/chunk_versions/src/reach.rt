// Ruling out candidates. Each entry tells up to which candidate, without it, those from its place on are ruled out.
ghost use Rattle.std.specs.Prelude.{◌≡◌, ℕ, ◌<◌, ◌≤◌, ◌↔◌, false, length, min, IfSome, IfNone};
ghost use Rattle.chunk_versions.specs.Reach.{IsGood, AreJudged};

/// Judges the candidates from `begin` up to, without it, `until`, and tells up to which they are left.
pub fn judge(reach: &mut [usize], begin: usize, until: usize, fits: bool) -> usize
    requires { begin < length reach.old }
    ensures left { result ≡ min begin until }
    ensures judged { AreJudged reach.old reach.new (λ k. fits ≡ false → begin ≤ k → until ≤ k) }
{
    if until <= begin {
        return until;
    }
    if fits {
        return begin;
    }
    rule(reach, begin, until);
    begin
}

// Rules the candidates out from `begin` up to, without it, `until`.
fn rule(reach: &mut [usize], begin: usize, until: usize)
    requires { begin < length reach.old }
    ensures { AreJudged reach.old reach.new (λ k. begin ≤ k → until ≤ k) }
{
    if reach[begin] < until {
        reach[begin] = until;
    }
}

/// The first candidate that isn't ruled out.
pub fn first_good(reach: &[usize]) -> Option<usize>
    ensures some { IfSome result (λ k. (k < length reach.now) × IsGood reach.now k) }
    ensures none { IfNone result ((k : ℕ) → k < length reach.now → ¬ IsGood reach.now k) }
{
    let mut far = 0usize;
    for k in 0..reach.len() {
        far = far.max(reach[k]);
        if far <= k {
            return Some(k);
        }
    }
    None
}
