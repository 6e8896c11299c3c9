// Writes and marks in the order of their keys.
ghost use Rattle.std.specs.Cmp.Lexicographic.{slice_cmp};
ghost use Rattle.std.specs.List.Sorted.{IsPermutation, IsSortedByKey};
ghost use Rattle.std.specs.Ordering.{nat_cmp};
ghost use Rattle.chunk_plans.specs.Sorting.{key_of_mark, key_of_write};

use crate::mark::Mark;
use crate::write::ChunkWrite;

/// Puts writes into the byte order of their keys. It takes no memory.
pub fn sort_writes(writes: &mut [ChunkWrite<'_>])
    ensures permutation { IsPermutation writes.old writes.new }
    ensures sorted { IsSortedByKey key_of_write (slice_cmp nat_cmp) writes.new }
{
    writes.sort_unstable_by(|one, other| one.key.cmp(&other.key));
}

/// Puts marks into the byte order of their keys. It takes no memory.
pub fn sort_marks(marks: &mut [Mark])
    ensures permutation { IsPermutation marks.old marks.new }
    ensures sorted { IsSortedByKey key_of_mark (slice_cmp nat_cmp) marks.new }
{
    marks.sort_unstable_by(|one, other| one.key.cmp(&other.key));
}
