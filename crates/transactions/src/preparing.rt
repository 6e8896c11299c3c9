// What a transaction prepares for its commit.
ghost use Rattle.std.specs.Prelude.{◌≡◌, ◌≤◌, ℕ, IfOk, OnOk, map, length};
ghost use Rattle.std.specs.Cmp.Lexicographic.{slice_cmp};
ghost use Rattle.std.specs.List.{AllByRecursion, IsDistinct};
ghost use Rattle.std.specs.List.Sorted.{IsPermutation, IsSortedByKey};
ghost use Rattle.std.specs.Ordering.{nat_cmp};
ghost use Rattle.std.specs.Str.{bytes_eq};
ghost use Rattle.commits.specs.Sorting.{key_of_mark, key_of_write};
ghost use Rattle.chunk_fetches.specs.Staging.{StagedChunk};
ghost use Rattle.turn_book.specs.Passes.{IsIdle};
ghost use Rattle.transactions.specs.Committing.{HasCommitted};
ghost use Rattle.transactions.specs.Conditions.{IsTxnIn};
ghost use Rattle.transactions.specs.Marking.{mark_of_kept};
ghost use Rattle.transactions.specs.Preparing.{AreWritesFor, MayWriteOf, seen_chunk, seen_part, txn_of};
ghost use Rattle.transactions.specs.Recording.{IsRecorded};
ghost use Rattle.transactions.specs.Txn.{transaction_of};

use crate::commit_turns::{ask_in_turn, commit_in_turn};
use cells::{List, copy_name};
use chunk_fetches::{Around, Gate, Kept, Staging, State, array_in, index_in};
use commits::{
    Asked, ChunkWrite, CommitRefused, Mark, Part, Prepared, sort_marks, sort_writes, write_of,
};
use history::{Mode, Ops};
use kv_face::KvStore;
use std::alloc::{AllocError, Global};
use std::sync::Wait;
use turn_book::Pass;

/// Commits a transaction's parts: asks in a turn, encodes outside of one, and commits in another.
pub(crate) fn commit_kept<K: KvStore, R: Wait, G: Gate>(
    around: &Around<K, R, G>,
    pass: &mut Pass<State<K>>,
    line: u64,
    mode: Mode,
    ops: &Ops,
    staging: &Staging,
    kept: &[Kept],
) -> Result<List<u64>, CommitRefused>
    requires pass { IsIdle around.now.book.now pass.old }
    requires txn { IsTxnIn around.now.book.now.fixed pass.old.seen (txn_of line mode ops.now staging.now kept.now) }
    requires recorded { IsRecorded around.now.book.now.fixed pass.old.seen
        (transaction_of (txn_of line mode ops.now staging.now kept.now)) }
    ensures { HasCommitted around.now.book.now pass.old pass.new
        (transaction_of (txn_of line mode ops.now staging.now kept.now)) result }
{
    let parts = parts_of(around.alloc, staging)?;
    let asked = ask_in_turn(around.alloc, around.rt, around.book, pass, parts)?;
    let writes = in_order(write_all(around.alloc, around.rt, around.gate, pass.number(), asked)?);
    let marks = marks_in_order(around.alloc, kept)?;
    let ops = ops.share()?;
    let prepared = Prepared {
        line,
        mode,
        ops,
        writes,
        footprint: &marks,
    };
    commit_in_turn(around.alloc, around.rt, around.book, pass, prepared)
}

// What is staged, chunk by chunk.
fn parts_of<'a>(alloc: Global, staging: &'a Staging) -> Result<Vec<Part<'a>>, AllocError>
    ensures parts { IfOk result (λ parts. map seen_part parts.items ≡ map seen_chunk staging.now) }
    ensures apart { IsDistinct bytes_eq (map (λ (c : StagedChunk). c.id) staging.now) }
{
    let mut parts = Vec::new(alloc);
    for (id, staged) in staging.chunks() {
        parts.push(Part {
            array: array_in(id),
            chunk: index_in(id),
            staged,
        })?;
    }
    Ok(parts)
}

// The writes of a commit, with bytes that are encoded behind the gate.
fn write_all<'a, R: Wait, G: Gate>(
    alloc: Global,
    rt: &R,
    gate: &G,
    session: u32,
    asked: Vec<Asked<'a>>,
) -> Result<Vec<ChunkWrite<'a>>, AllocError>
    requires { AllByRecursion MayWriteOf asked.items }
    ensures { IfOk result (λ writes. AreWritesFor asked.entry.items writes.items) }
{
    let mut writes = Vec::new(alloc);
    for a in asked {
        if a.is_told() {
            gate.coding(rt, session);
        }
        writes.push(write_of(alloc, a)?)?;
    }
    Ok(writes)
}

// Writes in the byte order of their keys.
fn in_order(mut writes: Vec<ChunkWrite<'_>>) -> Vec<ChunkWrite<'_>>
    ensures permutation { IsPermutation writes.entry.items result.items }
    ensures sorted { IsSortedByKey key_of_write (slice_cmp nat_cmp) result.items }
{
    sort_writes(&mut writes);
    writes
}

// The generations of the chunks that are kept, in the byte order of their keys.
fn marks_in_order(alloc: Global, kept: &[Kept]) -> Result<Vec<Mark>, AllocError>
    ensures permutation { IfOk result (λ marks. IsPermutation (map mark_of_kept kept.now) marks.items) }
    ensures sorted { IfOk result (λ marks. IsSortedByKey key_of_mark (slice_cmp nat_cmp) marks.items) }
{
    let mut marks = marks_of(alloc, kept)?;
    sort_marks(&mut marks);
    Ok(marks)
}

// The generations of the chunks that are kept.
fn marks_of(alloc: Global, kept: &[Kept]) -> Result<Vec<Mark>, AllocError>
    ensures { IfOk result (λ marks. marks.items ≡ map mark_of_kept kept.now) }
{
    let mut marks = Vec::new(alloc);
    for k in kept {
        marks.push(mark_of(alloc, k)?)?;
    }
    Ok(marks)
}

fn mark_of(alloc: Global, k: &Kept) -> Result<Mark, AllocError>
    ensures { IfOk result (λ m. m ≡ mark_of_kept k.now) }
{
    let key = copy_name(alloc, k.key.items())?;
    Ok(Mark {
        key,
        generation: k.snapshot.generation(),
    })
}
