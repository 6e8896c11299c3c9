// Turns of a commit.
ghost use Rattle.std.specs.Prelude.{◌≡◌, ℕ, [], Some, IfOk, map};
ghost use Rattle.std.specs.FinMap as finmap;
ghost use Rattle.std.specs.List.{AllByRecursion};
ghost use mathlib.Core.List.{IsPrefix};
ghost use Rattle.commits.specs.Answers.{IsCommitted};
ghost use Rattle.commits.specs.Prepared.{AreWrites};
ghost use Rattle.history.specs.Commit.{Transaction};
ghost use Rattle.history.specs.History.{History};
ghost use Rattle.history.specs.Legal.{IsLegal};
ghost use Rattle.kv_face.specs.Store.{Contents};
ghost use Rattle.commits.specs.Asking.{IsAsked, IsPart, part_in};
ghost use Rattle.chunk_fetches.specs.Agreement.{Opening};
ghost use Rattle.chunk_fetches.specs.Outline.{outline};
ghost use Rattle.turn_book.specs.Passes.{IsIdle};
ghost use Rattle.transactions.specs.Committing.{IsCommitTurn, MayCommitLater};
ghost use Rattle.chunk_fetches.specs.Turns.{HasTurned};

use cells::List;
use chunk_fetches::State;
use commits::{Asked, CommitRefused, Part, Prepared, ask_all, commit_now};
use kv_face::KvStore;
use std::alloc::{AllocError, Global};
use std::sync::Wait;
use turn_book::{Pass, TurnBook};

/// Asks in one turn what there is to tell of the chunks for which words are staged.
pub(crate) fn ask_in_turn<'a, K: KvStore, R: Wait>(
    alloc: Global,
    rt: &R,
    book: &TurnBook<State<K>>,
    pass: &mut Pass<State<K>>,
    parts: Vec<Part<'a>>,
) -> Result<Vec<Asked<'a>>, AllocError>
    requires pass { IsIdle book.now pass.old }
    requires parts { (events : History) → IsPrefix pass.old.seen events → IsLegal finmap.empty (outline events)
        → AllByRecursion (IsPart events) parts.items }
    ensures asked { IfOk result (λ asked. AllByRecursion (IsAsked book.now.fixed pass.new.seen) asked.items) }
    ensures parts { IfOk result (λ asked. map part_in asked.items ≡ parts.entry.items) }
    ensures turned { HasTurned book.now pass.old pass.new [] }
{
    let mut held = book.take(rt, pass);
    let asked = ask_all(alloc, held.state(), parts);
    book.give(pass, held);
    asked
}

/// Commits in one turn.
pub(crate) fn commit_in_turn<K: KvStore, R: Wait>(
    alloc: Global,
    rt: &R,
    book: &TurnBook<State<K>>,
    pass: &mut Pass<State<K>>,
    p: Prepared<'_>,
) -> Result<List<u64>, CommitRefused>
    requires pass { IsIdle book.now pass.old }
    requires prepared { (t : Transaction) × MayCommitLater book.now.fixed pass.old.seen t p }
    ensures { (t : Transaction) → MayCommitLater book.now.fixed pass.old.seen t p.entry
        → IsCommitTurn book.now pass.old pass.new t result }
{
    let owner = pass.number();
    let mut held = book.take(rt, pass);
    let committed = commit_now(alloc, held.state(), owner, p);
    book.give(pass, held);
    committed
}
