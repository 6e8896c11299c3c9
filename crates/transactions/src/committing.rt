// A transaction's commit.
ghost use Rattle.std.specs.Prelude.{◌≡◌, ◌∷◌, [], ℕ, Ok, Err, Some, IfErr, option_map};
ghost use Rattle.turn_book.specs.Passes.{IsIdle};
ghost use Rattle.transactions.specs.Committing.{HasCommitted, answer_of, left_after, stands_after};
ghost use Rattle.transactions.specs.Conditions.{IsTxnIn};
ghost use Rattle.transactions.specs.Recording.{IsRecorded};
ghost use Rattle.transactions.specs.Txn.{transaction_of};

use crate::error::CommitError;
use crate::preparing::commit_kept;
use crate::shared_ops::joined;
use crate::txn::Txn;
use cells::List;
use chunk_fetches::{Around, Gate, State};
use commits::CommitRefused;
use kv_face::KvStore;
use std::sync::Wait;
use turn_book::Pass;

impl Txn {
    /// Commits the transaction, and gives the numbers of its events: one where the store makes all changes together, else one for each
    /// key. Chunks that are covered or kept are encoded before its turn, behind the gate; no turn is held at return.
    ///
    /// # Errors
    /// As `commit_now` says. The transaction is handed back unchanged after `Damaged`, and after `StoreFailed` where none of its events
    /// was done; else it is over.
    pub fn commit<K: KvStore, R: Wait, G: Gate>(
        self,
        around: &Around<K, R, G>,
        pass: &mut Pass<State<K>>,
    ) -> Result<List<u64>, CommitError>
        requires pass { IsIdle around.now.book.now pass.old }
        requires txn { IsTxnIn around.now.book.now.fixed pass.old.seen self }
        requires recorded { IsRecorded around.now.book.now.fixed pass.old.seen (transaction_of self) }
        ensures committed { HasCommitted around.now.book.now pass.old pass.new (transaction_of self)
            (answer_of result) }
        ensures left { IfErr result (λ e. e.left ≡ left_after self e.why) }
    {
        let Txn {
            line,
            mode,
            shared,
            ops,
            staging,
            kept,
            places,
        } = self;
        let shared = joined(around.alloc, shared, ops)?;
        match commit_kept(around, pass, line, mode, &shared, &staging, &kept) {
            Ok(numbers) => Ok(numbers),
            Err(why) => Err(refused(
                why,
                Txn {
                    line,
                    mode,
                    shared: Some(shared),
                    ops: Vec::new(around.alloc),
                    staging,
                    kept,
                    places,
                },
            )),
        }
    }
}

// What is left after a refusal.
fn refused(why: CommitRefused, t: Txn) -> CommitError
    ensures why { result.why ≡ why }
    ensures left { result.left ≡ left_after t why }
{
    if stands(&why) {
        return CommitError { why, left: Some(t) };
    }
    CommitError { why, left: None }
}

// Whether the transaction stands after a refusal: nothing of it was done, and it may be committed yet.
fn stands(why: &CommitRefused) -> bool
    ensures { result ≡ stands_after why.now }
{
    match why {
        CommitRefused::Damaged { .. } => true,
        CommitRefused::StoreFailed { done, .. } => done.items().is_empty(),
        CommitRefused::Conflict { .. } => false,
        CommitRefused::Shrunk { .. } => false,
        CommitRefused::NotAtomic { .. } => false,
        CommitRefused::Memory => false,
    }
}
