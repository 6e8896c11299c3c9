// A session of a line: its pass, the arrays that it has opened, and the transaction that stands.
ghost use Rattle.std.specs.Prelude.{◌≡◌, [], None};

use history::Event;
use kv_face::KvStore;
use session_runs::{State, Txn};
use stack_driver::ArrayRef;
use std::alloc::Global;
use turn_book::Pass;

#[derive(Drop)]
pub(crate) struct Seat<K: KvStore> {
    pub(crate) pass: Pass<State<K>>,
    pub(crate) arrays: Vec<ArrayRef>,
    pub(crate) txn: Option<Txn>,
}

impl<K: KvStore> Seat<K> {
    // A session that has done nothing yet.
    pub(crate) fn new(alloc: Global, pass: Pass<State<K>>) -> Seat<K>
        ensures pass { result.pass ≡ pass }
        ensures arrays { result.arrays.items ≡ [] }
        ensures txn { result.txn ≡ None }
    {
        Seat {
            pass,
            arrays: Vec::new(alloc),
            txn: None,
        }
    }
}
