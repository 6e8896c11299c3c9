use crate::gate::Gate;
use kv_face::KvStore;
use shared_state::State;
use std::alloc::Global;
use std::sync::Wait;
use turn_book::TurnBook;

/// What stands around a session: where its memory comes from, the runtime, the book of turns, and the gate.
#[derive(Drop)]
pub struct Around<'a, K: KvStore, R: Wait, G: Gate> {
    pub alloc: Global,
    pub rt: &'a R,
    pub book: &'a TurnBook<State<K>>,
    pub gate: &'a G,
}
