// What a state began with.
use kv_face::KvStore;
use std::marker::Model;

/// What contracts keep of a state as it was put behind a turn: its store, by what a store tells, and the limit of its cache. No value
/// of this type is made.
pub struct AtStart<K: KvStore> {
    pub store: K,
    pub limit: u64,
}

impl<K: KvStore> Model for AtStart<K> {
    ghost use Rattle.std.specs.Coded.{codes};
    ghost use Rattle.kv_face.specs.Store.{contents_code};
    ghost use Rattle.state_laws.specs.Agreement.{Opening};

    ghost Value = { Opening };

    ghost coded = { Prim.hlevel (codes, contents_code) };

    ghost view = { λ a. record { store = K.seen a.store; limit = a.limit } };
}
