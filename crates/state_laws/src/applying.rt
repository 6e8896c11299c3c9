// Changes of a store.
ghost use Rattle.std.specs.Prelude.{◌≡◌, ◌<◌, length, Some, Err, OnOk, OnErr, IsOk, All};
ghost use Rattle.std.specs.Str.{IsCharBoundary};
ghost use Rattle.kv_face.specs.declared.change.Change.{Change as ChangeOf};
ghost use Rattle.kv_face.specs.Store.{Contents, OneMore, after, keys_of, are_together};
ghost use Rattle.history.specs.Commit.{are_together as are_keys_together};
ghost use Rattle.state_laws.specs.Seen.{IsFrame, IsQuiet};
ghost use Rattle.state_laws.specs.Changing.{AreMade};

use kv_face::{Change, KvError, KvStore};

/// Makes changes together, where there are any; else the store isn't called.
pub fn apply<K: KvStore>(store: &mut K, changes: &[Change]) -> Result<(), KvError>
    requires { AreMade (K.seen store.old) changes.now }
    ensures done { OnOk result ((m : Contents) → (K.seen store.old).contents ≡ Some m
        → (K.seen store.new).contents ≡ Some (after m changes.now)) }
    ensures one_more { OnOk result (0 < length changes.now
        → OneMore ((K.seen store.old).changes) ((K.seen store.new).changes)) }
    ensures none { length changes.now ≡ 0 → (K.seen store.new).changes ≡ (K.seen store.old).changes }
    ensures uncalled { length changes.now ≡ 0 → IsOk result × (store.new ≡ store.old) }
    ensures quiet { OnErr result (IsQuiet (K.seen store.old) (K.seen store.new)) }
    ensures frame { IsFrame (K.seen store.old) (K.seen store.new) }
    ensures failed { result ≡ Err KvError.Failed → (K.seen store.old).faults < (K.seen store.new).faults }
    ensures told { (K.seen store.old).faults < (K.seen store.new).faults → result ≡ Err KvError.Failed }
{
    if changes.is_empty() {
        return Ok(());
    }
    store.apply(changes)
}

/// The same of changes that the store may keep.
pub fn apply_owned<K: KvStore>(store: &mut K, changes: Vec<Change>) -> Result<(), KvError>
    requires { AreMade (K.seen store.old) changes.items }
    ensures done { OnOk result ((m : Contents) → (K.seen store.old).contents ≡ Some m
        → (K.seen store.new).contents ≡ Some (after m changes.items)) }
    ensures one_more { OnOk result (0 < length changes.items
        → OneMore ((K.seen store.old).changes) ((K.seen store.new).changes)) }
    ensures none { length changes.items ≡ 0 → (K.seen store.new).changes ≡ (K.seen store.old).changes }
    ensures uncalled { length changes.items ≡ 0 → IsOk result × (store.new ≡ store.old) }
    ensures quiet { OnErr result (IsQuiet (K.seen store.old) (K.seen store.new)) }
    ensures frame { IsFrame (K.seen store.old) (K.seen store.new) }
    ensures failed { result ≡ Err KvError.Failed → (K.seen store.old).faults < (K.seen store.new).faults }
    ensures told { (K.seen store.old).faults < (K.seen store.new).faults → result ≡ Err KvError.Failed }
{
    if changes.is_empty() {
        return Ok(());
    }
    store.apply_owned(changes)
}

// Looks at each key as a text, by which the contract knows that a character begins at its first byte.
fn are_texts(changes: &[Change])
    ensures { All (λ (c : ChangeOf). IsCharBoundary c.key 0) changes.now }
{
    for change in changes {
        let _ = change.key.items();
    }
}

/// Whether a store makes these changes in one call.
pub fn together<K: KvStore>(store: &K, changes: &[Change]) -> bool
    ensures changes { result ≡ are_together ((K.seen store.now).prefixes) changes.now 0 }
    ensures keys { result ≡ are_keys_together ((K.seen store.now).prefixes) (keys_of changes.now) }
{
    are_texts(changes);
    store.together(changes, 0)
}
