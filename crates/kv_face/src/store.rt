ghost use Rattle.std.specs.Prelude.{◌≡◌, ◌<◌, ◌⊎◌, ℕ, List, length, Option, IfSome, IfOk, OnOk, OnErr, option_map, true, IsErrOf, IsErr, All};
ghost use Rattle.std.specs.FinMap as finmap;
ghost use Rattle.std.specs.List.{IsDistinct};
ghost use Rattle.std.specs.Str.{IsCharBoundary, bytes_eq};
ghost use Rattle.kv_face.specs.declared.change.Change.{Change};
ghost use Rattle.kv_face.specs.Store.{StoreSeen, opened, finished, failing, takes, Contents, after, keys_of, are_together, OneMore, HasCause, IsToldExactly, NoneFell};

use crate::change::Change;
use crate::error::{Failed, KvError};
use bytes::Bytes;

/// A map from keys, which are texts, to bytes.
pub trait KvStore: Drop {
    /// What the store tells of itself.
    ghost seen: { Self → StoreSeen };

    /// The bytes under a key, where there are some.
    ///
    /// # Errors
    /// `Failed` where the store failed: exactly then the count of faults rose. Nothing else changes in any case.
    fn get(&mut self, key: &str) -> Result<Option<Vec<u8>>, KvError>
        requires { takes ((seen self.old).names) key.now ≡ true }
        ensures value { IfOk result (λ v. IfSome ((seen self.old).contents)
            (λ m. option_map (λ b. b.items) v ≡ finmap.get m key.now)) }
        ensures contents { (seen self.new).contents ≡ (seen self.old).contents }
        ensures prefixes { (seen self.new).prefixes ≡ (seen self.old).prefixes }
        ensures names { (seen self.new).names ≡ (seen self.old).names }
        ensures standing { (seen self.new).standing ≡ (seen self.old).standing }
        ensures change_count { (seen self.new).changes ≡ (seen self.old).changes }
        ensures cause { IsToldExactly ((seen self.old).faults) ((seen self.new).faults)
            (IsErrOf result KvError.Failed) }
        ensures counts { NoneFell ((seen self.old).counts) ((seen self.new).counts) };

    /// The bytes under a key as `get` gives them, in a form that can be shared, so that a store which keeps them so need not copy them.
    ///
    /// # Errors
    /// Those of `get`.
    fn get_shared(&mut self, key: &str) -> Result<Option<Bytes>, KvError>
        requires { takes ((seen self.old).names) key.now ≡ true }
        ensures value { IfOk result (λ v. IfSome ((seen self.old).contents) (λ m. v ≡ finmap.get m key.now)) }
        ensures contents { (seen self.new).contents ≡ (seen self.old).contents }
        ensures prefixes { (seen self.new).prefixes ≡ (seen self.old).prefixes }
        ensures names { (seen self.new).names ≡ (seen self.old).names }
        ensures standing { (seen self.new).standing ≡ (seen self.old).standing }
        ensures change_count { (seen self.new).changes ≡ (seen self.old).changes }
        ensures cause { IsToldExactly ((seen self.old).faults) ((seen self.new).faults)
            (IsErrOf result KvError.Failed) }
        ensures counts { NoneFell ((seen self.old).counts) ((seen self.new).counts) }
    {
        match self.get(key) {
            Ok(bytes) => shared(bytes),
            Err(e) => Err(e),
        }
    }

    /// Whether the changes can be made by one `apply`: there is at most one, or their keys, each without its first `from`
    /// bytes, begin with one of the store's prefixes.
    fn together(&self, changes: &[Change], from: usize) -> bool
        requires { All (λ (c : Change). IsCharBoundary c.key from) changes.now }
        ensures { result ≡ are_together ((seen self.now).prefixes) changes.now from };

    /// Makes all changes, or none.
    ///
    /// # Errors
    /// `Failed` where the store failed: exactly then the count of faults rose. After any `Err` the map is as it was.
    fn apply(&mut self, changes: &[Change]) -> Result<(), KvError>
        requires keys { All (λ (c : Change). takes ((seen self.old).names) c.key ≡ true) changes.now }
        requires distinct { IsDistinct bytes_eq (keys_of changes.now) }
        requires together { are_together ((seen self.old).prefixes) changes.now 0 ≡ true }
        ensures done { OnOk result (IfSome ((seen self.old).contents)
            (λ m. (seen self.new).contents ≡ Some (after m changes.now))) }
        ensures err { OnErr result ((seen self.new).contents ≡ (seen self.old).contents) }
        ensures prefixes { (seen self.new).prefixes ≡ (seen self.old).prefixes }
        ensures names { (seen self.new).names ≡ (seen self.old).names }

        // A call that had something to change leaves the store open, unless memory was wanting.
        ensures opens { (result ≡ Err KvError.Memory → ⊥) → 0 < length changes.now → (seen self.new).standing ≡ opened }
        ensures standing_memory { result ≡ Err KvError.Memory → ((seen self.new).standing ≡ (seen self.old).standing)
            ⊎ ((seen self.new).standing ≡ opened) }
        ensures standing_none { length changes.now ≡ 0 → (seen self.new).standing ≡ (seen self.old).standing }

        // The number of changes rises by one where something was changed, or is no longer told.
        ensures one_more { OnOk result (0 < length changes.now
            → OneMore ((seen self.old).changes) ((seen self.new).changes)) }
        ensures count_none { length changes.now ≡ 0 → (seen self.new).changes ≡ (seen self.old).changes }
        ensures count_err { OnErr result ((seen self.new).changes ≡ (seen self.old).changes) }
        ensures cause { IsToldExactly ((seen self.old).faults) ((seen self.new).faults)
            (IsErrOf result KvError.Failed) }
        ensures counts { NoneFell ((seen self.old).counts) ((seen self.new).counts) };

    /// Makes all changes as `apply` does, and takes them, so that a store which keeps their bytes need not copy them.
    ///
    /// # Errors
    /// Those of `apply`.
    fn apply_owned(&mut self, changes: Vec<Change>) -> Result<(), KvError>
        requires keys { All (λ (c : Change). takes ((seen self.old).names) c.key ≡ true) changes.items }
        requires distinct { IsDistinct bytes_eq (keys_of changes.items) }
        requires together { are_together ((seen self.old).prefixes) changes.items 0 ≡ true }
        ensures done { OnOk result (IfSome ((seen self.old).contents)
            (λ m. (seen self.new).contents ≡ Some (after m changes.items))) }
        ensures err { OnErr result ((seen self.new).contents ≡ (seen self.old).contents) }
        ensures prefixes { (seen self.new).prefixes ≡ (seen self.old).prefixes }
        ensures names { (seen self.new).names ≡ (seen self.old).names }
        ensures opens { (result ≡ Err KvError.Memory → ⊥) → 0 < length changes.items
            → (seen self.new).standing ≡ opened }
        ensures standing_memory { result ≡ Err KvError.Memory → ((seen self.new).standing ≡ (seen self.old).standing)
            ⊎ ((seen self.new).standing ≡ opened) }
        ensures standing_none { length changes.items ≡ 0 → (seen self.new).standing ≡ (seen self.old).standing }
        ensures one_more { OnOk result (0 < length changes.items
            → OneMore ((seen self.old).changes) ((seen self.new).changes)) }
        ensures count_none { length changes.items ≡ 0 → (seen self.new).changes ≡ (seen self.old).changes }
        ensures count_err { OnErr result ((seen self.new).changes ≡ (seen self.old).changes) }
        ensures cause { IsToldExactly ((seen self.old).faults) ((seen self.new).faults)
            (IsErrOf result KvError.Failed) }
        ensures counts { NoneFell ((seen self.old).counts) ((seen self.new).counts) }
    {
        self.apply(changes.as_slice())
    }

    /// Ends the work on the store.
    ///
    /// # Errors
    /// `Failed` where the store failed; the count of faults rose.
    fn finish(&mut self) -> Result<(), Failed>
        ensures finished { OnOk result ((seen self.new).standing ≡ finished) }
        ensures failed { OnErr result ((seen self.new).standing ≡ failing) }
        ensures contents { (seen self.new).contents ≡ (seen self.old).contents }
        ensures prefixes { (seen self.new).prefixes ≡ (seen self.old).prefixes }
        ensures names { (seen self.new).names ≡ (seen self.old).names }
        ensures change_count { (seen self.new).changes ≡ (seen self.old).changes }
        ensures cause { HasCause ((seen self.old).faults) ((seen self.new).faults) (IsErr result) }
        ensures counts { NoneFell ((seen self.old).counts) ((seen self.new).counts) };
}

// Bytes that can be shared from now on.
fn shared(bytes: Option<Vec<u8>>) -> Result<Option<Bytes>, KvError>
    ensures value { IfOk result (λ v. v ≡ option_map (λ b. b.items) bytes) }
    ensures err { OnErr result (result ≡ Err KvError.Memory) }
{
    match bytes {
        Some(bytes) => match Bytes::from_vec(bytes) {
            Ok(bytes) => Ok(Some(bytes)),
            Err(_) => Err(KvError::Memory),
        },
        None => Ok(None),
    }
}
