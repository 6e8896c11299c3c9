// Making a commit.
ghost use Rattle.std.specs.Prelude.{◌≡◌, ◌≤◌, ◌<◌, ◌+◌, ℕ, length, Some, Err, IfOk, OnOk, OnErr, IsOk, IsSome};
ghost use Rattle.std.specs.List.{AllByRecursion};
ghost use Rattle.kv_face.specs.Store.{Contents, OneMore, after};
ghost use Rattle.state_laws.specs.Arrays.{known_after};
ghost use Rattle.state_laws.specs.Numbers.{IsPrepared, KeepsPrepared};
ghost use Rattle.state_laws.specs.declared.deed.HeldCells.{HeldCells as HeldCellsOf};
ghost use Rattle.state_laws.specs.Seen.{IsFrame, IsQuiet};
ghost use Rattle.state_laws.specs.Agreement.{IsState};
ghost use Rattle.state_laws.specs.Changing.{AreMade, IsDeed, KeepsByDeed, committed};
ghost use Rattle.state_laws.specs.Fetches.{HasFailed};

use crate::state::State;
use cells::Name;
use kv_face::{Change, KvError, KvStore};
use state_laws::{ChangeError, Deed, apply_owned, enter_commit, prepare_all};
use std::alloc::AllocError;

impl<K: KvStore> State<K> {
    /// Makes room for so many events and prepares keys for their generations, so that commits of them need no memory.
    ///
    /// # Errors
    /// Want of memory alone.
    pub fn make_room(&mut self, count: usize, keys: &[Name]) -> Result<(), AllocError>
        ensures events { OnOk result (count ≤ self.new.spare.events) }
        ensures more { self.old.spare.events ≤ self.new.spare.events }
        ensures prepared { OnOk result (AllByRecursion (IsPrepared self.new.spare.prepared) keys.now) }
        ensures kept { KeepsPrepared self.old.spare.prepared self.new.spare.prepared }
        ensures same { self.new ≡ record self.old { spare = self.new.spare } }
    {
        self.records.reserve_events(count)?;
        prepare_all(self.alloc, &mut self.records, keys)
    }

    /// Makes a commit, or one key of it, by changes that the store makes together, and adds its event, whose number it gives. The
    /// store isn't called where nothing is to be changed.
    ///
    /// # Errors
    /// `StoreFailed` exactly where the store failed, which one event more tells; `Memory` where the store wanted memory. Nothing was
    /// changed then.
    pub fn commit(
        &mut self,
        owner: u32,
        deed: Deed,
        changes: Vec<Change>,
    ) -> Result<u64, ChangeError>
        requires agrees { IsState (K.seen self.old.store) self.old.log }
        requires deed { IsDeed self.old.log owner deed }
        requires made { AreMade (K.seen self.old.store) changes.items }
        requires known { AllByRecursion (λ (c : HeldCellsOf).
            IsSome (known_after self.old.log.events c.array)) deed.cells.items }
        requires room { 0 < self.old.spare.events }
        requires prepared { AllByRecursion (IsPrepared self.old.spare.prepared) deed.keys.items }
        ensures number { IfOk result (λ n. n ≡ length self.old.log.events + 1) }
        ensures after { OnOk result (self.new.log ≡ committed self.old.log owner deed) }
        ensures done { OnOk result ((m : Contents) → (K.seen self.old.store).contents ≡ Some m
            → (K.seen self.new.store).contents ≡ Some (after m changes.items)) }
        ensures failed { (event : ℕ) → result ≡ Err (ChangeError.StoreFailed event)
            → HasFailed owner deed.mount (K.seen self.old.store)
            (K.seen self.new.store) self.old.log self.new.log event }
        ensures told { (K.seen self.old.store).faults < (K.seen self.new.store).faults
            → (event : ℕ) × (result ≡ Err (ChangeError.StoreFailed event)) }
        ensures memory { result ≡ Err ChangeError.Memory → self.new.log ≡ self.old.log }
        ensures quiet { OnErr result (IsQuiet (K.seen self.old.store) (K.seen self.new.store)) }
        ensures frame { IsFrame (K.seen self.old.store) (K.seen self.new.store) }
        ensures kept { KeepsByDeed (K.seen self.old.store) self.old.log owner deed changes.items
            (K.seen self.new.store) self.new.log }
        ensures uncalled { length changes.items ≡ 0 → IsOk result × (self.new.store ≡ self.old.store) }
        ensures room { self.old.spare.events ≤ self.new.spare.events + 1 }
        ensures prepared { KeepsPrepared self.old.spare.prepared self.new.spare.prepared }
    {
        self.make_deed(owner, deed, changes)
    }

    fn make_deed(
        &mut self,
        owner: u32,
        deed: Deed,
        changes: Vec<Change>,
    ) -> Result<u64, ChangeError>
        requires made { AreMade (K.seen self.old.store) changes.items }
        requires known { AllByRecursion (λ (c : HeldCellsOf).
            IsSome (known_after self.old.log.events c.array)) deed.cells.items }
        requires room { 0 < self.old.spare.events }
        requires prepared { AllByRecursion (IsPrepared self.old.spare.prepared) deed.keys.items }
        ensures number { IfOk result (λ n. n ≡ length self.old.log.events + 1) }
        ensures after { OnOk result (self.new.log ≡ committed self.old.log owner deed) }
        ensures done { OnOk result ((m : Contents) → (K.seen self.old.store).contents ≡ Some m
            → (K.seen self.new.store).contents ≡ Some (after m changes.items)) }
        ensures one_more { OnOk result (0 < length changes.items
            → OneMore ((K.seen self.old.store).changes) ((K.seen self.new.store).changes)) }
        ensures none { OnOk result (length changes.items ≡ 0
            → (K.seen self.new.store).changes ≡ (K.seen self.old.store).changes) }
        ensures failed { (event : ℕ) → result ≡ Err (ChangeError.StoreFailed event)
            → HasFailed owner deed.mount (K.seen self.old.store)
            (K.seen self.new.store) self.old.log self.new.log event }
        ensures told { (K.seen self.old.store).faults < (K.seen self.new.store).faults
            → (event : ℕ) × (result ≡ Err (ChangeError.StoreFailed event)) }
        ensures memory { result ≡ Err ChangeError.Memory → self.new.log ≡ self.old.log }
        ensures quiet { OnErr result (IsQuiet (K.seen self.old.store) (K.seen self.new.store)) }
        ensures frame { IsFrame (K.seen self.old.store) (K.seen self.new.store) }
        ensures uncalled { length changes.items ≡ 0 → IsOk result × (self.new.store ≡ self.old.store) }
        ensures room { self.old.spare.events ≤ self.new.spare.events + 1 }
        ensures prepared { KeepsPrepared self.old.spare.prepared self.new.spare.prepared }
    {
        match apply_owned(&mut self.store, changes) {
            Ok(()) => Ok(enter_commit(&mut self.records, owner, deed)),
            Err(KvError::Failed) => {
                let event = self.records.add_fault(owner, deed.mount);
                Err(ChangeError::StoreFailed { event })
            }
            Err(KvError::Memory) => Err(ChangeError::Memory),
        }
    }
}
