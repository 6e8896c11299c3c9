// Giving an array a new shape.
ghost use Rattle.std.specs.Prelude.{◌≡◌, ◌≤◌, ◌<◌, ◌+◌, ℕ, length, Some, Err, IfOk, OnOk, OnErr, false};
ghost use Rattle.std.specs.List.{AllByRecursion};
ghost use Rattle.state_laws.specs.Metadata.{with_shape};
ghost use Rattle.kv_face.specs.Store.{Contents, OneMore, after};
ghost use Rattle.state_laws.specs.Arrays.{Known, known_after, form_of, is_local};
ghost use Rattle.state_laws.specs.Numbers.{IsPrepared, KeepsPrepared};
ghost use Rattle.state_laws.specs.Seen.{IsFrame, IsQuiet};
ghost use Rattle.state_laws.specs.Agreement.{IsState};
ghost use Rattle.state_laws.specs.Changing.{AreMade, IsNewShape, KeepsByShape, resized};
ghost use Rattle.state_laws.specs.Fetches.{HasFailed};

use crate::state::State;
use kv_face::{Change, KvError, KvStore};
use state_laws::{ChangeError, NewShape, apply, enter_shape};

impl<K: KvStore> State<K> {
    /// Gives a stored array a new shape, by changes that the store makes together, and adds its event, whose number it gives. Room
    /// was made and its keys prepared before (`make_room`).
    ///
    /// # Errors
    /// `StoreFailed` exactly where the store failed, which one event more tells; `Memory` where the store wanted memory. Nothing was
    /// changed then.
    pub fn reshape(
        &mut self,
        owner: u32,
        new: NewShape,
        changes: &[Change],
    ) -> Result<u64, ChangeError>
        requires agrees { IsState (K.seen self.old.store) self.old.log }
        requires shape { IsNewShape self.old.log owner new changes.now }
        requires made { AreMade (K.seen self.old.store) changes.now }
        requires room { 0 < self.old.spare.events }
        requires prepared { AllByRecursion (IsPrepared self.old.spare.prepared) new.keys.items }
        ensures number { IfOk result (λ n. n ≡ length self.old.log.events + 1) }
        ensures after { OnOk result (self.new.log ≡ resized self.old.log owner new) }
        ensures done { OnOk result ((m : Contents) → (K.seen self.old.store).contents ≡ Some m
            → (K.seen self.new.store).contents ≡ Some (after m changes.now)) }
        ensures failed { (event : ℕ) → result ≡ Err (ChangeError.StoreFailed event)
            → HasFailed owner new.mount (K.seen self.old.store)
            (K.seen self.new.store) self.old.log self.new.log event }
        ensures told { (K.seen self.old.store).faults < (K.seen self.new.store).faults
            → (event : ℕ) × (result ≡ Err (ChangeError.StoreFailed event)) }
        ensures memory { result ≡ Err ChangeError.Memory → self.new.log ≡ self.old.log }
        ensures quiet { OnErr result (IsQuiet (K.seen self.old.store) (K.seen self.new.store)) }
        ensures frame { IsFrame (K.seen self.old.store) (K.seen self.new.store) }
        ensures kept { KeepsByShape (K.seen self.old.store) self.old.log owner new changes.now
            (K.seen self.new.store) self.new.log }
        ensures room { self.old.spare.events ≤ self.new.spare.events + 1 }
        ensures prepared { KeepsPrepared self.old.spare.prepared self.new.spare.prepared }
    {
        self.make_shape(owner, new, changes)
    }

    fn make_shape(
        &mut self,
        owner: u32,
        new: NewShape,
        changes: &[Change],
    ) -> Result<u64, ChangeError>
        requires array { (k : Known) × (known_after self.old.log.events new.array ≡ Some k)
            × (is_local k.info.home ≡ false) × (new.form ≡ with_shape (form_of k.info.home) new.shape) }
        requires made { AreMade (K.seen self.old.store) changes.now }
        requires room { 0 < self.old.spare.events }
        requires prepared { AllByRecursion (IsPrepared self.old.spare.prepared) new.keys.items }
        ensures number { IfOk result (λ n. n ≡ length self.old.log.events + 1) }
        ensures after { OnOk result (self.new.log ≡ resized self.old.log owner new) }
        ensures done { OnOk result ((m : Contents) → (K.seen self.old.store).contents ≡ Some m
            → (K.seen self.new.store).contents ≡ Some (after m changes.now)) }
        ensures one_more { OnOk result (0 < length changes.now
            → OneMore ((K.seen self.old.store).changes) ((K.seen self.new.store).changes)) }
        ensures none { OnOk result (length changes.now ≡ 0
            → (K.seen self.new.store).changes ≡ (K.seen self.old.store).changes) }
        ensures failed { (event : ℕ) → result ≡ Err (ChangeError.StoreFailed event)
            → HasFailed owner new.mount (K.seen self.old.store)
            (K.seen self.new.store) self.old.log self.new.log event }
        ensures told { (K.seen self.old.store).faults < (K.seen self.new.store).faults
            → (event : ℕ) × (result ≡ Err (ChangeError.StoreFailed event)) }
        ensures memory { result ≡ Err ChangeError.Memory → self.new.log ≡ self.old.log }
        ensures quiet { OnErr result (IsQuiet (K.seen self.old.store) (K.seen self.new.store)) }
        ensures frame { IsFrame (K.seen self.old.store) (K.seen self.new.store) }
        ensures room { self.old.spare.events ≤ self.new.spare.events + 1 }
        ensures prepared { KeepsPrepared self.old.spare.prepared self.new.spare.prepared }
    {
        match apply(&mut self.store, changes) {
            Ok(()) => Ok(enter_shape(&mut self.records, owner, new)),
            Err(KvError::Failed) => {
                let event = self.records.add_fault(owner, new.mount);
                Err(ChangeError::StoreFailed { event })
            }
            Err(KvError::Memory) => Err(ChangeError::Memory),
        }
    }
}
