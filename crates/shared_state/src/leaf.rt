// Opening an array of a store.
ghost use Rattle.std.specs.Prelude.{◌≡◌, ◌<◌, ℕ, length, Some, None, Err, IfOk, OnErr, IsSome};
ghost use Rattle.std.specs.FinMap as finmap;
ghost use Rattle.state_laws.specs.Opening.{leaf_at};
ghost use Rattle.kv_face.specs.Store.{Contents};
ghost use Rattle.stack_driver.specs.References.{IsReference};
ghost use Rattle.state_laws.specs.Arrays.{Known, known_after, ref_of};
ghost use Rattle.state_laws.specs.Leaves.{Leaf, Stored};
ghost use Rattle.state_laws.specs.Legal.{IsMount};
ghost use Rattle.state_laws.specs.Outcomes.{outcome_at};
ghost use Rattle.state_laws.specs.Places.{IsFree};
ghost use Rattle.state_laws.specs.Seen.{IsFrame, IsQuiet};
ghost use Rattle.state_laws.specs.Agreement.{Opening, Agrees, IsState, KeepsAgreement, TakesMount};
ghost use Rattle.state_laws.specs.Openings.{IsOpening, AnswersKnown, IsBeside};
ghost use Rattle.state_laws.specs.Placed.{place_at};

use crate::state::State;
use bytes::Bytes;
use cells::copy_name;
use kv_face::KvStore;
use locations::Found;
use state_laws::{
    Decided, GetError, OpenError, Opened, Place, Want, array_ref, decided, mismatch, place_of,
    refused,
};

impl<K: KvStore> State<K> {
    /// Opens an array of a store, by what is asked of it: an array of the run, one whose metadata the store has, or a new one,
    /// whose metadata is written. Metadata that the store has is never written over.
    ///
    /// # Errors
    /// The first that holds, as `OpenError` lists them. After each but `StoreFailed`, which one event more tells, no event is new, and
    /// after each the store has what it had.
    pub fn open(
        &mut self,
        owner: u32,
        mount: &str,
        path: &str,
        want: &Want,
        may_open: bool,
        may_create: bool,
    ) -> Result<Opened, OpenError>
        requires agrees { IsState (K.seen self.old.store) self.old.log }
        requires mount { IsMount mount.now }
        requires taken { TakesMount ((K.seen self.old.store).names) mount.now }
        ensures answer { (opening : Opening) → Agrees opening (K.seen self.old.store) self.old.log
            → IsOpening opening.store.contents self.old.log.events owner
            (leaf_at mount.now path.now want.now may_open may_create) result self.new.log.events }
        ensures kept { KeepsAgreement (K.seen self.old.store) self.old.log (K.seen self.new.store) self.new.log }
        ensures frame { IsFrame (K.seen self.old.store) (K.seen self.new.store) }
        ensures failed { (event : ℕ) → result ≡ Err (OpenError.StoreFailed event)
            → (K.seen self.old.store).faults < (K.seen self.new.store).faults }
        ensures told { (K.seen self.old.store).faults < (K.seen self.new.store).faults
            → (event : ℕ) × (result ≡ Err (OpenError.StoreFailed event)) }
        ensures there { IfOk result (λ o. o.event ≡ None → self.new ≡ self.old) }
        ensures beside { IsBeside self.old.log self.new.log }
        ensures quiet { OnErr result (IsQuiet (K.seen self.old.store) (K.seen self.new.store)) }
    {
        let place = place_of(self.alloc, mount, path, want)?;
        self.open_at(owner, &place, want, may_open, may_create)
    }

    fn open_at(
        &mut self,
        owner: u32,
        place: &Place,
        want: &Want,
        may_open: bool,
        may_create: bool,
    ) -> Result<Opened, OpenError>
        requires agrees { IsState (K.seen self.old.store) self.old.log }
        requires mount { IsMount place.now.names.mount }
        requires taken { TakesMount ((K.seen self.old.store).names) place.now.names.mount }
        requires place { place.now ≡ place_at place.now.names.mount place.now.names.path want.now }
        ensures answer { (opening : Opening) → Agrees opening (K.seen self.old.store) self.old.log
            → IsOpening opening.store.contents self.old.log.events owner
            (leaf_at place.now.names.mount place.now.names.path want.now may_open may_create)
            result self.new.log.events }
        ensures kept { KeepsAgreement (K.seen self.old.store) self.old.log (K.seen self.new.store) self.new.log }
        ensures frame { IsFrame (K.seen self.old.store) (K.seen self.new.store) }
        ensures failed { (event : ℕ) → result ≡ Err (OpenError.StoreFailed event)
            → (K.seen self.old.store).faults < (K.seen self.new.store).faults }
        ensures told { (K.seen self.old.store).faults < (K.seen self.new.store).faults
            → (event : ℕ) × (result ≡ Err (OpenError.StoreFailed event)) }
        ensures there { IfOk result (λ o. o.event ≡ None → self.new ≡ self.old) }
        ensures beside { IsBeside self.old.log self.new.log }
        ensures quiet { OnErr result (IsQuiet (K.seen self.old.store) (K.seen self.new.store)) }
    {
        let at = self.events().len() as u64;
        match self.places.find(self.alloc, place.location.items()) {
            Ok(Found::Taken { other }) => Err(OpenError::PathTaken { path: other, at }),
            Ok(Found::There { number }) => self.opened_there(number, want, may_open),
            Ok(Found::Free) => self.open_free(owner, place, want, may_open, may_create),
            Err(_) => Err(OpenError::Memory),
        }
    }

    /// An array of the history, where it is what is asked.
    fn opened_there(&self, number: u64, want: &Want, may_open: bool) -> Result<Opened, OpenError>
        requires known { IsSome (known_after self.now.log.events number) }
        requires reference { (k : Known) → known_after self.now.log.events number ≡ Some k → IsReference (ref_of k) }
        ensures { (k : Known) (leaf : Leaf) (stored : Stored) → known_after self.now.log.events number ≡ Some k
            → leaf.want ≡ want.now → leaf.may_open ≡ may_open
            → AnswersKnown k (length self.now.log.events) result (outcome_at leaf stored (Some k)) }
    {
        let at = self.events().len() as u64;
        if !may_open {
            return Err(OpenError::Exists { at });
        }
        if let Some(member) = mismatch(
            want,
            self.records.form(number),
            self.records.shape(number),
        ) {
            return Err(OpenError::Mismatch { member, at });
        }
        let array = array_ref(
            self.alloc,
            self.records.info(number),
            self.records.shape(number),
        )?;
        Ok(Opened { array, event: None })
    }

    /// Opens a leaf at whose place, above it or below it the history has no array.
    fn open_free(
        &mut self,
        owner: u32,
        place: &Place,
        want: &Want,
        may_open: bool,
        may_create: bool,
    ) -> Result<Opened, OpenError>
        requires agrees { IsState (K.seen self.old.store) self.old.log }
        requires mount { IsMount place.now.names.mount }
        requires taken { TakesMount ((K.seen self.old.store).names) place.now.names.mount }
        requires place { place.now ≡ place_at place.now.names.mount place.now.names.path want.now }
        requires free { IsFree self.old.log.events place.now.location }
        ensures answer { (opening : Opening) → Agrees opening (K.seen self.old.store) self.old.log
            → IsOpening opening.store.contents self.old.log.events owner
            (leaf_at place.now.names.mount place.now.names.path want.now may_open may_create)
            result self.new.log.events }
        ensures kept { KeepsAgreement (K.seen self.old.store) self.old.log (K.seen self.new.store) self.new.log }
        ensures frame { IsFrame (K.seen self.old.store) (K.seen self.new.store) }
        ensures failed { (event : ℕ) → result ≡ Err (OpenError.StoreFailed event)
            → (K.seen self.old.store).faults < (K.seen self.new.store).faults }
        ensures told { (K.seen self.old.store).faults < (K.seen self.new.store).faults
            → (event : ℕ) × (result ≡ Err (OpenError.StoreFailed event)) }
        ensures new { IfOk result (λ o. IsSome o.event) }
        ensures beside { IsBeside self.old.log self.new.log }
        ensures quiet { OnErr result (IsQuiet (K.seen self.old.store) (K.seen self.new.store)) }
    {
        let mount = copy_name(self.alloc, place.names.mount.items())?;
        match self.get(owner, mount, place.key.items()) {
            Ok(bytes) => self.open_stored(owner, place, want, may_open, may_create, bytes),
            Err(GetError::Failed { event }) => Err(OpenError::StoreFailed { event }),
            Err(GetError::Memory) => Err(OpenError::Memory),
        }
    }

    /// Opens a leaf by what the store has at its metadata's key.
    fn open_stored(
        &mut self,
        owner: u32,
        place: &Place,
        want: &Want,
        may_open: bool,
        may_create: bool,
        bytes: Option<Bytes>,
    ) -> Result<Opened, OpenError>
        requires agrees { IsState (K.seen self.old.store) self.old.log }
        requires mount { IsMount place.now.names.mount }
        requires taken { TakesMount ((K.seen self.old.store).names) place.now.names.mount }
        requires place { place.now ≡ place_at place.now.names.mount place.now.names.path want.now }
        requires free { IsFree self.old.log.events place.now.location }
        requires bytes { (m : Contents) → (K.seen self.old.store).contents ≡ Some m
            → bytes ≡ finmap.get m place.now.key }
        ensures answer { (opening : Opening) → Agrees opening (K.seen self.old.store) self.old.log
            → IsOpening opening.store.contents self.old.log.events owner
            (leaf_at place.now.names.mount place.now.names.path want.now may_open may_create)
            result self.new.log.events }
        ensures kept { KeepsAgreement (K.seen self.old.store) self.old.log (K.seen self.new.store) self.new.log }
        ensures frame { IsFrame (K.seen self.old.store) (K.seen self.new.store) }
        ensures failed { (event : ℕ) → result ≡ Err (OpenError.StoreFailed event)
            → (K.seen self.old.store).faults < (K.seen self.new.store).faults }
        ensures told { (K.seen self.old.store).faults < (K.seen self.new.store).faults
            → (event : ℕ) × (result ≡ Err (OpenError.StoreFailed event)) }
        ensures new { IfOk result (λ o. IsSome o.event) }
        ensures beside { IsBeside self.old.log self.new.log }
        ensures quiet { OnErr result (IsQuiet (K.seen self.old.store) (K.seen self.new.store)) }
    {
        match decided(self.alloc, want, may_open, may_create, bytes) {
            Ok(Decided::Found { form }) => self.enter_found(owner, place, want, form),
            Ok(Decided::Made { form }) => self.make(owner, place, want, form),
            Err(refusal) => {
                let at = self.events().len() as u64;
                Err(refused(self.alloc, place.key.items(), at, refusal))
            }
        }
    }
}
