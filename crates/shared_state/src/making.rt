// New arrays of a store, found or made, that enter the run.
ghost use Rattle.std.specs.Prelude.{◌≡◌, ◌<◌, ◌+◌, ℕ, List, length, None, Some, Err, IfOk, OnOk, OnErr, true, count_by, All};
ghost use Rattle.state_laws.specs.Homes.{info_at, reference_of};
ghost use Rattle.state_laws.specs.Metadata.{shape_of, IsMetadata};
ghost use Rattle.state_laws.specs.Wants.{is_asked_form};
ghost use Rattle.kv_face.specs.Store.{Contents, OneMore, after, takes, keys_of, are_together};
ghost use Rattle.state_laws.specs.Legal.{IsMount, is_opening};
ghost use Rattle.state_laws.specs.Places.{IsFree};
ghost use Rattle.state_laws.specs.Seen.{IsFrame, IsQuiet};
ghost use Rattle.state_laws.specs.Agreement.{IsState, KeepsAgreement, TakesMount};
ghost use Rattle.state_laws.specs.Fetches.{HasFailed};
ghost use Rattle.state_laws.specs.Openings.{IsStoreError};
ghost use Rattle.state_laws.specs.Placed.{place_at, entered, IsNext};
ghost use Rattle.std.specs.FinMap as finmap;
ghost use Rattle.std.specs.List.{IsDistinct};
ghost use Rattle.std.specs.Str.{bytes_eq};
ghost use Rattle.kv_face.specs.declared.change.Change.{Change as ChangeOf};

use crate::state::State;
use cells::{Name, copy_name};
use kv_face::{Change, KvStore};
use state_laws::{
    Form, NewArray, OpenError, Opened, Place, Want, add_new, make_place, metadata_change,
    new_array, write_array,
};

impl<K: KvStore> State<K> {
    /// Enters an array whose metadata the store has.
    pub(crate) fn enter_found(
        &mut self,
        owner: u32,
        place: &Place,
        want: &Want,
        form: Form,
    ) -> Result<Opened, OpenError>
        requires agrees { IsState (K.seen self.old.store) self.old.log }
        requires mount { IsMount place.now.names.mount }
        requires taken { TakesMount ((K.seen self.old.store).names) place.now.names.mount }
        requires place { place.now ≡ place_at place.now.names.mount place.now.names.path want.now }
        requires free { IsFree self.old.log.events place.now.location }
        requires asked { is_asked_form want.now form ≡ true }
        requires valid { IsMetadata form }
        requires there { (m : Contents) → (K.seen self.old.store).contents ≡ Some m → (bytes : List ℕ)
            × (finmap.get m place.now.key ≡ Some bytes) }
        ensures entered { IfOk result (λ o. (o.array
            ≡ reference_of
            (info_at (count_by is_opening self.old.log.events) place.now.names.mount place.now.names.path form)
            (shape_of form)) × (o.event ≡ Some (length self.old.log.events + 1))) }
        ensures after { OnOk result (self.new.log
            ≡ entered self.old.log owner (info_at
            (count_by is_opening self.old.log.events) place.now.names.mount place.now.names.path form) None) }
        ensures err { OnErr result ((result ≡ Err OpenError.Memory) × (self.new.log ≡ self.old.log)) }
        ensures store { self.new.store ≡ self.old.store }
        ensures kept { KeepsAgreement (K.seen self.old.store) self.old.log (K.seen self.new.store) self.new.log }
    {
        let number = self.records.array_count();
        let new = new_array(
            self.alloc,
            number,
            place.names.mount.items(),
            place.names.path.items(),
            form,
        )?;
        self.enter_new(owner, place.location.items(), new)
    }

    /// Writes the metadata of a new array, and enters it.
    pub(crate) fn make(
        &mut self,
        owner: u32,
        place: &Place,
        want: &Want,
        form: Form,
    ) -> Result<Opened, OpenError>
        requires agrees { IsState (K.seen self.old.store) self.old.log }
        requires mount { IsMount place.now.names.mount }
        requires taken { TakesMount ((K.seen self.old.store).names) place.now.names.mount }
        requires place { place.now ≡ place_at place.now.names.mount place.now.names.path want.now }
        requires free { IsFree self.old.log.events place.now.location }
        requires asked { is_asked_form want.now form ≡ true }
        requires valid { IsMetadata form }
        requires missing { (m : Contents) → (K.seen self.old.store).contents ≡ Some m
            → finmap.get m place.now.key ≡ None }
        ensures entered { IfOk result (λ o. (o.array
            ≡ reference_of
            (info_at (count_by is_opening self.old.log.events) place.now.names.mount place.now.names.path form)
            (shape_of form)) × (o.event ≡ Some (length self.old.log.events + 1))) }
        ensures after { OnOk result (self.new.log
            ≡ entered self.old.log owner (info_at
            (count_by is_opening self.old.log.events) place.now.names.mount place.now.names.path form) None) }
        ensures failed { (event : ℕ) → result ≡ Err (OpenError.StoreFailed event)
            → HasFailed owner place.now.names.mount (K.seen self.old.store)
            (K.seen self.new.store) self.old.log self.new.log event }
        ensures told { (K.seen self.old.store).faults < (K.seen self.new.store).faults
            → (event : ℕ) × (result ≡ Err (OpenError.StoreFailed event)) }
        ensures memory { result ≡ Err OpenError.Memory → self.new.log ≡ self.old.log }
        ensures errors { OnErr result (IsStoreError result) }
        ensures quiet { OnErr result (IsQuiet (K.seen self.old.store) (K.seen self.new.store)) }
        ensures frame { IsFrame (K.seen self.old.store) (K.seen self.new.store) }
        ensures kept { KeepsAgreement (K.seen self.old.store) self.old.log (K.seen self.new.store) self.new.log }
    {
        let changes = metadata_change(self.alloc, place.key.items(), &form)?;
        let number = self.records.array_count();
        let new = new_array(
            self.alloc,
            number,
            place.names.mount.items(),
            place.names.path.items(),
            form,
        )?;
        let mount = copy_name(self.alloc, place.names.mount.items())?;
        self.write_new(owner, place.location.items(), mount, new, &changes)
    }

    /// Enters an array whose metadata the store has.
    pub(crate) fn enter_new(
        &mut self,
        owner: u32,
        location: &str,
        new: NewArray,
    ) -> Result<Opened, OpenError>
        requires { IsNext self.old.log.events new location.now }
        ensures entered { IfOk result (λ o. (o.array ≡ new.array) × (o.event ≡ Some (length self.old.log.events + 1))) }
        ensures after { OnOk result (self.new.log ≡ entered self.old.log owner new.info None) }
        ensures store { self.new.store ≡ self.old.store }
        ensures err { OnErr result ((result ≡ Err OpenError.Memory) × (self.new.log ≡ self.old.log)) }
    {
        self.records.reserve()?;
        self.places.put(self.alloc, location, new.info.number)?;
        Ok(add_new(&mut self.records, owner, new))
    }

    /// Writes the metadata of a new array and enters it. Room for either event is made before the store is called.
    pub(crate) fn write_new(
        &mut self,
        owner: u32,
        location: &str,
        mount: Name,
        new: NewArray,
        changes: &[Change],
    ) -> Result<Opened, OpenError>
        requires next { IsNext self.old.log.events new location.now }
        requires free { IsFree self.old.log.events location.now }
        requires keys { All (λ (c : ChangeOf). takes ((K.seen self.old.store).names) c.key ≡ true) changes.now }
        requires distinct { IsDistinct bytes_eq (keys_of changes.now) }
        requires together { are_together ((K.seen self.old.store).prefixes) changes.now 0 ≡ true }
        ensures entered { IfOk result (λ o. (o.array ≡ new.array) × (o.event ≡ Some (length self.old.log.events + 1))) }
        ensures after { OnOk result (self.new.log ≡ entered self.old.log owner new.info None) }
        ensures done { OnOk result ((m : Contents) → (K.seen self.old.store).contents ≡ Some m
            → (K.seen self.new.store).contents ≡ Some (after m changes.now)) }
        ensures one_more { OnOk result (0 < length changes.now
            → OneMore ((K.seen self.old.store).changes) ((K.seen self.new.store).changes)) }
        ensures contents { OnErr result ((K.seen self.new.store).contents ≡ (K.seen self.old.store).contents) }
        ensures count { OnErr result ((K.seen self.new.store).changes ≡ (K.seen self.old.store).changes) }
        ensures frame { IsFrame (K.seen self.old.store) (K.seen self.new.store) }
        ensures failed { (event : ℕ) → result ≡ Err (OpenError.StoreFailed event)
            → HasFailed owner mount (K.seen self.old.store) (K.seen self.new.store) self.old.log self.new.log event }
        ensures told { (K.seen self.old.store).faults < (K.seen self.new.store).faults
            → (event : ℕ) × (result ≡ Err (OpenError.StoreFailed event)) }
        ensures memory { result ≡ Err OpenError.Memory → self.new.log ≡ self.old.log }
        ensures errors { OnErr result (IsStoreError result) }
    {
        make_place(
            self.alloc,
            &mut self.records,
            &mut self.places,
            location,
            new.info.number,
        )?;
        write_array(
            &mut self.records,
            &mut self.places,
            &mut self.store,
            owner,
            location,
            mount,
            new,
            changes,
        )
    }
}
