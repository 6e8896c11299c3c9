// A new array whose metadata a store writes.
ghost use Rattle.std.specs.Prelude.{◌≡◌, ◌<◌, ◌+◌, ◌++◌, ◌∷◌, [], ℕ, length, None, Some, Err, IfOk, OnOk, OnErr, All, true, count_by};
ghost use Rattle.std.specs.FinMap as finmap;
ghost use Rattle.std.specs.List.{IsDistinct};
ghost use Rattle.std.specs.Str.{bytes_eq};
ghost use Rattle.history.specs.Metadata.{with_shape};
ghost use Rattle.kv_face.specs.declared.change.Change.{Change as ChangeOf};
ghost use Rattle.kv_face.specs.Store.{Contents, OneMore, after, takes, keys_of, are_together};
ghost use Rattle.locations.specs.Paths.{Located};
ghost use Rattle.history.specs.Arrays.{form_of};
ghost use Rattle.history.specs.Legal.{is_opening};
ghost use Rattle.history.specs.Own.{fault};
ghost use Rattle.history.specs.Places.{IsFree, IsTable, location};
ghost use Rattle.state_laws.specs.Seen.{IsFrame};
ghost use Rattle.state_laws.specs.Log.{log_of};
ghost use Rattle.state_laws.specs.Fetches.{HasFailed};
ghost use Rattle.state_laws.specs.Openings.{IsStoreError};
ghost use Rattle.state_laws.specs.Placed.{entered};

use crate::arrival::NewArray;
use crate::entering::add_new;
use crate::opening::{OpenError, Opened};
use crate::records::Records;
use cells::Name;
use kv_face::{Change, KvError, KvStore};
use locations::Locations;
use std::alloc::{AllocError, Global};

/// Makes room for an event and puts a new array's place into the table of locations.
///
/// # Errors
/// Want of memory alone.
pub fn make_place(
    alloc: Global,
    records: &mut Records,
    places: &mut Locations,
    here: &str,
    number: u64,
) -> Result<(), AllocError>
    ensures room { OnOk result ((0 < records.new.room) × (0 < records.new.event_room)) }
    ensures same { records.new ≡ record records.old { room = records.new.room; event_room = records.new.event_room } }
    ensures put { OnOk result (places.new ≡ finmap.insert places.old here.now number) }
    ensures err { OnErr result (places.new ≡ places.old) }
{
    records.reserve()?;
    places.put(alloc, here, number)
}

/// Has a store write the metadata of a new array, whose place is in the table. Adds the array's event where the store did, else takes the
/// place out again and, where the store failed, adds the event that says so. Room is there for either.
///
/// # Errors
/// `StoreFailed` where the store failed; `Memory` where it wanted memory.
pub fn write_array<K: KvStore>(
    records: &mut Records,
    places: &mut Locations,
    store: &mut K,
    owner: u32,
    here: &str,
    mount: Name,
    new: NewArray,
    changes: &[Change],
) -> Result<Opened, OpenError>
    requires room { (0 < records.old.room) × (0 < records.old.event_room) }
    requires number { new.info.number ≡ count_by is_opening records.old.events }
    requires form { new.form ≡ with_shape (form_of new.info.home) new.info.shape }
    requires at { location new.info.home ≡ Some here.now }
    requires free { IsFree records.old.events here.now }
    requires table { (before : Located) × IsTable records.old.events before
        × (places.old ≡ finmap.insert before here.now new.info.number) }
    requires keys { All (λ (c : ChangeOf). takes ((K.seen store.old).names) c.key ≡ true) changes.now }
    requires distinct { IsDistinct bytes_eq (keys_of changes.now) }
    requires together { are_together ((K.seen store.old).prefixes) changes.now 0 ≡ true }
    ensures entered { IfOk result (λ o. (o.array ≡ new.array) × (o.event ≡ Some (length records.old.events + 1))) }
    ensures after { OnOk result (log_of records.new ≡ entered (log_of records.old) owner new.info None) }
    ensures done { OnOk result ((m : Contents) → (K.seen store.old).contents ≡ Some m
        → (K.seen store.new).contents ≡ Some (after m changes.now)) }
    ensures one_more { OnOk result (0 < length changes.now
        → OneMore ((K.seen store.old).changes) ((K.seen store.new).changes)) }
    ensures contents { OnErr result ((K.seen store.new).contents ≡ (K.seen store.old).contents) }
    ensures count { OnErr result ((K.seen store.new).changes ≡ (K.seen store.old).changes) }
    ensures frame { IsFrame (K.seen store.old) (K.seen store.new) }
    ensures failed { (event : ℕ) → result ≡ Err (OpenError.StoreFailed event)
        → HasFailed owner mount (K.seen store.old) (K.seen store.new) (log_of records.old) (log_of records.new) event }
    ensures told { (K.seen store.old).faults < (K.seen store.new).faults
        → (event : ℕ) × (result ≡ Err (OpenError.StoreFailed event)) }
    ensures memory { result ≡ Err OpenError.Memory → log_of records.new ≡ log_of records.old }
    ensures errors { OnErr result (IsStoreError result) }
    ensures table { IsTable records.new.events places.new }
{
    match store.apply(changes) {
        Ok(()) => Ok(add_new(records, owner, new)),
        Err(error) => Err(unwritten(records, places, owner, here, mount, error)),
    }
}

/// Takes the place of an array out that was not written, and adds the event of a failed store.
fn unwritten(
    records: &mut Records,
    places: &mut Locations,
    owner: u32,
    here: &str,
    mount: Name,
    error: KvError,
) -> OpenError
    requires room { 0 < records.old.event_room }
    requires free { IsFree records.old.events here.now }
    requires table { (before : Located) × (number : ℕ) × IsTable records.old.events before
        × (places.old ≡ finmap.insert before here.now number) }
    ensures failed { error ≡ KvError.Failed → (result ≡ OpenError.StoreFailed (length records.old.events + 1))
        × (log_of records.new ≡ record (log_of records.old) { events = records.old.events ++ fault owner mount ∷ [] }) }
    ensures memory { error ≡ KvError.Memory → (result ≡ OpenError.Memory) × (log_of records.new ≡ log_of records.old) }
    ensures table { IsTable records.new.events places.new }
{
    places.remove(here);
    match error {
        KvError::Failed => {
            let event = records.add_fault(owner, mount);
            OpenError::StoreFailed { event }
        }
        KvError::Memory => OpenError::Memory,
    }
}
