// Events that enter what is kept of a run.
ghost use Rattle.std.specs.Prelude.{◌≡◌, ◌<◌, ◌+◌, ◌++◌, ◌∷◌, [], length, None, Some, OnOk, count_by, IsSome, false};
ghost use Rattle.std.specs.List.{AllByRecursion};
ghost use Rattle.history.specs.Metadata.{with_shape};
ghost use Rattle.history.specs.Arrays.{form_of, known_after, Known, is_local};
ghost use Rattle.history.specs.Legal.{is_opening};
ghost use Rattle.history.specs.Own.{opened_event, resized_event};
ghost use Rattle.state_laws.specs.Numbers.{IsPrepared, KeepsPrepared};
ghost use Rattle.state_laws.specs.Recorded.{with_numbers, without_all, done_event};
ghost use Rattle.state_laws.specs.declared.deed.HeldCells.{HeldCells as HeldCellsOf};
ghost use Rattle.state_laws.specs.Changing.{with_cells};

use crate::arrival::NewArray;
use crate::deed::{Deed, HeldCells, NewShape};
use crate::opening::Opened;
use crate::records::Records;
use cells::Name;
use chunk_cache::Snapshot;
use std::alloc::{AllocError, Global};

/// Adds the opening of a new array where there is room.
pub fn add_new(records: &mut Records, owner: u32, new: NewArray) -> Opened
    requires room { 0 < records.old.room }
    requires number { new.info.number ≡ count_by is_opening records.old.events }
    requires form { new.form ≡ with_shape (form_of new.info.home) new.info.shape }
    ensures array { result.array ≡ new.array }
    ensures event { result.event ≡ Some (length records.old.events + 1) }
    ensures after { records.new ≡ record records.old {
      events = records.old.events ++ opened_event owner new.info ∷ [];
      locals = records.old.locals ++ None ∷ [];
      room = records.new.room;
      event_room = records.new.event_room;
    } }
{
    let NewArray { info, form, array } = new;
    let event = records.add_opened(owner, info, form, None);
    Opened {
        array,
        event: Some(event),
    }
}

/// Adds the opening of a new array and its cells where there is room.
pub fn add_given(records: &mut Records, owner: u32, new: NewArray, cells: Snapshot) -> Opened
    requires room { 0 < records.old.room }
    requires number { new.info.number ≡ count_by is_opening records.old.events }
    requires form { new.form ≡ with_shape (form_of new.info.home) new.info.shape }
    ensures array { result.array ≡ new.array }
    ensures event { result.event ≡ Some (length records.old.events + 1) }
    ensures after { records.new ≡ record records.old {
      events = records.old.events ++ opened_event owner new.info ∷ [];
      locals = records.old.locals ++ Some cells ∷ [];
      room = records.new.room;
      event_room = records.new.event_room;
    } }
{
    let NewArray { info, form, array } = new;
    let event = records.add_opened(owner, info, form, Some(cells));
    Opened {
        array,
        event: Some(event),
    }
}

/// Prepares keys, whose generations then need no memory.
pub fn prepare_all(alloc: Global, records: &mut Records, keys: &[Name]) -> Result<(), AllocError>
    ensures prepared { OnOk result (AllByRecursion (IsPrepared records.new.prepared) keys.now) }
    ensures kept { KeepsPrepared records.old.prepared records.new.prepared }
    ensures same { records.new ≡ record records.old { prepared = records.new.prepared } }
{
    for key in keys {
        prepare(alloc, records, key.items())?;
    }
    Ok(())
}

fn prepare(alloc: Global, records: &mut Records, key: &str) -> Result<(), AllocError>
    ensures key { OnOk result (IsPrepared records.new.prepared key.now) }
    ensures kept { KeepsPrepared records.old.prepared records.new.prepared }
    ensures same { records.new ≡ record records.old { prepared = records.new.prepared } }
{
    records.prepare(alloc, key)
}

/// Adds the event of a commit that was made, where there is room and its keys are prepared.
pub fn enter_commit(records: &mut Records, owner: u32, deed: Deed) -> u64
    requires room { 0 < records.old.event_room }
    requires prepared { AllByRecursion (IsPrepared records.old.prepared) deed.keys.items }
    requires known { AllByRecursion (λ (c : HeldCellsOf).
        IsSome (known_after records.old.events c.array)) deed.cells.items }
    ensures number { result ≡ length records.old.events + 1 }
    ensures after { records.new ≡ record records.old {
      events = records.old.events ++ done_event owner deed.commit ∷ [];
      generations = with_numbers (length records.old.events + 1) records.old.generations deed.keys.items;
      cache = record records.old.cache { entries = without_all deed.keys.items records.old.cache.entries };
      locals = with_cells records.old.locals deed.cells.items;
      room = records.new.room;
      event_room = records.new.event_room;
      prepared = records.new.prepared;
    } }
    ensures room { records.new.event_room + 1 ≡ records.old.event_room }
    ensures prepared { KeepsPrepared records.old.prepared records.new.prepared }
{
    let Deed {
        mount: _,
        commit,
        keys,
        cells,
    } = deed;
    put_all(records, cells);
    records.add_done(owner, commit, keys)
}

/// Puts the cells of local arrays in place of those that the run holds.
fn put_all(records: &mut Records, cells: Vec<HeldCells>)
    requires { AllByRecursion (λ (c : HeldCellsOf). IsSome (known_after records.old.events c.array)) cells.items }
    ensures { records.new ≡ record records.old { locals = with_cells records.old.locals cells.items } }
{
    for held in cells {
        put(records, held);
    }
}

fn put(records: &mut Records, held: HeldCells)
    requires { IsSome (known_after records.old.events held.array) }
    ensures { records.new ≡ record records.old { locals = with_cells records.old.locals (held ∷ []) } }
{
    let HeldCells { array, cells } = held;
    records.put_held(array, cells);
}

/// Adds the event of a new shape that was made, where there is room and its keys are prepared.
pub fn enter_shape(records: &mut Records, owner: u32, new: NewShape) -> u64
    requires array { (k : Known) × (known_after records.old.events new.array ≡ Some k) × (is_local k.info.home ≡ false)
        × (new.form ≡ with_shape (form_of k.info.home) new.shape) }
    requires room { 0 < records.old.event_room }
    requires prepared { AllByRecursion (IsPrepared records.old.prepared) new.keys.items }
    ensures number { result ≡ length records.old.events + 1 }
    ensures after { records.new ≡ record records.old {
      events = records.old.events ++ resized_event owner new.array new.shape ∷ [];
      generations = with_numbers (length records.old.events + 1) records.old.generations new.keys.items;
      cache = record records.old.cache { entries = without_all new.keys.items records.old.cache.entries };
      room = records.new.room;
      event_room = records.new.event_room;
      prepared = records.new.prepared;
    } }
    ensures room { records.new.event_room + 1 ≡ records.old.event_room }
    ensures prepared { KeepsPrepared records.old.prepared records.new.prepared }
{
    let NewShape {
        mount: _,
        array,
        shape,
        form,
        keys,
    } = new;
    records.add_resized(owner, array, shape, form, keys)
}
