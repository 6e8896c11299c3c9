ghost use Rattle.std.specs.Prelude.{set, map, ◌≡◌, ◌≤◌, ◌<◌, ◌+◌, ◌^◌, ◌++◌, ◌∷◌, [], ℕ, List, length, Some, None, Option, true, false, IsSome, IsOk, IfOk, IfErr, OnOk, OnErr, count_by, string_bytes, vec_len, vec_capacity};
ghost use Rattle.std.specs.FinMap as finmap;
ghost use Rattle.std.specs.Option.{option_copied, option_map};
ghost use Rattle.chunk_cache.specs.Cache.{kept, after_hit, after_keep, after_drop};
ghost use Rattle.history.specs.Metadata.{with_shape};
ghost use Rattle.history.specs.Arrays.{Known, known_after, form_of, is_local};
ghost use Rattle.history.specs.Legal.{is_opening};
ghost use Rattle.history.specs.Own.{fault, opened_event, resized_event};
ghost use Rattle.history.specs.Places.{array_at};
ghost use Rattle.history.specs.Store.{resized_after};
ghost use Rattle.state_laws.specs.declared.arrays.Entry.{Entry as EntryOf};
ghost use Rattle.state_laws.specs.Indexed.{AreArrays};
ghost use Rattle.state_laws.specs.Numbers.{IsPrepared, KeepsPrepared};
ghost use Rattle.state_laws.specs.Recorded.{cells_held, with_numbers, without_all, done_event};
ghost use Rattle.history.specs.History.{History};
ghost use Rattle.std.specs.List.{AllByRecursion, slice_get};

use crate::arrays::{Entry, entry_at, info_at};
use crate::commit::Commit;
use crate::generations::KeyNumbers;
use cells::{Name, Sizes};
use chunk_cache::{ChunkCache, KeepRefused, Snapshot};
use history::{ArrayInfo, Event, Form, Home, Kind};
use std::alloc::{AllocError, Global};
use std::marker::Model;

/// What a run keeps of its events. Contracts see the history, a table of generations, the chunks that were used last, and the
/// cells of local arrays.
#[derive(Drop)]
pub struct Records {
    events: Vec<Event>,
    arrays: Vec<Entry>,
    generations: KeyNumbers,
    cache: ChunkCache,
}

impl Model for Records {
    ghost use Rattle.std.specs.Prelude.{◌-◌, map, min, vec_capacity, length};
    ghost use Rattle.std.specs.Coded.{codes};
    ghost use Rattle.stack_driver.specs.contracts.view.View as view_type;
    ghost use Rattle.state_laws.specs.declared.arrays.Entry.{Entry};
    ghost use Rattle.state_laws.specs.Recorded.{RecordsOf};
    ghost use Rattle.state_laws.specs.Numbers.{generations_code};
    ghost use Rattle.state_laws.specs.Indexed.{AreArrays};

    ghost Value = { RecordsOf };

    ghost coded = { Prim.hlevel (codes, view_type.the_row.coded, generations_code) };

    ghost view = { λ r. record {
      events = r.events.items;
      generations = r.generations.numbers;
      cache = r.cache;
      locals = map (λ (e : Entry). e.local) r.arrays.items;
      room = min (vec_capacity r.events - length r.events.items) (vec_capacity r.arrays - length r.arrays.items);
      event_room = vec_capacity r.events - length r.events.items;
      prepared = r.generations.prepared;
    } };

    ghost invariant = { λ r. AreArrays r.events.items r.arrays.items };
}

impl Records {
    /// No event, and a cache that keeps at most so many cells.
    ///
    /// # Errors
    /// `AllocError` where memory is wanting.
    pub fn new(alloc: Global, limit: u64) -> Result<Records, AllocError>
        requires { limit ≤ 2 ^ 27 }
        ensures events { IfOk result (λ r. r.events ≡ []) }
        ensures generations { IfOk result (λ r. r.generations ≡ finmap.empty) }
        ensures cache { IfOk result (λ r. r.cache ≡ record { limit = limit; entries = [] }) }
        ensures locals { IfOk result (λ r. r.locals ≡ []) }
    {
        Ok(Records {
            events: Vec::new(alloc),
            arrays: Vec::new(alloc),
            generations: KeyNumbers::new(alloc),
            cache: ChunkCache::new(alloc, limit)?,
        })
    }

    /// The events so far, the first with the number 1.
    pub fn events(&self) -> &[Event]
        ensures { result.now ≡ self.now.events }
    {
        &self.events
    }

    /// The events, which are given up.
    pub fn into_events(self) -> Vec<Event>
        ensures { result.items ≡ self.events }
    {
        self.events
    }

    /// How many arrays were opened: the number of the next one.
    pub fn array_count(&self) -> u64
        ensures value { result ≡ count_by is_opening self.now.events }
        ensures there { (here : List ℕ) (k : Known) → array_at self.now.events here ≡ Some k
            → known_after self.now.events k.info.number ≡ Some k }
    {
        self.arrays.len() as u64
    }

    /// The array of a number, as it was opened.
    pub fn info(&self, array: u64) -> &ArrayInfo
        requires { IsSome (known_after self.now.events array) }
        ensures value { Some result.now ≡ option_map (λ (k : Known). k.info) (known_after self.now.events array) }
        // A local array keeps the shape that it was opened with.
        ensures local { is_local result.now.home ≡ true
            → Some result.now.shape ≡ option_map (λ (k : Known). k.shape) (known_after self.now.events array) }
    {
        let Some(info) = info_at(&self.events, &self.arrays, array) else {
            unreachable!();
        };
        info
    }

    /// The number of the event that opened an array.
    pub fn opened(&self, array: u64) -> u64
        requires { IsSome (known_after self.now.events array) }
        ensures { Some result ≡ option_map (λ (k : Known). k.opened) (known_after self.now.events array) }
    {
        let entry = entry_at(&self.events, &self.arrays, array);
        entry.place as u64 + 1
    }

    /// How an array's chunks are stored, with its present shape.
    pub fn form(&self, array: u64) -> &Form
        requires { IsSome (known_after self.now.events array) }
        ensures { Some result.now ≡ option_map (λ (k : Known).
            with_shape (form_of k.info.home) k.shape) (known_after self.now.events array) }
    {
        let entry = entry_at(&self.events, &self.arrays, array);
        &entry.form
    }

    /// An array's present shape, in cells.
    pub fn shape(&self, array: u64) -> &[u64]
        requires { IsSome (known_after self.now.events array) }
        ensures { Some result.now ≡ option_map (λ (k : Known). k.shape) (known_after self.now.events array) }
    {
        let info = self.info(array);
        match &info.home {
            Home::Local { .. } => info.shape.items(),
            _ => self.form(array).shape(),
        }
    }

    /// The number of the event that gave an array its present shape, or 0 where none did since its opening.
    pub fn resized(&self, array: u64) -> u64
        requires { IsSome (known_after self.now.events array) }
        ensures { result ≡ resized_after self.now.events array }
    {
        let entry = entry_at(&self.events, &self.arrays, array);
        entry.resized
    }

    /// The cells that the run holds of an array; none of an array that a store holds.
    pub fn held(&self, array: u64) -> Option<&Snapshot>
        requires { IsSome (known_after self.now.events array) }
        ensures { option_copied result ≡ cells_held self.now array }
    {
        let entry = entry_at(&self.events, &self.arrays, array);
        entry.local.as_ref()
    }

    /// The number that the table of generations has at a key.
    pub fn number_at(&self, key: &str) -> Option<u64>
        ensures { result ≡ finmap.get self.now.generations key.now }
    {
        self.generations.get(key)
    }

    /// The chunk that is kept under a key, which becomes the last used.
    ///
    /// # Errors
    /// `AllocError` where the chunk can't be shared any more. Nothing has changed then.
    pub fn hit(&mut self, key: &str) -> Result<Option<Snapshot>, AllocError>
        ensures value { IfOk result (λ found. found ≡ kept key.now self.old.cache.entries) }
        ensures after { OnOk result (self.new
            ≡ record self.old {
              cache = record self.old.cache
                  { entries = after_hit key.now self.old.cache.entries };
            }) }
        ensures err { OnErr result (self.new ≡ self.old) }
        ensures miss { kept key.now self.old.cache.entries ≡ None → IsOk result }
    {
        self.cache.hit(key)
    }

    /// Keeps a chunk under a key, as the last used.
    ///
    /// # Errors
    /// `KeepRefused` where there is no memory, with the key and the chunk. Nothing has changed then.
    pub fn keep(&mut self, key: String, snapshot: Snapshot) -> Result<(), KeepRefused>
        ensures ok { OnOk result (self.new ≡ record self.old {
          cache = record self.old.cache {
            entries = after_keep self.old.cache.limit (string_bytes key) snapshot self.old.cache.entries;
          };
        }) }
        ensures err { OnErr result (self.new ≡ self.old) }
        ensures handed_back { IfErr result (λ refused. (refused.key ≡ string_bytes key)
            × (refused.snapshot ≡ snapshot)) }
    {
        self.cache.keep(key, snapshot)
    }

    /// Makes room for one event and one array more.
    ///
    /// # Errors
    /// `AllocError` where memory is wanting.
    pub fn reserve(&mut self) -> Result<(), AllocError>
        ensures room { OnOk result ((0 < self.new.room) × (0 < self.new.event_room)) }
        ensures same { self.new ≡ record self.old { room = self.new.room; event_room = self.new.event_room } }
    {
        self.events.reserve(1)?;
        self.arrays.reserve(1)
    }

    /// Adds a failed store call where there is room; gives the event's number.
    pub fn add_fault(&mut self, owner: u32, mount: Name) -> u64
        requires { 0 < self.old.event_room }
        ensures number { result ≡ length self.old.events + 1 }
        ensures after { self.new
            ≡ record self.old {
              events = self.old.events
                  ++ fault owner mount ∷ [];
              room = self.new.room;
              event_room = self.new.event_room;
            } }
        ensures room { self.new.event_room + 1 ≡ self.old.event_room }
    {
        let kind = Kind::Fault { mount };
        add(&mut self.events, Event { owner, kind })
    }

    /// Makes room for so many events more.
    ///
    /// # Errors
    /// `AllocError` where memory is wanting.
    pub fn reserve_events(&mut self, count: usize) -> Result<(), AllocError>
        ensures room { OnOk result (count ≤ self.new.event_room) }
        ensures more { self.old.event_room ≤ self.new.event_room }
        ensures same { self.new ≡ record self.old { room = self.new.room; event_room = self.new.event_room } }
    {
        self.events.reserve(count)
    }

    /// Prepares a key, whose generation then needs no memory.
    ///
    /// # Errors
    /// `AllocError` where memory is wanting.
    pub fn prepare(&mut self, alloc: Global, key: &str) -> Result<(), AllocError>
        ensures key { OnOk result (IsPrepared self.new.prepared key.now) }
        ensures prepared { KeepsPrepared self.old.prepared self.new.prepared }
        ensures same { self.new ≡ record self.old { prepared = self.new.prepared } }
    {
        self.generations.prepare(alloc, key)
    }

    /// Adds a commit, or one key of it, where there is room and its keys are prepared; gives the event's number, which their
    /// generations are then. What was kept under the keys is dropped.
    pub fn add_done(&mut self, owner: u32, done: Commit, keys: Vec<Name>) -> u64
        requires room { 0 < self.old.event_room }
        requires prepared { AllByRecursion (IsPrepared self.old.prepared) keys.items }
        ensures number { result ≡ length self.old.events + 1 }
        ensures after { self.new ≡ record self.old {
          events = self.old.events ++ done_event owner done ∷ [];
          generations = with_numbers (length self.old.events + 1) self.old.generations keys.items;
          cache = record self.old.cache { entries = without_all keys.items self.old.cache.entries };
          room = self.new.room;
          event_room = self.new.event_room;
          prepared = self.new.prepared;
        } }
        ensures room { self.new.event_room + 1 ≡ self.old.event_room }
        ensures prepared { KeepsPrepared self.old.prepared self.new.prepared }
    {
        let Commit {
            line,
            mode,
            ops,
            key,
        } = done;
        let kind = Kind::Done {
            line,
            mode,
            ops,
            key,
        };
        let number = add(&mut self.events, Event { owner, kind });
        number_keys(&mut self.generations, &mut self.cache, keys, number);
        number
    }

    /// Adds a new shape of a stored array, whose form is given by it, where there is room and the keys of the chunks that it cuts
    /// are prepared; gives the event's number, which their generations are then. What was kept under the keys is dropped.
    pub fn add_resized(
        &mut self,
        owner: u32,
        array: u64,
        shape: Sizes,
        form: Form,
        keys: Vec<Name>,
    ) -> u64
        requires stored { (k : Known) × (known_after self.old.events array ≡ Some k) × (is_local k.info.home ≡ false)
            × (form ≡ with_shape (form_of k.info.home) shape) }
        requires room { 0 < self.old.event_room }
        requires prepared { AllByRecursion (IsPrepared self.old.prepared) keys.items }
        ensures number { result ≡ length self.old.events + 1 }
        ensures after { self.new ≡ record self.old {
          events = self.old.events ++ resized_event owner array shape ∷ [];
          generations = with_numbers (length self.old.events + 1) self.old.generations keys.items;
          cache = record self.old.cache { entries = without_all keys.items self.old.cache.entries };
          room = self.new.room;
          event_room = self.new.event_room;
          prepared = self.new.prepared;
        } }
        ensures room { self.new.event_room + 1 ≡ self.old.event_room }
        ensures prepared { KeepsPrepared self.old.prepared self.new.prepared }
    {
        prove!(array < self.arrays.len() as u64);
        let kind = Kind::Resized { array, shape };
        let number = add(&mut self.events, Event { owner, kind });
        reshape(&mut self.arrays, array as usize, form, number);
        number_keys(&mut self.generations, &mut self.cache, keys, number);
        number
    }

    /// Puts the cells of a local array in place of those that the run holds of it.
    pub fn put_held(&mut self, array: u64, cells: Snapshot)
        requires { IsSome (known_after self.old.events array) }
        ensures { self.new ≡ record self.old { locals = set self.old.locals array (Some cells) } }
    {
        prove!(array < self.arrays.len() as u64);
        put_cells(self.arrays.as_mut_slice(), array as usize, cells);
    }

    /// Adds the opening of the next array where there is room; gives the event's number. Of a local array the cells are given too.
    pub fn add_opened(
        &mut self,
        owner: u32,
        info: ArrayInfo,
        form: Form,
        local: Option<Snapshot>,
    ) -> u64
        requires room { 0 < self.old.room }
        requires number { info.number ≡ count_by is_opening self.old.events }
        requires form { form ≡ with_shape (form_of info.home) info.shape }
        ensures number { result ≡ length self.old.events + 1 }
        ensures after { self.new ≡ record self.old {
          events = self.old.events ++ opened_event owner info ∷ [];
          locals = self.old.locals ++ local ∷ [];
          room = self.new.room;
          event_room = self.new.event_room;
        } }
    {
        let entry = Entry {
            place: self.events.len(),
            form,
            resized: 0,
            local,
        };
        add_entry(&mut self.arrays, entry);
        let kind = Kind::Opened { array: info };
        add(&mut self.events, Event { owner, kind })
    }
}

/// Puts a number at each of some keys that are prepared, and drops what is kept under them.
fn number_keys(generations: &mut KeyNumbers, cache: &mut ChunkCache, keys: Vec<Name>, number: u64)
    requires prepared { AllByRecursion (IsPrepared generations.old.prepared) keys.items }
    requires number { 0 < number }
    ensures numbers { generations.new.numbers ≡ with_numbers number generations.old.numbers keys.items }
    ensures prepared { KeepsPrepared generations.old.prepared generations.new.prepared }
    ensures cache { cache.new ≡ record cache.old { entries = without_all keys.items cache.old.entries } }
{
    for key in keys {
        number_key(generations, cache, key, number);
    }
}

fn number_key(generations: &mut KeyNumbers, cache: &mut ChunkCache, key: Name, number: u64)
    requires key { IsPrepared generations.old.prepared key }
    requires number { 0 < number }
    ensures numbers { generations.new.numbers ≡ finmap.insert generations.old.numbers key number }
    ensures prepared { KeepsPrepared generations.old.prepared generations.new.prepared }
    ensures cache { cache.new ≡ record cache.old { entries = after_drop key cache.old.entries } }
{
    cache.drop_key(key.items());
    generations.put(key.into_inner(), number);
}

/// Adds an event where there is room; gives its number.
fn add(events: &mut Vec<Event>, event: Event) -> u64
    requires { vec_len events.old < vec_capacity events.old }
    ensures items { events.new.items ≡ events.old.items ++ event ∷ [] }
    ensures number { result ≡ length events.new.items }
    ensures room { vec_capacity events.new ≡ vec_capacity events.old }
{
    events.push_reserved(event);
    events.len() as u64
}

/// Gives an array another form, by the event of this number.
fn reshape(entries: &mut Vec<Entry>, place: usize, form: Form, number: u64)
    requires { place < length entries.old.items }
    ensures locals { map (λ (e : EntryOf). e.local) entries.new.items ≡ map (λ (e : EntryOf).
        e.local) entries.old.items }
    ensures arrays { (h : History) (owner : ℕ) (shape : List ℕ) (k : Known) → number ≡ length h + 1
        → known_after h place ≡ Some k → is_local k.info.home ≡ false
        → form ≡ with_shape (form_of k.info.home) shape → AreArrays h entries.old.items
        → AreArrays (h ++ resized_event owner place shape ∷ []) entries.new.items }
{
    reshape_at(entries.as_mut_slice(), place, form, number);
}

fn reshape_at(entries: &mut [Entry], place: usize, form: Form, number: u64)
    requires { place < length entries.old }
    ensures locals { map (λ (e : EntryOf). e.local) entries.new ≡ map (λ (e : EntryOf). e.local) entries.old }
    ensures arrays { (h : History) (owner : ℕ) (shape : List ℕ) (k : Known) → number ≡ length h + 1
        → known_after h place ≡ Some k → is_local k.info.home ≡ false
        → form ≡ with_shape (form_of k.info.home) shape → AreArrays h entries.old
        → AreArrays (h ++ resized_event owner place shape ∷ []) entries.new }
{
    let entry = &mut entries[place];
    entry.form = form;
    entry.resized = number;
}

fn put_cells(entries: &mut [Entry], place: usize, cells: Snapshot)
    requires { place < length entries.old }
    ensures locals { map (λ (e : EntryOf). e.local) entries.new ≡ set (map (λ (e : EntryOf).
        e.local) entries.old) place (Some cells) }
    ensures arrays { (events : History) → AreArrays events entries.old → AreArrays events entries.new }
{
    entries[place].local = Some(cells);
}

/// Adds an array where there is room.
fn add_entry(entries: &mut Vec<Entry>, entry: Entry)
    requires { vec_len entries.old < vec_capacity entries.old }
    ensures { entries.new.items ≡ entries.old.items ++ entry ∷ [] }
{
    let Ok(()) = entries.push(entry) else {
        unreachable!();
    };
}
