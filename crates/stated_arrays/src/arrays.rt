// Arrays that are opened one after another.
ghost use Rattle.std.specs.Prelude.{◌≡◌, ◌+◌, ◌∷◌, [], ◌++◌, IfOk, OnOk, Ok, Some, None, false, length};
ghost use Rattle.chunk_forms.specs.Made.{form_made};
ghost use Rattle.chunk_forms.specs.Metadata.{IsMetadata, is_local};
ghost use Rattle.cells.specs.Dense.{IsDense};
ghost use Rattle.history.specs.Legal.{IsMount, IsLegalOpening};
ghost use Rattle.history.specs.Lines.{given, stored};
ghost use Rattle.history.specs.Outcomes.{new_info};
ghost use Rattle.history.specs.Own.{opened_event, fault};
ghost use Rattle.history.specs.OpenRows.{next_array, given_info};
ghost use Rattle.history.specs.Places.{IsFree, location};
ghost use Rattle.transcript_cut.specs.Openings.{leaf_of};
ghost use Rattle.transcript_cut.specs.Leaves.{IsSoundLeaf};
ghost use Rattle.transcript_cut.specs.Transcript.{mount};
ghost use Rattle.stated_arrays.specs.Asked.{wanted_leaf, location_asked, leaf_asked, IsSoundWanted};
ghost use Rattle.stated_arrays.specs.Served.{AreArraysOf, IsServed, HasOpened, undone};

use crate::asked::{Asked, Wanted, location_of, made_form, wanted_by};
use cells::{Dense, Name};
use history::{ArrayInfo, Event, Form, Kind};
use locations::{Found, Locations};
use std::alloc::{AllocError, Global};
use transcript_cut::{SpecLeaf, given_info, new_info};

/// The events so far, for each array the number of the event that opened it, and where arrays lie.
#[derive(Drop)]
pub struct StatedArrays {
    pub events: Vec<Event>,
    pub opened: Vec<u64>,
    pub places: Locations,
}

/// What comes of a leaf at the next number.
#[derive(Clone, Copy, Debug)]
pub enum Served {
    /// It opens an array.
    New,
    /// An array lies at its place.
    There,
    /// No array may be opened by it.
    Never,
}

impl StatedArrays {
    /// No event.
    pub fn none(alloc: Global) -> Self
        ensures events { result.events.items ≡ [] }
        ensures arrays { AreArraysOf result }
    {
        StatedArrays {
            events: Vec::new(alloc),
            opened: Vec::new(alloc),
            places: Locations::new(alloc),
        }
    }

    /// An event more that counts as nothing: a commit of a session.
    pub fn add_done(&mut self, alloc: Global, owner: u32) -> Result<(), AllocError>
        requires { AreArraysOf self.old }
        ensures events { OnOk result (self.new.events.items ≡ self.old.events.items ++ undone owner ∷ []) }
        ensures arrays { OnOk result (AreArraysOf self.new) }
    {
        let mount = Name::wrap(String::new(alloc));
        self.add_fault(owner, mount)
    }

    /// A failed call of a session more.
    pub fn add_failed(&mut self, alloc: Global, owner: u32) -> Result<(), AllocError>
        requires { AreArraysOf self.old }
        ensures events { OnOk result (self.new.events.items ≡ self.old.events.items ++ fault owner mount ∷ []) }
        ensures arrays { OnOk result (AreArraysOf self.new) }
    {
        let mount = Name::wrap(String::from_str(alloc, "memory")?);
        self.add_fault(owner, mount)
    }

    fn add_fault(&mut self, owner: u32, mount: Name) -> Result<(), AllocError>
        requires { AreArraysOf self.old }
        ensures events { OnOk result (self.new.events.items ≡ self.old.events.items ++ fault owner mount ∷ []) }
        ensures arrays { OnOk result (AreArraysOf self.new) }
    {
        let kind = Kind::Fault { mount };
        self.events.push(Event { owner, kind })?;
        Ok(())
    }

    /// What comes of a leaf of a session at the next number.
    pub fn open(&mut self, alloc: Global, owner: u32, leaf: SpecLeaf) -> Result<Served, AllocError>
        requires arrays { AreArraysOf self.old }
        requires sound { IsSoundLeaf (mount ∷ []) leaf }
        ensures served { IfOk result (IsServed self.old self.new owner (leaf_of [] leaf)) }
        ensures arrays { OnOk result (AreArraysOf self.new) }
    {
        self.open_wanted(alloc, owner, wanted_by(leaf))
    }

    fn open_wanted(
        &mut self,
        alloc: Global,
        owner: u32,
        wanted: Wanted,
    ) -> Result<Served, AllocError>
        requires arrays { AreArraysOf self.old }
        requires sound { IsSoundWanted wanted }
        ensures served { IfOk result (IsServed self.old self.new owner (wanted_leaf wanted)) }
        ensures arrays { OnOk result (AreArraysOf self.new) }
    {
        match wanted {
            Wanted::Stored { asked } => self.open_stored(alloc, owner, &asked),
            Wanted::Given { start } => self.open_given(alloc, owner, start),
        }
    }

    fn open_given(&mut self, alloc: Global, owner: u32, start: Dense) -> Result<Served, AllocError>
        requires arrays { AreArraysOf self.old }
        requires dense { IsDense start }
        ensures served { IfOk result (IsServed self.old self.new owner (given start)) }
        ensures arrays { OnOk result (AreArraysOf self.new) }
    {
        let info = given_info(alloc, self.opened.len() as u64, start)?;
        self.add_opened(owner, info)?;
        Ok(Served::New)
    }

    fn open_stored(
        &mut self,
        alloc: Global,
        owner: u32,
        asked: &Asked,
    ) -> Result<Served, AllocError>
        requires arrays { AreArraysOf self.old }
        requires mount { IsMount asked.now.mount }
        ensures served { IfOk result (IsServed self.old self.new owner (stored [] (leaf_asked asked.now))) }
        ensures arrays { OnOk result (AreArraysOf self.new) }
    {
        let location = location_of(alloc, asked)?;
        match self.places.find(alloc, location.items()) {
            Ok(Found::Taken { .. }) => Ok(Served::Never),
            Ok(Found::There { .. }) => Ok(Served::There),
            Ok(Found::Free) => self.open_free(alloc, owner, location.items(), asked),
            Err(e) => Err(e),
        }
    }

    fn open_free(
        &mut self,
        alloc: Global,
        owner: u32,
        location: &str,
        asked: &Asked,
    ) -> Result<Served, AllocError>
        requires arrays { AreArraysOf self.old }
        requires mount { IsMount asked.now.mount }
        requires location { location.now ≡ location_asked asked.now }
        requires free { IsFree self.old.events.items location.now }
        ensures served { IfOk result (IsServed self.old self.new owner (stored [] (leaf_asked asked.now))) }
        ensures arrays { OnOk result (AreArraysOf self.new) }
    {
        match made_form(alloc, &asked.want) {
            Ok(Some(form)) => self.open_made(alloc, owner, location, asked, form),
            Ok(None) => Ok(Served::Never),
            Err(e) => Err(e),
        }
    }

    fn open_made(
        &mut self,
        alloc: Global,
        owner: u32,
        location: &str,
        asked: &Asked,
        form: Form,
    ) -> Result<Served, AllocError>
        requires arrays { AreArraysOf self.old }
        requires mount { IsMount asked.now.mount }
        requires location { location.now ≡ location_asked asked.now }
        requires free { IsFree self.old.events.items location.now }
        requires made { form_made asked.now.want ≡ Ok form }
        requires stored { is_local form ≡ false }
        requires valid { IsMetadata form }
        ensures served { IfOk result (IsServed self.old self.new owner (stored [] (leaf_asked asked.now))) }
        ensures arrays { OnOk result (AreArraysOf self.new) }
    {
        let number = self.opened.len() as u64;
        let info = new_info(alloc, number, asked.mount.items(), asked.path.items(), form)?;
        self.add_stored(alloc, owner, location, info)?;
        Ok(Served::New)
    }

    // The opening of an array that lies at a location.
    fn add_stored(
        &mut self,
        alloc: Global,
        owner: u32,
        here: &str,
        info: ArrayInfo,
    ) -> Result<(), AllocError>
        requires arrays { AreArraysOf self.old }
        requires legal { IsLegalOpening self.old.events.items info }
        requires location { location info.home ≡ Some here.now }
        ensures opened { OnOk result (HasOpened self.old self.new owner info) }
        ensures arrays { OnOk result (AreArraysOf self.new) }
    {
        self.places.put(alloc, here, info.number)?;
        push_opened(&mut self.events, &mut self.opened, owner, info)
    }

    // The opening of an array that lies nowhere.
    fn add_opened(&mut self, owner: u32, info: ArrayInfo) -> Result<(), AllocError>
        requires arrays { AreArraysOf self.old }
        requires legal { IsLegalOpening self.old.events.items info }
        requires location { location info.home ≡ None }
        ensures opened { OnOk result (HasOpened self.old self.new owner info) }
        ensures arrays { OnOk result (AreArraysOf self.new) }
    {
        push_opened(&mut self.events, &mut self.opened, owner, info)
    }
}

// The event of an opening, and its number.
fn push_opened(
    events: &mut Vec<Event>,
    opened: &mut Vec<u64>,
    owner: u32,
    info: ArrayInfo,
) -> Result<(), AllocError>
    ensures events { OnOk result (events.new.items ≡ events.old.items ++ opened_event owner info ∷ []) }
    ensures opened { OnOk result (opened.new.items ≡ opened.old.items ++ (length events.old.items + 1) ∷ []) }
{
    let kind = Kind::Opened { array: info };
    events.push(Event { owner, kind })?;
    opened.push(events.len() as u64)?;
    Ok(())
}
