ghost use Rattle.std.specs.Prelude.{◌≡◌, ◌++◌, ◌∷◌, [], ℕ, List, Option, Some, None, Ok, IfSome, OnOk, OnErr, true};
ghost use Rattle.std.specs.Option.{option_copied};
ghost use Rattle.std.specs.FinMap as finmap;
ghost use Rattle.locations.specs.Paths.{begins, IsLeastClash, HasNoClash, IsFirstAbove, HasNoneAbove, AreApart};
ghost use Rattle.locations.specs.Tables.{place_at, numbers_of, AreNamed, first_above, IsLeastBelow};

use cells::Name;
use std::alloc::{AllocError, Global};
use std::collections::BTreeMap;
use std::marker::Model;

/// An array at a location.
#[derive(Drop)]
struct Place {
    text: Name,
    number: u64,
}

/// Locations by their bytes.
type Table = BTreeMap<Vec<u8>, Place>;

/// The locations of arrays, and the number of the array at each.
#[derive(Drop)]
pub struct Locations {
    table: Table,
}

impl Model for Locations {
    ghost use Rattle.std.specs.Coded.{codes};
    ghost use Rattle.locations.specs.Paths.{Located, located_code};
    ghost use Rattle.locations.specs.Tables.{numbers_of, AreNamed};

    ghost Value = { Located };

    ghost coded = { Prim.hlevel (codes, located_code) };

    ghost view = { λ l. numbers_of l.table.entries };

    ghost invariant = { λ l. AreNamed l.table };
}

/// What lies at a location, above it or below it.
#[derive(Debug, Drop)]
pub enum Found {
    /// The least location above or below it at which an array lies.
    Taken { other: Name },
    /// No array lies above or below it, and this one at it.
    There { number: u64 },
    /// No array lies at it, above or below it.
    Free,
}

impl Locations {
    /// No location.
    pub fn new(alloc: Global) -> Self
        ensures { result ≡ finmap.empty }
    {
        Locations {
            table: BTreeMap::new(alloc),
        }
    }

    /// Puts an array at a location, in place of any that was there.
    ///
    /// # Errors
    /// `AllocError` where memory is wanting; nothing has changed then.
    pub fn put(&mut self, alloc: Global, location: &str, number: u64) -> Result<(), AllocError>
        ensures put { OnOk result (self.new ≡ finmap.insert self.old location.now number) }
        ensures err { OnErr result (self.new ≡ self.old) }
    {
        list(alloc, &mut self.table, location, number)
    }

    /// Takes the array at a location out, if there is one.
    pub fn remove(&mut self, location: &str)
        ensures { self.new ≡ finmap.remove self.old location.now }
    {
        unlist(&mut self.table, location);
    }

    /// What lies at a location: the least location of an array above or below it, else the array at it, else nothing.
    ///
    /// # Errors
    /// `AllocError` where memory is wanting.
    pub fn find(&self, alloc: Global, location: &str) -> Result<Found, AllocError>
        ensures taken { (other : List ℕ) → result ≡ Ok (Found.Taken other) → IsLeastClash self.now location.now other }
        ensures there { (number : ℕ) → result ≡ Ok (Found.There number)
            → (finmap.get self.now location.now ≡ Some number) × HasNoClash self.now location.now }
        ensures free { result ≡ Ok Found.Free → (finmap.get self.now location.now ≡ None)
            × HasNoClash self.now location.now }
    {
        let here = location.as_bytes();
        if let Some(place) = above(&self.table, here) {
            return taken(alloc, place);
        }
        let mut from = Vec::with_capacity(alloc, here.len() + 1)?;
        from.extend_from_slice(here)?;
        from.push(b'/')?;
        if let Some(place) = below(&self.table, &from) {
            return taken(alloc, place);
        }
        match self.table.get(here) {
            Some(place) => Ok(Found::There {
                number: place.number,
            }),
            None => Ok(Found::Free),
        }
    }

    /// The number of the array at the shortest part of a key that ends before a "/" and at which an array lies. Where no two
    /// locations clash, no other part has one.
    pub fn above(&self, key: &[u8]) -> Option<u64>
        ensures some { IfSome result (λ number. IsFirstAbove self.now key.now number) }
        ensures none { result ≡ None → HasNoneAbove self.now key.now }
        ensures only { AreApart self.now → (upper rest : List ℕ) (number : ℕ) → key.now ≡ upper ++ 47 ∷ rest
            → finmap.get self.now upper ≡ Some number → result ≡ Some number }
    {
        match above(&self.table, key) {
            Some(place) => Some(place.number),
            None => None,
        }
    }
}

/// Puts an array into the table.
fn list(alloc: Global, table: &mut Table, location: &str, number: u64) -> Result<(), AllocError>
    ensures listed { OnOk result (numbers_of table.new.entries
        ≡ finmap.insert (numbers_of table.old.entries) location.now number) }
    ensures err { OnErr result (numbers_of table.new.entries ≡ numbers_of table.old.entries) }
    ensures named { AreNamed table.old → AreNamed table.new }
{
    let key = Vec::from_slice(alloc, location.as_bytes())?;
    let text = Name::wrap(String::from_str(alloc, location)?);
    match table.insert(key, Place { text, number }) {
        Ok(_) => Ok(()),
        Err(_) => Err(AllocError),
    }
}

/// Takes an array out of the table.
fn unlist(table: &mut Table, location: &str)
    ensures unlisted { numbers_of table.new.entries ≡ finmap.remove (numbers_of table.old.entries) location.now }
    ensures named { AreNamed table.old → AreNamed table.new }
{
    table.remove(location.as_bytes());
}

fn taken(alloc: Global, place: &Place) -> Result<Found, AllocError>
    ensures { (found : Found) → result ≡ Ok found → found ≡ Found.Taken place.now.text }
{
    let other = Name::wrap(String::from_str(alloc, place.text.items())?);
    Ok(Found::Taken { other })
}

/// The array at the shortest part of a location that ends before a "/".
fn above<'a>(table: &'a Table, location: &[u8]) -> Option<&'a Place>
    ensures { option_copied result ≡ first_above (place_at table.now) [] location.now }
{
    for i in 0..location.len() {
        if location[i] == b'/' {
            let (upper, _) = location.split_at(i);
            if let Some(place) = table.get(upper) {
                return Some(place);
            }
        }
    }
    None
}

/// The array at the least location that goes on behind a location and a "/", which are given together.
fn below<'a>(table: &'a Table, from: &Vec<u8>) -> Option<&'a Place>
    ensures some { IfSome result (λ place. IsLeastBelow (place_at table.now) from.now.items place.now) }
    ensures none { result ≡ None → (here : List ℕ) → begins from.now.items here ≡ true
        → place_at table.now here ≡ None }
{
    match table.range(from..).next() {
        Some((key, place)) => {
            if key.starts_with(from) {
                Some(place)
            } else {
                None
            }
        }
        None => None,
    }
}
