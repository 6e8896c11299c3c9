// What a key tells.
ghost use Rattle.std.specs.Prelude.{◌≡◌, ◌++◌, ◌∷◌, ℕ, List, Some};
ghost use Rattle.history.specs.Places.{location};
ghost use Rattle.state_laws.specs.Keyed.{local_at};

use array_homes::is_local;
use history::{Event, Home, Kind};

/// The number of the local array that an event opened.
pub fn local_at(events: &[Event], number: u64) -> Option<u64>
    ensures { result ≡ local_at events.now number }
{
    let place = number.checked_sub(1)?;
    let event = events.get(place as usize)?;
    match &event.kind {
        Kind::Opened { array } => {
            if is_local(&array.home) {
                Some(array.number)
            } else {
                None
            }
        }
        _ => None,
    }
}

/// What stands in a key behind `MOUNT/PATH/`.
fn behind<'a>(mount: &str, path: &str, key: &'a [u8]) -> &'a [u8]
    requires { (rest : List ℕ) × (key.now ≡ (mount.now ++ 47 ∷ path.now) ++ 47 ∷ rest) }
    ensures { (rest : List ℕ) → key.now ≡ (mount.now ++ 47 ∷ path.now) ++ 47 ∷ rest → result.now ≡ rest }
{
    let front = mount.len() + path.len() + 2;
    let (_, name) = key.split_at(front);
    name
}

/// What stands in a key behind the location of an array and a "/".
pub fn name_in<'a>(home: &Home, key: &'a [u8]) -> &'a [u8]
    requires { (upper rest : List ℕ) × (location home.now ≡ Some upper) × (key.now ≡ upper ++ 47 ∷ rest) }
    ensures { (upper rest : List ℕ) → location home.now ≡ Some upper → key.now ≡ upper ++ 47 ∷ rest
        → result.now ≡ rest }
{
    match home {
        Home::Zarr { mount, path, .. } => behind(mount.items(), path.items(), key),
        Home::N5 { mount, path, .. } => behind(mount.items(), path.items(), key),
        Home::Zarr3 { mount, path, .. } => behind(mount.items(), path.items(), key),
        Home::Local { .. } => key,
    }
}
