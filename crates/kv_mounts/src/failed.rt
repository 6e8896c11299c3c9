ghost use Rattle.std.specs.Prelude.{◌≡◌, ◌<◌, ◌++◌, ◌∷◌, [], IfOk, length, if◌then◌else◌};

use std::alloc::{AllocError, Global};
use std::marker::Model;

/// The places of the mounts whose stores stand failed, with room that was taken before there are any.
#[derive(Drop)]
pub struct FinishList {
    places: Vec<u32>,
}

impl Model for FinishList {
    ghost use Rattle.std.specs.Prelude.{vec_capacity};
    ghost use Rattle.kv_mounts.specs.Finish.{Places};

    ghost Value = { Places };

    ghost view = { λ l. record { places = l.places.items; room = vec_capacity l.places } };
}

impl FinishList {
    /// An empty list with room for the places of so many mounts.
    ///
    /// # Errors
    /// An allocation failed.
    pub fn new(alloc: Global, mounts: u32) -> Result<Self, AllocError>
        ensures { IfOk result (λ list. list ≡ record { places = []; room = mounts }) }
    {
        let places = Vec::with_capacity(alloc, mounts as usize)?;
        Ok(FinishList { places })
    }

    /// The places, in rising order.
    pub fn places(self) -> Vec<u32>
        ensures { result.items ≡ self.places }
    {
        self.places
    }

    // Adds a place where it failed. There is room for it.
    pub(crate) fn note(&mut self, failed: bool, place: u32)
        requires { length self.old.places < self.old.room }
        ensures { self.new
            ≡ record self.old { places = if failed then self.old.places ++ place ∷ [] else self.old.places } }
    {
        if failed {
            self.places.push_reserved(place);
        }
    }
}
