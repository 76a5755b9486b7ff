//! Where a heap makes its records, and how many names it was told of.
ghost use Rattle.std.specs.Prelude.{◌≡◌, ◌≤◌, IfOk, OnOk, OnErr, Some, length, slice_get};
ghost use Rattle.std.specs.Option.{option_map};
ghost use Rattle.zw_heap.specs.Heap.{with_setup, with_load};
ghost use Rattle.zw_heap.specs.Place.{IsNewLoad};
ghost use Rattle.zw_heap.specs.Sound.{Stays};

use crate::heap::Heap;
use crate::place::{Place, PlaceId};
use std::alloc::AllocError;
use zw_names::{CPath, Names};

impl Heap {
    /// One more setup begins. Records are made in it, outside of all loads.
    pub fn begin_setup(&mut self) -> Result<PlaceId, AllocError>
        ensures number { IfOk result (λ place. place.0 ≡ length self.old.places) }
        ensures begun { OnOk result (self.new ≡ with_setup self.old) }
        ensures unchanged { OnErr result (self.new ≡ self.old) }
        ensures stays { Stays self.old self.new }
    {
        let number = self.places.len();
        let setup = self.setups + 1;
        self.places.push(Place::new(setup, None, 0))?;
        self.here = number;
        self.setups = setup;
        Ok(PlaceId(number))
    }

    /// A place for the load of a key that had none in the present setup. Nothing is made there before it is entered.
    pub fn add_load(&mut self, key: CPath) -> Result<PlaceId, AllocError>
        requires { IsNewLoad self.old.places self.old.setups key }
        ensures number { IfOk result (λ place. place.0 ≡ length self.old.places) }
        ensures added { OnOk result (self.new ≡ with_load key self.old) }
        ensures unchanged { OnErr result (self.new ≡ self.old) }
        ensures stays { Stays self.old self.new }
    {
        let number = self.places.len();
        self.places.push(Place::new(self.setups, Some(key), 0))?;
        Ok(PlaceId(number))
    }

    /// Where records are made now.
    pub fn place(&self) -> PlaceId
        ensures number { result.0 ≡ self.now.here }
        ensures present { option_map (λ p. p.setup) (slice_get self.now.places result.0) ≡ Some self.now.setups }
    {
        PlaceId(self.here)
    }

    /// From now on records are made at a place of the present setup: a load is entered or left.
    pub fn go_to(&mut self, place: PlaceId)
        requires { option_map (λ p. p.setup) (slice_get self.old.places place.0) ≡ Some self.old.setups }
        ensures here { self.new ≡ record self.old { here = place.0 } }
        ensures stays { Stays self.old self.new }
    {
        self.here = place.0;
    }

    /// The heap is told of all names that there are, so that its records may have them.
    pub fn tell_names(&mut self, names: &Names)
        requires { self.old.names ≤ length names.now }
        ensures told { self.new ≡ record self.old { names = length names.now } }
        ensures stays { Stays self.old self.new }
    {
        self.names = names.len();
    }
}
