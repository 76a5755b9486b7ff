//! Where records are made.
ghost use Rattle.std.specs.Prelude.{◌≡◌, ◌+◌, ◌<◌, ◌^◌};
ghost use Rattle.std.specs.Option.{option_map};
ghost use Rattle.zw_heap.specs.Place.{one_more, new_place};

use std::marker::Model;
use zw_names::CPath;

/// A place of a heap in which records are made, by its number there: a setup, and the load in progress if there is one.
#[derive(Clone, Copy, Debug, PartialEq, Eq)]
pub struct PlaceId(pub usize);

/// A place, with how many records were made there.
#[derive(Drop)]
pub(crate) struct Place {
    setup: usize,
    load: Option<CPath>,
    count: usize,
}

impl Model for Place {
    ghost use Rattle.zw_heap.specs.Place.{Place};

    ghost Value = { Place };

    ghost view = { λ p. record { setup = p.setup; load = p.load; count = p.count } };
}

impl Place {
    pub(crate) fn new(setup: usize, load: Option<CPath>, count: usize) -> Place
        ensures { result ≡ record { setup = setup; load = load; count = count } }
    {
        Place { setup, load, count }
    }

    pub(crate) fn count(&self) -> usize
        ensures { result ≡ self.now.count }
    {
        self.count
    }

    pub(crate) fn add_one(&mut self)
        requires { self.old.count + 1 < 2 ^ 64 }
        ensures { self.new ≡ one_more self.old }
    {
        self.count += 1;
    }
}
