//! Heaps.

use crate::array_record::ArrayRecord;
use crate::mark::Mark;
use crate::module_record::ModuleRecord;
use crate::object_record::ObjectRecord;
use crate::place::Place;
use std::alloc::Global;
use std::marker::Model;

/// Modules, objects, texts and arrays, by their numbers. Contracts see what it holds, with names by their numbers.
#[derive(Drop)]
pub struct Heap {
    pub(crate) alloc: Global,
    pub(crate) names: usize,
    pub(crate) modules: Vec<ModuleRecord>,
    pub(crate) objects: Vec<ObjectRecord>,
    pub(crate) texts: Vec<String>,
    pub(crate) arrays: Vec<ArrayRecord>,
    pub(crate) places: Vec<Place>,
    pub(crate) here: usize,
    pub(crate) setups: usize,
    pub(crate) boot: Option<Mark>,
}

impl Model for Heap {
    ghost use Rattle.zw_heap.specs.Heap.{Held};

    ghost Value = { Held };

    ghost use Rattle.zw_heap.specs.HeapSeen.{heap_seen};
    ghost use Rattle.zw_heap.specs.Sound.{IsSound};

    ghost view = { heap_seen };

    ghost invariant = { λ s. IsSound (heap_seen s) };
}
