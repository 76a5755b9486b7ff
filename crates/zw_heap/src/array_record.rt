//! Arrays.
ghost use Rattle.std.specs.Prelude.{◌≡◌, IfOk};
ghost use Rattle.zw_heap.specs.Heap.{row};

use crate::value::Value;
use std::alloc::{AllocError, Global};
use std::marker::Model;

/// An array that was made, and how deep arrays stand in one another there.
#[derive(Drop)]
pub(crate) struct ArrayRecord {
    items: Vec<Value>,
    nesting: usize,
}

impl Model for ArrayRecord {
    ghost use Rattle.zw_heap.specs.Heap.{Row};

    ghost Value = { Row };

    ghost view = { λ a. record { items = a.items.items; nesting = a.nesting } };
}

impl ArrayRecord {
    pub(crate) fn new(
        alloc: Global,
        items: &[Value],
        nesting: usize,
    ) -> Result<ArrayRecord, AllocError>
        ensures { IfOk result (λ made. made ≡ row items.now nesting) }
    {
        Ok(ArrayRecord {
            items: Vec::from_slice(alloc, items)?,
            nesting,
        })
    }

    pub(crate) fn items(&self) -> &[Value]
        ensures { result.now ≡ self.now.items }
    {
        self.items.as_slice()
    }

    pub(crate) fn nesting(&self) -> usize
        ensures { result ≡ self.now.nesting }
    {
        self.nesting
    }

    /// The same array.
    pub(crate) fn copy(&self, alloc: Global) -> Result<ArrayRecord, AllocError>
        ensures { IfOk result (λ copy. copy ≡ self.now) }
    {
        ArrayRecord::new(alloc, self.items.as_slice(), self.nesting)
    }
}
