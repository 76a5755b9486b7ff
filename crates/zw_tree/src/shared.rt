//! Bytes with several owners, seen as the bytes.
ghost use Rattle.std.specs.Prelude.{◌≡◌, IfOk};

use std::alloc::{AllocError, Global};
use std::marker::Model;
use std::rc::Rc;

/// Bytes that several trees hold. A clause sees the bytes.
#[derive(Drop)]
pub(crate) struct Shared {
    inner: Rc<Vec<u8>>,
}

impl Model for Shared {
    ghost use Rattle.std.specs.Prelude.{List, ℕ};

    ghost Value = { List ℕ };

    ghost view = { λ s. s.inner.value.items };
}

impl Shared {
    /// Bytes with one owner.
    pub(crate) fn new(alloc: Global, value: Vec<u8>) -> Result<Shared, AllocError>
        ensures { IfOk result (λ s. s ≡ value.items) }
    {
        Ok(Shared {
            inner: Rc::new(alloc, value)?,
        })
    }

    /// The bytes.
    pub(crate) fn get(&self) -> &[u8]
        ensures { result.now ≡ self.now }
    {
        self.inner.as_ref().as_slice()
    }

    /// One more owner.
    pub(crate) fn share(&self) -> Result<Shared, AllocError>
        ensures { IfOk result (λ s. s ≡ self.now) }
    {
        Ok(Shared {
            inner: self.inner.clone()?,
        })
    }
}
