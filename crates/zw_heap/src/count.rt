//! How much a heap holds.
ghost use Rattle.std.specs.Prelude.{◌≡◌, length};

use crate::heap::Heap;

impl Heap {
    /// How many classes and modules there are. Their numbers are those below. It takes no memory.
    pub fn module_count(&self) -> usize
        ensures { result ≡ length self.now.modules }
    {
        self.modules.len()
    }
}
