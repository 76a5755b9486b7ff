//! Marks of what stands in a heap.

/// How many there are of each.
#[derive(Clone, Copy)]
pub(crate) struct Sizes {
    pub(crate) names: usize,
    pub(crate) modules: usize,
    pub(crate) objects: usize,
    pub(crate) texts: usize,
    pub(crate) arrays: usize,
}

/// What stood when boot's records were frozen, and how many records were made till then.
#[derive(Clone, Copy)]
pub(crate) struct Mark {
    pub(crate) sizes: Sizes,
    pub(crate) count: usize,
}
