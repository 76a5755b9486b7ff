//! The tree of files that is edited, and the one that is mounted. Files are kept by directories, each a list of entries
//! by name. The crate stands on the definitions of trees in `zw_def`, on the paths of `zw_path` and on the steps of
//! `zw_meter`. It promises that each edit does exactly what it says or is refused for the first reason that holds, that
//! a mount makes the trees equal and tells the paths that were edited, and that entries and texts are those of the tree.
//! Nothing here takes stack for each level of a path.
#![tactic(auto)]

mod directory;
mod edit;
mod entry;
mod fault;
mod folder;
mod ruby;
mod seek;
mod shared;
mod staged;
mod trail;
mod tree;
mod walk;

pub use directory::Directory;
pub use entry::Entry;
pub use fault::{EditFault, TreeFault};
pub use ruby::is_ruby;
pub use staged::{StagedTree, Touched};
pub use tree::Tree;
