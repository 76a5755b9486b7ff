//! Paths of a tree, and patterns over them. A path is a list of components, and its text is these with `/` between
//! them; in a pattern `*` stands for any characters of a component, and a component `**` for any components. The crate
//! stands on the definitions of texts, paths and patterns in `zw_def`. It promises that a text is read as a path
//! exactly where it tells one, else the first thing that is wrong is told; and that comparing and matching take no
//! memory and cannot fail.
#![tactic(auto)]

mod bad_path;
mod component;
mod path;
mod pattern;
mod symbol;

pub use bad_path::{BadPath, PathFault};
pub use path::Path;
pub use pattern::{Pattern, matches_component};
