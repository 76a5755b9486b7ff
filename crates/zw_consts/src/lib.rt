//! Tables of constants, ancestors, and the modules that a constant is asked of. It stands on `zw_heap` for modules and
//! values, on the definitions of ancestors and look-ups in `zw_def_world`, and on `indexmap`, which keeps constants in
//! the order in which they were first set. It promises that a slot that is read is the slot that was written last, that
//! each change is one of that slot alone, and that ancestors and the modules that are asked are those of the definition,
//! each once and in its order.
#![tactic(auto)]

mod ancestor;
mod consts;
mod law;
mod line;
mod look_up;
mod scope;
mod slot;
mod table;
mod tables;

pub use ancestor::{ancestors, superclasses};
pub use consts::Consts;
pub use law::{ancestors_are_reached, tells_ancestors, tells_superclasses, tells_walk};
pub use look_up::{walk, walk_below};
pub use scope::Placed;
pub use slot::Slot;
pub use tables::Tables;
