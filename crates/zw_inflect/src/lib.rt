//! Names of constants from names of files, and layouts: the roots with their namespaces, the patterns, and the
//! inflector. It stands on `zw_names` for names of constants, on `zw_path` for paths and patterns, and on
//! `indexmap` for overrides. It promises that `Inflector::camelize` gives exactly the name that the definition
//! makes of a base, and refuses it exactly where that is no constant's name; and that copies are what they are
//! copies of.
#![tactic(auto)]

mod inflector;
mod layout;
mod overrides;
mod parts;

pub use inflector::{InflectFault, Inflector, WrongName};
pub use layout::{Layout, Root};
pub use overrides::Overrides;
