//! Names told by numbers, and constant paths, which are lists of such names. It stands on `indexmap`, which finds a
//! name's number, and on `unicode_ident`, which tells the characters of a constant. It promises that two names are
//! equal exactly where their texts are, that names stay as they are once they are made, and that paths are read and
//! written as the definitions of constant paths say.
#![tactic(auto)]

mod names;
mod parts;
mod path;

pub use names::{EntryId, Name, Names};
pub use parts::{is_constant, is_cpath};
pub use path::{BadCPath, CPath, CPathFault};
