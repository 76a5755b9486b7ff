//! Evaluates expressions over the class files of a tree. It stands on the definitions of class files and of evaluation,
//! on trees and paths, and on names told by numbers, by which keys and classes are found in `indexmap`s. It promises
//! that a session answers each expression, and changes, as its world does: the map of its tree, the constants that are
//! set and the keys that are gone; that each file is evaluated at most once; and that a tree is refused exactly at the
//! first file that is not carried out so far.
#![tactic(auto)]

mod class_file;
mod expression;
mod file;
mod inflector;
mod keys;
mod session;
mod table;
mod words;

pub use file::File;
pub use session::{NotBuilt, Session, SessionFault};
