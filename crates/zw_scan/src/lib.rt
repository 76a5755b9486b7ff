//! What a layout shows of a tree, made once for all its files. It stands on `zw_layout`, which says it of one path, and
//! on the names and paths below. It promises that the visible files and the directories that count, with what each is
//! expected to define, and what stands directly below a constant path, with the first wrong name there, are exactly those
//! that the definitions give, for all names to come.
#![tactic(auto)]

mod children;
mod claim;
mod directory;
mod file_count;
mod found;
mod name_table;
mod scan;
mod seen_file;
mod table;
mod wrong;

pub use children::{ChildRow, Children};
pub use claim::Claim;
pub use directory::seen_directories;
pub use found::{Found, in_order};
pub use scan::Scan;
pub use seen_file::seen_files;
