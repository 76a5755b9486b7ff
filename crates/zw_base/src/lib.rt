//! What several crates want and the standard library has not: an error that is a refusal or want of memory, and the
//! tests of plain words. It stands on the definitions of texts in `zw_def`. It promises that want of memory becomes
//! `Memory` and nothing else, and that each test answers as its definition does.
#![tactic(auto)]

mod fault;
mod plain;

pub use fault::Fault;
pub use plain::{are_digits, are_plain, is_plain_word};
