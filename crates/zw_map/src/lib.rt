//! The map of a tree: its keys, which are constant paths, what each is loaded from, and the files that no key loads. It
//! stands on the scans of `zw_scan`. It promises that each answer is exactly the definition's, made of the whole tree.
#![tactic(auto)]

mod boot;
mod expect;
mod key;
mod named;
mod shadow;
mod sorted;

pub use boot::is_module;
pub use expect::{all_expected, expected};
pub use key::{Key, KeyRow, keys};
pub use named::are_boot_named;
pub use shadow::{Shade, ShadowRow, shadows};
pub use sorted::order;
