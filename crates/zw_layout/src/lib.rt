//! What a layout says of one path: the root to which it belongs, whether it is ignored, collapsed or left out of eager
//! loading, and the constant path that a file or a directory is expected to define. It stands on the layouts of
//! `zw_inflect`, the patterns of `zw_path` and the names of `zw_names`. It promises that each answer is exactly the
//! definition's.
#![tactic(auto)]

mod covered;
mod expected;
mod named;
mod progress;
mod roots;

pub use covered::{is_collapsed, is_ignored, is_not_eager, is_visible};
pub use expected::{ExpectFault, WrongName, directory_path, expected_path, namespace_above};
pub use named::are_namespaces_named;
pub use progress::Progress;
pub use roots::{belongs_to, is_root, root_at, root_of};
