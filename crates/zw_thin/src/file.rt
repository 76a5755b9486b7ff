//! Files of a tree, as a session takes them.

use zw_path::Path;

/// A file of a tree, with its bytes.
#[derive(Drop)]
pub struct File<'a> {
    /// Its path.
    pub path: Path,
    /// Its bytes.
    pub text: &'a [u8],
}
