//! What a directory lists.

/// A file or a directory of a directory, by its name.
#[derive(Clone, Copy, Debug, PartialEq, Eq)]
pub struct Entry<'a> {
    pub name: &'a str,
    pub is_dir: bool,
}
