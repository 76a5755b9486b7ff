//! The way down to a directory and back, without stack for each level: each directory on it is taken out of the one
//! above, and put back at the end.
ghost use Rattle.std.specs.Prelude.{◌<◌, length};

use crate::folder::Folder;

/// A directory on the way, and the place in it where the way goes on, which holds an empty directory meanwhile.
#[derive(Drop)]
pub(crate) struct Level {
    pub(crate) folder: Folder,
    pub(crate) at: usize,
    pub(crate) ghost within: { at < length folder },
}
