//! Directories of a tree, for a walk that goes down without a path from the top each time.
ghost use Rattle.std.specs.Prelude.{◌≡◌, ◌+◌};
ghost use Rattle.std.specs.List.{slice_get};
ghost use Rattle.std.specs.Option.{option_map};
ghost use Rattle.zw_tree.specs.Entries.{child_at, first_names};
ghost use Rattle.zw_tree.specs.EntrySeen.{entry_seen};

use crate::entry::Entry;
use crate::folder::Folder;
use std::marker::Model;
use std::sync::ledger::Ledger;
use zw_meter::Steps;

/// A directory of a tree. A clause sees the files below it, by their paths from there.
#[derive(Drop)]
pub struct Directory<'a> {
    pub(crate) folder: &'a Folder,
}

impl<'a> Model for Directory<'a> {
    ghost use Rattle.zw_def.specs.Tree.{Tree as Files};
    ghost use Rattle.zw_tree.specs.Row.{told};
    ghost use Rattle.zw_tree.specs.Sound.{IsSound};

    ghost Value = { Files };

    ghost view = { λ d. told d.folder.now };

    ghost invariant = { λ d. IsSound d.folder.now };
}

impl<'a> Directory<'a> {
    /// The k-th file or directory of this one by name bytes, from 0, at one step.
    pub fn entry<L: Ledger>(&self, k: usize, steps: &mut Steps<L>) -> Option<Entry<'a>>
        ensures entry { option_map entry_seen result ≡ slice_get (first_names self.now) k }
        ensures steps { steps.new ≡ steps.old + 1 }
    {
        steps.visit();
        self.folder.entry(k)
    }

    /// The k-th entry, where it is a directory.
    pub fn directory(&self, k: usize) -> Option<Directory<'a>>
        ensures { result ≡ child_at k self.now }
    {
        match self.folder.folder(k) {
            Some(folder) => Some(Directory { folder }),
            None => None,
        }
    }
}
