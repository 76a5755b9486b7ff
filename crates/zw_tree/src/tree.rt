//! The tree of files.
ghost use Rattle.std.specs.Prelude.{◌≡◌, ◌+◌, [], false, IfOk, OnOk, OnErr};
ghost use Rattle.std.specs.List.{slice_get};
ghost use Rattle.std.specs.Option.{option_map};
ghost use Rattle.zw_tree.specs.Entries.{entries_of};
ghost use Rattle.zw_tree.specs.EntrySeen.{entry_seen};
ghost use Rattle.zw_def.specs.Tree.{is_in_the_way};
ghost use Rattle.zw_def.specs.Visible.{keys_of};
ghost use Rattle.zw_tree.specs.Strict.{IsTree};
ghost use Rattle.zw_tree.specs.Text.{text_at};
ghost use Rattle.zw_tree.specs.Edit.{is_blocked, tree_with, without_file};
ghost use Rattle.zw_tree.specs.Held.{Holds};
ghost use Rattle.zw_tree.specs.Spot.{spot_blocked, spot_text};

use crate::directory::Directory;
use crate::entry::Entry;
use crate::folder::Folder;
use crate::seek::Spot;
use crate::shared::Shared;
use std::alloc::{AllocError, Global};
use std::marker::Model;
use std::sync::ledger::Ledger;
use zw_meter::Steps;
use zw_path::Path;

/// The files of a tree, kept by directories. A clause sees the tree as the list of its files in path order.
#[derive(Drop)]
pub struct Tree {
    top: Folder,
}

impl Model for Tree {
    ghost use Rattle.zw_def.specs.Tree.{Tree as Files};
    ghost use Rattle.zw_tree.specs.Row.{told};
    ghost use Rattle.zw_tree.specs.Sound.{IsSound};
    ghost use Rattle.zw_tree.specs.Strict.{ArePaths};

    ghost Value = { Files };

    ghost view = { λ t. told t.top };

    ghost invariant = { λ t. IsSound t.top × ArePaths (told t.top) };
}

impl Tree {
    /// A tree without files.
    pub(crate) fn new(alloc: Global) -> Tree
        ensures { result ≡ [] }
    {
        Tree {
            top: Folder::new(alloc),
        }
    }

    /// The bytes of the file at the path, if there is one.
    pub fn text(&self, path: &Path) -> Option<&[u8]>
        ensures { option_map (λ text. text.now) result ≡ text_at path.now self.now }
    {
        self.bytes(path).map(|bytes| bytes.get())
    }

    /// The bytes of the file at the path, with their owners.
    pub(crate) fn bytes(&self, path: &Path) -> Option<&Shared>
        ensures { option_map (λ bytes. bytes.now) result ≡ text_at path.now self.now }
    {
        match self.seek(path) {
            Spot::File(bytes) => Some(bytes),
            Spot::Blocked => None,
            Spot::Free => None,
        }
    }

    /// The directory of the whole tree.
    pub fn root(&self) -> Directory<'_>
        ensures { result ≡ self.now }
    {
        Directory { folder: &self.top }
    }

    /// The k-th file or directory of the directory by name bytes, from 0, at one step.
    pub fn entry<L: Ledger>(&self, dir: &Path, k: usize, steps: &mut Steps<L>) -> Option<Entry<'_>>
        ensures entry { option_map entry_seen result ≡ slice_get (entries_of dir.now self.now) k }
        ensures steps { steps.new ≡ steps.old + 1 }
    {
        steps.visit();
        match self.top.directory(dir.components()) {
            Some(folder) => folder.entry(k),
            None => None,
        }
    }

    /// What stands at the path.
    pub(crate) fn seek(&self, path: &Path) -> Spot<'_>
        ensures text { spot_text result ≡ text_at path.now self.now }
        ensures blocked { spot_blocked result ≡ is_blocked self.now path.now }
    {
        self.top.seek(path.components())
    }

    /// How many files and bytes stand at the path: those of one file, or none. None where something is in the way.
    pub(crate) fn held(&self, path: &Path) -> Option<(usize, usize)>
        ensures { Holds self.now path.now result }
    {
        match self.seek(path) {
            Spot::File(bytes) => Some((1, bytes.get().len())),
            Spot::Blocked => None,
            Spot::Free => Some((0, 0)),
        }
    }

    /// Whether the path is that of a file or of a directory, or stands below a file.
    pub(crate) fn is_in_the_way(&self, path: &Path) -> bool
        ensures { result ≡ is_in_the_way self.now path.now }
    {
        match self.seek(path) {
            Spot::File(_) => true,
            Spot::Blocked => true,
            Spot::Free => false,
        }
    }

    /// The paths of all files, in path order.
    pub fn paths(&self, alloc: Global) -> Result<Vec<Path>, AllocError>
        ensures { IfOk result (λ paths. paths.items ≡ keys_of self.now) }
    {
        self.top.paths(alloc)
    }

    /// The paths rise, and none stands below another.
    pub fn is_tree(&self)
        ensures { IsTree self.now }
    {
        let _ = &self.top;
    }

    /// Puts the bytes at the path, over a file that is there.
    pub(crate) fn put(
        &mut self,
        alloc: Global,
        path: &Path,
        bytes: Shared,
    ) -> Result<(), AllocError>
        requires free { is_blocked self.old path.now ≡ false }
        ensures ok { OnOk result (self.new ≡ tree_with self.old path.now bytes) }
        ensures err { OnErr result (self.new ≡ self.old) }
    {
        self.top.put(alloc, path.components(), bytes)
    }

    /// Takes out the file at the path, if there is one.
    pub(crate) fn del(&mut self, alloc: Global, path: &Path) -> Result<(), AllocError>
        ensures ok { OnOk result (self.new ≡ without_file self.old path.now) }
        ensures err { OnErr result (self.new ≡ self.old) }
    {
        self.top.del(alloc, path.components())
    }
}
