//! Directories: entries by name, of files and of further directories.
ghost use Rattle.std.specs.Prelude.{◌≡◌};

use crate::entry::Entry as Listing;
use crate::shared::Shared;
use std::alloc::{AllocError, Global};
use std::marker::Model;
use std::mem;

/// A directory. A clause sees its rows: the names in their order, and what each stands for.
#[cycle(folder)]
pub(crate) struct Folder {
    entries: Vec<Box<Entry>>,
}

/// A file or a directory with its name.
#[cycle(folder)]
#[derive(Drop)]
pub(crate) struct Entry {
    pub(crate) name: String,
    pub(crate) node: Node,
}

/// What a name stands for.
#[cycle(folder)]
#[derive(Drop)]
pub(crate) enum Node {
    File(Shared),
    Directory(Folder),
}

impl Model for Folder {
    ghost use Rattle.std.specs.Prelude.{List};
    ghost use Rattle.zw_tree.specs.Row.{Row};

    ghost Value = { List Row };

    ghost use Rattle.zw_tree.specs.Code.{coded_rows};

    ghost coded = { coded_rows };

    ghost use Rattle.zw_tree.specs.Row.{count};
    ghost use Rattle.zw_tree.specs.Seen.{rows_seen};

    ghost view = { λ f. rows_seen f.entries.items };

    ghost size = { count };

    ghost use Rattle.zw_tree.specs.Falls.{count_falls};
    ghost use Rattle.std.proofs.Common.{arith};

    ghost size_decreases = { λ f h. omega (arith, count_falls f.entries.items) };
}

ghost use Rattle.std.specs.Prelude.{◌<◌, ◌≤◌, ◌==◌, [], length, map, string_bytes, is_some, if◌then◌else◌, IfOk, OnOk, OnErr};
ghost use Rattle.std.specs.List.{insert, remove, slice_get};
ghost use Rattle.std.specs.Option.{option_map};
ghost use Rattle.zw_tree.specs.Row.{file, folder, no_rows, rows_of, rows_within};
ghost use Rattle.zw_tree.specs.RowListed.{is_folder, row_listed};
ghost use Rattle.zw_tree.specs.EntrySeen.{entry_seen};
ghost use Rattle.zw_tree.specs.Seen.{node_seen, row_seen, rows_seen};
ghost use Rattle.zw_tree.specs.NewRow.{new_row};
ghost use Rattle.zw_tree.specs.Sound.{IsSound};
ghost use Rattle.zw_tree.specs.Places.{Places};
ghost use Rattle.zw_tree.specs.Lookup.{file_at, folder_at, with_node};

impl Drop for Folder {
    fn drop(self) {
        let Folder { entries } = self;
        free(entries);
    }
}

impl Folder {
    /// A directory without entries.
    pub(crate) fn new(alloc: Global) -> Folder
        ensures { result ≡ [] }
    {
        Folder {
            entries: Vec::new(alloc),
        }
    }

    /// Whether there is no entry.
    pub(crate) fn is_empty(&self) -> bool
        ensures { result ≡ (length self.now == 0) }
    {
        self.entries.is_empty()
    }

    /// The entries, by their names.
    pub(crate) fn entries(&self) -> &[Box<Entry>]
        ensures { rows_seen result.now ≡ self.now }
    {
        self.entries.as_slice()
    }

    /// Where the entry of this name is, or where it would go.
    pub(crate) fn place(&self, name: &str) -> Result<usize, usize>
        requires { IsSound self.now }
        ensures { Places self.now name.now result }
    {
        self.entries
            .binary_search_by(|entry| entry.name.as_str().cmp(name))
    }

    /// The directory at the place, if one stands there.
    pub(crate) fn folder(&self, at: usize) -> Option<&Folder>
        ensures { option_map (λ f. f.now) result ≡ folder_at self.now at }
    {
        let entry = self.entries.get(at)?;
        match &entry.node {
            Node::File(_) => None,
            Node::Directory(folder) => Some(folder),
        }
    }

    /// The bytes of the file at the place, if one stands there.
    pub(crate) fn file(&self, at: usize) -> Option<&Shared>
        ensures { option_map (λ bytes. bytes.now) result ≡ file_at self.now at }
    {
        let entry = self.entries.get(at)?;
        match &entry.node {
            Node::File(bytes) => Some(bytes),
            Node::Directory(_) => None,
        }
    }

    /// The name of the entry at the place, and whether it is a directory.
    pub(crate) fn entry(&self, at: usize) -> Option<Listing<'_>>
        ensures { option_map entry_seen result ≡ option_map row_listed (slice_get self.now at) }
    {
        let entry = self.entries.get(at)?;
        Some(Listing {
            name: entry.name.as_str(),
            is_dir: entry.node.is_directory(),
        })
    }

    /// The directory at the place, if one stands there. An empty one takes its place.
    pub(crate) fn take_folder(&mut self, alloc: Global, at: usize) -> Option<Folder>
        requires { at < length self.old }
        ensures answer { result ≡ folder_at self.old at }
        ensures rows { self.new ≡ (if is_some result then with_node self.old at (folder no_rows) else self.old) }
    {
        match &mut self.entries[at].node {
            Node::File(_) => None,
            Node::Directory(folder) => Some(mem::replace(folder, Folder::new(alloc))),
        }
    }

    /// Puts a directory at the place.
    pub(crate) fn put_folder(&mut self, at: usize, child: Folder)
        requires { at < length self.old }
        ensures { self.new ≡ with_node self.old at (folder (rows_of child)) }
    {
        self.entries[at].node = Node::Directory(child);
    }

    /// Puts a file at the place.
    pub(crate) fn put_file(&mut self, at: usize, bytes: Shared)
        requires { at < length self.old }
        ensures { self.new ≡ with_node self.old at (file bytes) }
    {
        self.entries[at].node = Node::File(bytes);
    }

    /// Puts a file at the place where none of its first name is: an entry of it, or of the directories that lead to it.
    pub(crate) fn insert(
        &mut self,
        alloc: Global,
        at: usize,
        components: &[String],
        bytes: Shared,
    ) -> Result<(), AllocError>
        requires place { at ≤ length self.old }
        requires some { 0 < length components.now }
        ensures ok { OnOk result (self.new ≡ insert self.old at (new_row (map string_bytes components.now) bytes)) }
        ensures err { OnErr result (self.new ≡ self.old) }
    {
        let entry = Folder::chain(alloc, components, bytes)?;
        self.entries.insert(at, entry)?;
        Ok(())
    }

    /// The entry of a new file: the file itself, or the directories that lead to it.
    fn chain(alloc: Global, components: &[String], bytes: Shared) -> Result<Box<Entry>, AllocError>
        requires { 0 < length components.now }
        ensures { IfOk result (λ e. row_seen e.value ≡ new_row (map string_bytes components.now) bytes) }
    {
        let mut left = components.len() - 1;
        let name = String::from_str(alloc, components[left].as_str())?;
        let node = Node::File(bytes);
        let mut entry = Box::new(alloc, Entry { name, node })?;
        'directories: while left > 0 {
            left -= 1;
            let name = String::from_str(alloc, components[left].as_str())?;
            let mut entries = Vec::new(alloc);
            entries.push(entry)?;
            let node = Node::Directory(Folder { entries });
            entry = Box::new(alloc, Entry { name, node })?;
        }
        Ok(entry)
    }

    /// Takes out the entry at the place.
    pub(crate) fn remove(&mut self, at: usize)
        requires { at < length self.old }
        ensures { self.new ≡ remove self.old at }
    {
        self.entries.remove(at);
    }

    /// The entries, taken out of their directory.
    fn into_entries(self) -> Vec<Box<Entry>>
        ensures { rows_seen result.items ≡ self }
    {
        let Folder { entries } = self;
        entries
    }
}

impl Node {
    fn is_directory(&self) -> bool
        ensures { result ≡ is_folder (node_seen self.now) }
    {
        matches!(self, Node::Directory(_))
    }

    /// The entries of a directory, and none of a file.
    fn into_entries(self, alloc: Global) -> Vec<Box<Entry>>
        ensures { rows_seen result.items ≡ rows_within (node_seen self) }
    {
        match self {
            Node::File(bytes) => {
                drop(bytes);
                Vec::new(alloc)
            }
            Node::Directory(folder) => folder.into_entries(),
        }
    }
}

/// Drops the entries of a directory and all below them, without memory and without stack for each level: the last entry
/// of a directory that is left for one of its own holds the directory above meanwhile.
fn free(mut here: Vec<Box<Entry>>) {
    let alloc = *here.allocator();
    let mut above: Vec<Box<Entry>> = Vec::new(alloc);
    'walk: loop {
        match here.last_mut() {
            Some(entry) => {
                let held = Node::Directory(Folder { entries: above });
                let node = mem::replace(&mut entry.node, held);
                above = here;
                here = node.into_entries(alloc);
            }
            None => {
                here.destroy_empty();
                let Some(entry) = above.pop() else {
                    above.destroy_empty();
                    return;
                };
                let Entry { name, node } = Box::into_inner(entry);
                drop(name);
                here = above;
                above = node.into_entries(alloc);
            }
        }
    }
}
