//! Edits of the files below a directory.
ghost use Rattle.std.specs.Prelude.{◌≡◌, ◌+◌, ◌<◌, ◌≤◌, [], None, length, map, take, get_or, string_bytes, is_some, IfOk, OnOk, OnErr, false};
ghost use Rattle.std.specs.Vec.{vec_capacity, vec_len};
ghost use Rattle.zw_tree.specs.Row.{told};
ghost use Rattle.zw_tree.specs.Sound.{IsSound};
ghost use Rattle.zw_tree.specs.Places.{Places};
ghost use Rattle.zw_tree.specs.Lookup.{IsNoFolder};
ghost use Rattle.zw_tree.specs.AtEnd.{del_at, put_at};
ghost use Rattle.zw_tree.specs.Edit.{is_blocked, tree_with, without_file};
ghost use Rattle.zw_tree.specs.Trail.{Leads, closed};

use crate::folder::Folder;
use crate::shared::Shared;
use crate::trail::Level;
use std::alloc::{AllocError, Global};
use std::mem;

/// Where a path leads: the innermost directory on it that is there, and where the path's next name is in it, or would
/// go.
struct End {
    here: Folder,
    place: Result<usize, usize>,
}

/// Goes down the path as far as directories are there, and no further than to the directory of its last name.
fn open(alloc: Global, top: Folder, components: &[String], trail: &mut Vec<Level>) -> End
    requires sound { IsSound top }
    requires some { 0 < length components.now }
    requires none { trail.old.items ≡ [] }
    requires room { length components.now ≤ vec_capacity trail.old }
    ensures within { vec_len trail.new < length components.now }
    ensures leads { Leads top (take (vec_len trail.new) (map string_bytes components.now)) trail.new.items result.here }
    ensures place { Places result.here (get_or (map string_bytes components.now) (vec_len trail.new) []) result.place }
    ensures end { vec_len trail.new + 1 < length components.now → IsNoFolder result.here result.place }
{
    let mut here = top;
    'down: loop {
        let depth = trail.len();
        let place = here.place(components[depth].as_str());
        let Ok(at) = place else {
            return End { here, place };
        };
        if depth + 1 == components.len() {
            return End { here, place };
        }
        match here.take_folder(alloc, at) {
            None => return End { here, place },
            Some(below) => {
                trail.push_reserved(Level { folder: here, at });
                here = below;
            }
        }
    }
}

/// Puts the directory back into those above it. An empty one leaves no entry.
fn close(mut trail: Vec<Level>, mut here: Folder) -> Folder
    ensures { result ≡ closed trail.items here }
{
    'up: while let Some(level) = trail.pop() {
        let Level { mut folder, at } = level;
        if here.is_empty() {
            folder.remove(at);
        } else {
            folder.put_folder(at, here);
        }
        here = folder;
    }
    here
}

/// Puts the bytes in place of what stands at the place, or else into a new entry for the path of these components.
fn put_at(
    alloc: Global,
    here: &mut Folder,
    place: Result<usize, usize>,
    components: &[String],
    bytes: Shared,
) -> Result<(), AllocError>
    requires some { 0 < length components.now }
    requires place { Places here.old (get_or (map string_bytes components.now) 0 []) place }
    ensures ok { OnOk result (here.new ≡ put_at here.old (map string_bytes components.now) bytes place) }
    ensures err { OnErr result (here.new ≡ here.old) }
{
    match place {
        Ok(at) => {
            here.put_file(at, bytes);
            Ok(())
        }
        Err(at) => here.insert(alloc, at, components, bytes),
    }
}

/// Takes out a file at the place, where the path ends with its name.
fn del_at(here: &mut Folder, place: Result<usize, usize>, is_last: bool)
    requires { IfOk place (λ at. at < length here.old) }
    ensures { here.new ≡ del_at here.old is_last place }
{
    let Ok(at) = place else {
        return;
    };
    if is_last && here.file(at).is_some() {
        here.remove(at);
    }
}

impl Folder {
    /// Puts the bytes at the path of these components, over a file that is there.
    pub(crate) fn put(
        &mut self,
        alloc: Global,
        components: &[String],
        bytes: Shared,
    ) -> Result<(), AllocError>
        requires sound { IsSound self.old }
        requires some { 0 < length components.now }
        requires free { is_blocked (told self.old) (map string_bytes components.now) ≡ false }
        ensures sound { IsSound self.new }
        ensures ok { OnOk result (told self.new ≡ tree_with (told self.old) (map string_bytes components.now) bytes) }
        ensures err { OnErr result (self.new ≡ self.old) }
    {
        let mut trail = Vec::with_capacity(alloc, components.len())?;
        let top = mem::replace(self, Folder::new(alloc));
        let End { mut here, place } = open(alloc, top, components, &mut trail);
        let depth = trail.len();
        let put = put_at(alloc, &mut here, place, &components[depth..], bytes);
        *self = close(trail, here);
        put
    }

    /// Takes out the file at the path of these components, and each directory that it leaves empty.
    pub(crate) fn del(&mut self, alloc: Global, components: &[String]) -> Result<(), AllocError>
        requires sound { IsSound self.old }
        requires some { 0 < length components.now }
        ensures sound { IsSound self.new }
        ensures ok { OnOk result (told self.new ≡ without_file (told self.old) (map string_bytes components.now)) }
        ensures err { OnErr result (self.new ≡ self.old) }
    {
        let mut trail = Vec::with_capacity(alloc, components.len())?;
        let top = mem::replace(self, Folder::new(alloc));
        let End { mut here, place } = open(alloc, top, components, &mut trail);
        let depth = trail.len();
        let is_last = depth + 1 == components.len();
        del_at(&mut here, place, is_last);
        *self = close(trail, here);
        Ok(())
    }
}
