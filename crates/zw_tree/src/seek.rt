//! What stands at a path.
ghost use Rattle.std.specs.Prelude.{◌≡◌, ◌<◌, Some, None, not, IfSome, length, map, string_bytes, if◌then◌else◌};
ghost use Rattle.zw_tree.specs.Row.{told};
ghost use Rattle.zw_tree.specs.Sound.{IsSound};
ghost use Rattle.zw_tree.specs.Text.{text_at};
ghost use Rattle.zw_tree.specs.Edit.{is_blocked};
ghost use Rattle.zw_tree.specs.Entries.{tree_below};
ghost use Rattle.zw_tree.specs.Spot.{folder_files, spot_blocked, spot_text};

use crate::folder::Folder;
use crate::shared::Shared;

/// What stands at a path.
#[derive(Clone, Copy)]
pub(crate) enum Spot<'a> {
    /// A file with these bytes.
    File(&'a Shared),
    /// The path is a directory, or stands below a file.
    Blocked,
    /// Nothing is in the way of a file.
    Free,
}

impl Folder {
    /// What stands at the path of these components.
    pub(crate) fn seek(&self, components: &[String]) -> Spot<'_>
        requires sound { IsSound self.now }
        requires some { 0 < length components.now }
        ensures text { spot_text result ≡ text_at (map string_bytes components.now) (told self.now) }
        ensures blocked { spot_blocked result ≡ is_blocked (told self.now) (map string_bytes components.now) }
    {
        let mut here = self;
        let mut depth = 0;
        'down: loop {
            let is_last = depth + 1 == components.len();
            let Ok(at) = here.place(components[depth].as_str()) else {
                return Spot::Free;
            };
            if let Some(bytes) = here.file(at) {
                return file_or_blocked(bytes, is_last);
            }
            let Some(below) = here.folder(at) else {
                return Spot::Blocked;
            };
            if is_last {
                return Spot::Blocked;
            }
            here = below;
            depth += 1;
        }
    }

    /// The directory at the path of these components, which may be none.
    pub(crate) fn directory(&self, components: &[String]) -> Option<&Folder>
        requires { IsSound self.now }
        ensures sound { IfSome result (λ f. IsSound f.now) }
        ensures files { folder_files result ≡ tree_below (map string_bytes components.now) (told self.now) }
    {
        let mut here = self;
        for name in components {
            let Ok(at) = here.place(name.as_str()) else {
                return None;
            };
            let Some(below) = here.folder(at) else {
                return None;
            };
            here = below;
        }
        Some(here)
    }
}

/// A file that the path ends at, or goes on below.
fn file_or_blocked(bytes: &Shared, is_last: bool) -> Spot<'_>
    ensures text { spot_text result ≡ (if is_last then Some bytes.now else None) }
    ensures blocked { spot_blocked result ≡ not is_last }
{
    if is_last {
        Spot::File(bytes)
    } else {
        Spot::Blocked
    }
}
