//! What patterns of a layout stand for (Zeitwerk README, "Ignoring parts of the project", "Collapsing directories" and
//! "Eager load exclusions").
ghost use Rattle.std.specs.Prelude.{◌≡◌, List, IfOk, map, string_bytes};
ghost use Rattle.zw_def.specs.Text.{Text};
ghost use Rattle.zw_def.specs.Layout as defined;
ghost use Rattle.zw_def.specs.Visible as shown;
ghost use Rattle.zw_inflect.specs.Layout.{layout_seen};

use crate::progress::Progress;
use crate::roots::root_of;
use std::alloc::{AllocError, Global};
use zw_inflect::Layout;
use zw_path::{Path, Pattern};

/// Whether one of the patterns stands for the path of these components, or for a directory above it.
fn some_covers(
    alloc: Global,
    patterns: &[Pattern],
    components: &[String],
) -> Result<bool, AllocError>
    ensures { IfOk result (λ covers. covers ≡ defined.some_covers patterns.now (map string_bytes components.now)) }
{
    let mut progress = Progress::new(alloc, patterns)?;
    for depth in 0..components.len() {
        progress = progress.after(alloc, patterns, components, depth)?;
        if progress.is_match() {
            return Ok(true);
        }
    }
    Ok(false)
}

/// Whether the directory adds no name.
pub fn is_collapsed(layout: &Layout, directory: &Path) -> bool
    ensures { (names : List Text) → result ≡ defined.is_collapsed (layout_seen names layout.now) directory.now }
{
    for pattern in &layout.collapse {
        if pattern.matches(directory) {
            return true;
        }
    }
    false
}

/// Whether the path, or a directory above it, is not loaded.
pub fn is_ignored(alloc: Global, layout: &Layout, path: &Path) -> Result<bool, AllocError>
    ensures { IfOk result (λ ignored.
        (names : List Text) → ignored ≡ defined.is_ignored (layout_seen names layout.now) path.now) }
{
    some_covers(alloc, &layout.ignore, path.components())
}

/// Whether the path, or a directory above it, is left out of eager loading.
pub fn is_not_eager(alloc: Global, layout: &Layout, path: &Path) -> Result<bool, AllocError>
    ensures { IfOk result (λ excluded.
        (names : List Text) → excluded ≡ defined.is_not_eager (layout_seen names layout.now) path.now) }
{
    some_covers(alloc, &layout.no_eager, path.components())
}

/// Whether a file at the path is seen: it stands below a root, and is not ignored.
pub fn is_visible(alloc: Global, layout: &Layout, path: &Path) -> Result<bool, AllocError>
    ensures { IfOk result (λ visible.
        (names : List Text) → visible ≡ shown.is_visible (layout_seen names layout.now) path.now) }
{
    let is_ignored = is_ignored(alloc, layout, path)?;
    Ok(root_of(layout, path).is_some() && !is_ignored)
}
