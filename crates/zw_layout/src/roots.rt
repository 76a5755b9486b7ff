//! Roots, and the paths that belong to them (Zeitwerk README, "Root directories and root namespaces" and "Nested root
//! directories").
ghost use Rattle.std.specs.Prelude.{◌≡◌, List, true, IfSome, map, string_bytes, option_map};
ghost use Rattle.std.specs.List.{fold, Contains};
ghost use Rattle.zw_def.specs.Text.{Text};
ghost use Rattle.zw_def.specs.Path.{is_below};
ghost use Rattle.zw_def.specs.Layout as defined;
ghost use Rattle.zw_inflect.specs.Layout.{root_seen, layout_seen};
ghost use Rattle.zw_layout.specs.Deepest.{deeper, held, is_deeper};

use zw_inflect::{Layout, Root};
use zw_path::Path;

/// Whether the path of these components stands below the directory.
fn is_below(components: &[String], directory: &[String]) -> bool
    ensures { result ≡ is_below (map string_bytes components.now) (map string_bytes directory.now) }
{
    directory.len() < components.len() && components.starts_with(directory)
}

fn is_deeper(root: &Root, best: Option<&Root>) -> bool
    ensures { result ≡ is_deeper root.now (held best.entry) }
{
    match best {
        Some(other) => other.path.components().len() < root.path.components().len(),
        None => true,
    }
}

/// The deeper one of two roots, if the next one contains the path at all.
fn deeper<'a>(components: &[String], best: Option<&'a Root>, root: &'a Root) -> Option<&'a Root>
    ensures { held result ≡ deeper (map string_bytes components.now) (held best.entry) root.now }
{
    if is_below(components, root.path.components()) && is_deeper(root, best) {
        Some(root)
    } else {
        best
    }
}

/// The root to which the path of these components belongs, if it stands below one.
pub fn root_at<'a>(layout: &'a Layout, components: &[String]) -> Option<&'a Root>
    ensures root { (names : List Text) → option_map (root_seen names) (held result)
        ≡ defined.root_of (layout_seen names layout.now) (map string_bytes components.now) }
    ensures among { IfSome (held result) (Contains layout.now.roots.items) }
    ensures below { IfSome (held result) (λ root. is_below (map string_bytes components.now) root.path ≡ true) }
{
    let mut best: Option<&Root> = None;
    for root in &layout.roots {
        best = deeper(components, best, root);
    }
    best
}

/// The root to which a path belongs: the deepest one that contains it.
pub fn root_of<'a>(layout: &'a Layout, path: &Path) -> Option<&'a Root>
    ensures root { (names : List Text) →
        option_map (root_seen names) (held result) ≡ defined.root_of (layout_seen names layout.now) path.now }
    ensures among { IfSome (held result) (Contains layout.now.roots.items) }
    ensures below { IfSome (held result) (λ root. is_below path.now root.path ≡ true) }
{
    root_at(layout, path.components())
}

/// Whether the path is that of a root.
pub fn is_root(layout: &Layout, path: &Path) -> bool
    ensures { (names : List Text) → result ≡ defined.is_root (layout_seen names layout.now) path.now }
{
    for root in &layout.roots {
        if root.path == *path {
            return true;
        }
    }
    false
}

/// Whether the root is the one to which the path belongs.
pub fn belongs_to(layout: &Layout, root: &Root, path: &Path) -> bool
    ensures { (names : List Text) →
        result ≡ defined.belongs_to (layout_seen names layout.now) (root_seen names root.now) path.now }
{
    match root_of(layout, path) {
        Some(deepest) => deepest.path == root.path,
        None => false,
    }
}
