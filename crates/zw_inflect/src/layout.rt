//! Layouts.
ghost use Rattle.std.specs.Prelude.{◌≡◌, List, IfOk, map};
ghost use Rattle.zw_def.specs.Text.{Text};
ghost use Rattle.zw_inflect.specs.Layout.{root_seen, layout_seen};

use crate::inflector::Inflector;
use std::alloc::{AllocError, Global};
use zw_names::CPath;
use zw_path::{Path, Pattern};

/// A directory whose files are loaded below a namespace (Zeitwerk README, "Root directories and root namespaces").
#[derive(Drop)]
pub struct Root {
    /// The directory.
    pub path: Path,
    /// The module that its files are loaded into; the empty path is `Object`.
    pub namespace: CPath,
}

/// Where files are loaded from, and under which names.
#[derive(Drop)]
pub struct Layout {
    /// In the order of the configuration.
    pub roots: Vec<Root>,
    /// What is not loaded (Zeitwerk README, "Ignoring parts of the project").
    pub ignore: Vec<Pattern>,
    /// The directories that add no name (Zeitwerk README, "Collapsing directories").
    pub collapse: Vec<Pattern>,
    /// What is left out of eager loading (Zeitwerk README, "Eager load exclusions").
    pub no_eager: Vec<Pattern>,
    /// How names of constants are made.
    pub inflector: Inflector,
}

fn copy_root(alloc: Global, root: &Root) -> Result<Root, AllocError>
    ensures { IfOk result (λ copy. (names : List Text) → root_seen names copy ≡ root_seen names root.now) }
{
    Ok(Root {
        path: root.path.copy(alloc)?,
        namespace: root.namespace.copy(alloc)?,
    })
}

fn copy_roots(alloc: Global, roots: &[Root]) -> Result<Vec<Root>, AllocError>
    ensures { IfOk result (λ copies.
        (names : List Text) → map (root_seen names) copies.items ≡ map (root_seen names) roots.now) }
{
    let mut copies = Vec::new(alloc);
    for root in roots {
        copies.push(copy_root(alloc, root)?)?;
    }
    Ok(copies)
}

fn copy_patterns(alloc: Global, patterns: &[Pattern]) -> Result<Vec<Pattern>, AllocError>
    ensures { IfOk result (λ copies. copies.items ≡ patterns.now) }
{
    let mut copies = Vec::new(alloc);
    for pattern in patterns {
        copies.push(pattern.copy(alloc)?)?;
    }
    Ok(copies)
}

impl Layout {
    /// The same layout.
    pub fn copy(&self, alloc: Global) -> Result<Layout, AllocError>
        ensures { IfOk result (λ copy. (names : List Text) → layout_seen names copy ≡ layout_seen names self.now) }
    {
        Ok(Layout {
            roots: copy_roots(alloc, &self.roots)?,
            ignore: copy_patterns(alloc, &self.ignore)?,
            collapse: copy_patterns(alloc, &self.collapse)?,
            no_eager: copy_patterns(alloc, &self.no_eager)?,
            inflector: self.inflector.copy(alloc)?,
        })
    }
}
