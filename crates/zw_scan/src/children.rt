//! What stands directly below a constant path.
ghost use Rattle.std.specs.Prelude.{◌≡◌, ◌<◌, List, IfOk, drop, length, map};
ghost use Rattle.zw_def.specs.Text.{Text};
ghost use Rattle.zw_def.specs.Path.{Path as Components};
ghost use Rattle.zw_def.specs.Tree.{Tree as Files};
ghost use Rattle.zw_def.specs.Layout.{Layout as Shown};
ghost use Rattle.zw_def.specs.Names.{AreNamed, IsDistinct, text_of, texts_of};
ghost use Rattle.zw_def.specs.Map.{expecting_directories, expecting_files};
ghost use Rattle.zw_scan.specs.Children.{child_of, child_with, children_of, first_of, rows_of};
ghost use Rattle.zw_scan.specs.ChildSeen.{child_seen, children_seen};
ghost use Rattle.zw_scan.specs.IsScan.{IsScan};

use crate::scan::Scan;
use std::alloc::{AllocError, Global};
use zw_names::{CPath, Name};
use zw_path::Path;

/// A child of a constant path.
#[derive(Drop)]
pub struct ChildRow {
    /// Its last name.
    pub name: Name,
    /// The first file that is expected to define it.
    pub winner: Option<Path>,
    /// The directories that are expected to define it, in root order and then in path order.
    pub directories: Vec<Path>,
    /// The other files that are expected to define it, in root order and then in path order.
    pub shadowed: Vec<Path>,
}

/// What stands directly below a constant path.
#[derive(Drop)]
pub struct Children {
    /// The children, in byte order of names.
    pub rows: Vec<ChildRow>,
    /// The path up to the first wrong name there, in root order and then in path order.
    pub wrong: Option<Path>,
}

fn first_copy(alloc: Global, paths: &[Path]) -> Result<Option<Path>, AllocError>
    ensures { IfOk result (λ first. first ≡ first_of paths.now) }
{
    match paths.first() {
        Some(path) => Ok(Some(path.copy(alloc)?)),
        None => Ok(None),
    }
}

/// Copies of the paths from a place on.
fn copies(alloc: Global, paths: &[Path], start: usize) -> Result<Vec<Path>, AllocError>
    ensures { IfOk result (λ copies. copies.items ≡ drop start paths.now) }
{
    let mut copies = Vec::new(alloc);
    for place in start..paths.len() {
        copies.push(paths[place].copy(alloc)?)?;
    }
    Ok(copies)
}

impl Scan {
    /// The child of this name.
    fn child_row(&self, alloc: Global, path: &CPath, name: Name) -> Result<ChildRow, AllocError>
        ensures { IfOk result (λ row. (names : List Text) (layout : Shown) (tree : Files) →
            IsScan names layout tree self.now → IsDistinct names → AreNamed names path.now → name.0 < length names →
            child_seen names row ≡ child_of (expecting_files layout tree) (expecting_directories layout tree)
            (texts_of names path.now) (text_of names name.0)) }
    {
        let child = path.child(alloc, name)?;
        let files = self.files_at(alloc, &child)?;
        let winner = first_copy(alloc, files)?;
        let shadowed = copies(alloc, files, 1)?;
        let directories = copies(alloc, self.directories_at(alloc, &child)?, 0)?;
        Ok(ChildRow {
            name,
            winner,
            directories,
            shadowed,
        })
    }

    /// For each child of the constant path the file that wins, the directories, and the files that are shadowed.
    fn child_rows(&self, alloc: Global, path: &CPath) -> Result<Vec<ChildRow>, AllocError>
        ensures { IfOk result (λ rows. (names : List Text) (layout : Shown) (tree : Files) →
            IsScan names layout tree self.now → IsDistinct names → AreNamed names path.now →
            map (child_seen names) rows.items ≡ rows_of layout tree (texts_of names path.now)) }
    {
        let mut rows = Vec::new(alloc);
        for name in &self.names_below(alloc, path)? {
            rows.push(self.child_row(alloc, path, *name)?)?;
        }
        Ok(rows)
    }

    /// What stands directly below the constant path. The scan knows nothing of boot.
    pub fn children(&self, alloc: Global, path: &CPath) -> Result<Children, AllocError>
        ensures { IfOk result (λ children. (names : List Text) (layout : Shown) (tree : Files) →
            IsScan names layout tree self.now → IsDistinct names → AreNamed names path.now →
            children_seen names children ≡ children_of layout tree (texts_of names path.now)) }
    {
        let rows = self.child_rows(alloc, path)?;
        let wrong = self.wrong_below(alloc, path)?;
        Ok(Children { rows, wrong })
    }
}
