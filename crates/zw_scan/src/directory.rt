//! The directories that count (Zeitwerk README, "Implicit namespaces" and "Collapsing directories").
ghost use Rattle.std.specs.Prelude.{◌≡◌, ◌≤◌, ◌++◌, List, Some, IfOk, IfSome, OnOk, length, map, filter_map, option_map, string_bytes};
ghost use Rattle.std.specs.List.{All};
ghost use Rattle.zw_def.specs.Text.{Text};
ghost use Rattle.zw_def.specs.Names.{AreNamed, OnlyGrows};
ghost use Rattle.zw_def.specs.Tree.{Tree};
ghost use Rattle.zw_def.specs.Visible.{visible_files};
ghost use Rattle.zw_inflect.specs.Layout.{layout_seen, root_seen};
ghost use Rattle.zw_layout.specs.Expects.{AreNamespacesNamed};
ghost use Rattle.zw_tree.specs.Strict.{IsTree};
ghost use Rattle.zw_scan.specs.Directories.{shared, new_above, directories_below};
ghost use Rattle.zw_scan.specs.ClaimTold.{directory_told, directories_told, directories_above_told};
ghost use Rattle.zw_scan.specs.ClaimSeen.{IsNamed, claim_seen};

use crate::claim::{Claim, push_some, with_path};
use std::alloc::{AllocError, Global};
use zw_inflect::{Layout, Root};
use zw_layout::{ExpectFault, belongs_to, directory_path, is_collapsed};
use zw_names::Names;
use zw_path::Path;

/// How many components the paths begin with alike.
fn shared(path: &[String], other: &[String]) -> usize
    ensures { result ≡ shared (map string_bytes path.now) (map string_bytes other.now) }
{
    for place in 0..path.len() {
        if place == other.len() {
            return place;
        }
        if path[place] != other[place] {
            return place;
        }
    }
    path.len()
}

/// Adds the directories above the path, of which the path before has none.
fn push_above(
    alloc: Global,
    directories: &mut Vec<Path>,
    previous: &Path,
    path: &Path,
) -> Result<(), AllocError>
    ensures { OnOk result (directories.new.items ≡ directories.old.items ++ new_above previous.now path.now) }
{
    let start = shared(previous.components(), path.components());
    for depth in start..path.components().len() - 1 {
        directories.push(path.beginning(alloc, depth + 1)?)?;
    }
    Ok(())
}

/// The directories below the root, from the visible files in path order.
fn directories_of<'a>(
    alloc: Global,
    layout: &Layout,
    root: &'a Root,
    files: &'a [Claim],
) -> Result<Vec<Path>, AllocError>
    ensures { IfOk result (λ directories. (names : List Text) → directories.items ≡ directories_below
        (layout_seen names layout.now) (root_seen names root.now) (map (λ f. f.path) files.now)) }
{
    let mut directories = Vec::new(alloc);
    let mut previous = &root.path;
    for file in files {
        if belongs_to(layout, root, &file.path) {
            push_above(alloc, &mut directories, previous, &file.path)?;
            previous = &file.path;
        }
    }
    Ok(directories)
}

/// The directory, unless it is collapsed.
fn directory_claim(
    alloc: Global,
    layout: &Layout,
    names: &mut Names,
    directory: &Path,
) -> Result<Option<Claim>, AllocError>
    requires { AreNamespacesNamed names.old layout.now }
    ensures told { IfOk result (λ claim. (later : List Text) → OnlyGrows names.new later →
        option_map (claim_seen later) claim ≡ directory_told (layout_seen later layout.now) directory.now) }
    ensures named { IfOk result (λ claim. IfSome claim (IsNamed names.new)) }
    ensures grows { OnlyGrows names.old names.new }
{
    if is_collapsed(layout, directory) {
        return Ok(None);
    }
    match directory_path(alloc, layout, names, directory) {
        Ok(None) => Ok(None),
        Ok(Some(expected)) => with_path(alloc, directory, Ok(expected)),
        Err(ExpectFault::Refused(wrong)) => with_path(alloc, directory, Err(wrong)),
        Err(ExpectFault::Memory) => Err(AllocError),
    }
}

/// Adds what the directories are expected to define, those left out that are collapsed.
fn push_claims(
    alloc: Global,
    layout: &Layout,
    names: &mut Names,
    claims: &mut Vec<Claim>,
    directories: &[Path],
) -> Result<(), AllocError>
    requires layout { AreNamespacesNamed names.old layout.now }
    requires named { All (IsNamed names.old) claims.old.items }
    ensures told { OnOk result ((later : List Text) → OnlyGrows names.new later →
        map (claim_seen later) claims.new.items ≡ map (claim_seen later) claims.old.items
        ++ filter_map (directory_told (layout_seen later layout.now)) directories.now) }
    ensures named { OnOk result (All (IsNamed names.new) claims.new.items) }
    ensures grows { OnlyGrows names.old names.new }
{
    for directory in directories {
        let claim = directory_claim(alloc, layout, names, directory)?;
        push_some(claims, claim)?;
    }
    Ok(())
}

/// What the directories above the files are expected to define, root by root.
fn claims_above(
    alloc: Global,
    layout: &Layout,
    names: &mut Names,
    files: &[Claim],
) -> Result<Vec<Claim>, AllocError>
    requires { AreNamespacesNamed names.old layout.now }
    ensures told { IfOk result (λ claims. (later : List Text) → OnlyGrows names.new later →
        map (claim_seen later) claims.items
        ≡ directories_above_told (layout_seen later layout.now) (map (λ f. f.path) files.now)) }
    ensures named { IfOk result (λ claims. All (IsNamed names.new) claims.items) }
    ensures grows { OnlyGrows names.old names.new }
{
    let mut claims = Vec::new(alloc);
    for root in &layout.roots {
        let directories = directories_of(alloc, layout, root, files)?;
        push_claims(alloc, layout, names, &mut claims, directories.as_slice())?;
    }
    Ok(claims)
}

/// The directories that count and are not collapsed, in root order and then in path order, and what each is expected to
/// define, where these are the visible files of a tree in path order.
pub fn seen_directories(
    alloc: Global,
    layout: &Layout,
    names: &mut Names,
    files: &[Claim],
) -> Result<Vec<Claim>, AllocError>
    requires { AreNamespacesNamed names.old layout.now }
    ensures told { IfOk result (λ claims. (later : List Text) → OnlyGrows names.new later → (tree : Tree) → IsTree tree →
        map (λ f. f.path) files.now ≡ visible_files (layout_seen later layout.now) tree →
        map (claim_seen later) claims.items ≡ directories_told (layout_seen later layout.now) tree) }
    ensures named { IfOk result (λ claims. All (IsNamed names.new) claims.items) }
    ensures grows { OnlyGrows names.old names.new }
{
    claims_above(alloc, layout, names, files)
}
