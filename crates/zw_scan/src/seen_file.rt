//! The visible files of a tree (Zeitwerk README, "File structure" and "Ignoring parts of the project").
ghost use Rattle.std.specs.Prelude.{◌≡◌, ◌++◌, [], List, Some, IfOk, IfSome, OnOk, map, option_map};
ghost use Rattle.std.specs.List.{All, cons_option, filter};
ghost use Rattle.zw_def.specs.Text.{Text};
ghost use Rattle.zw_def.specs.Names.{AreNamed, OnlyGrows};
ghost use Rattle.zw_def.specs.Visible.{is_visible};
ghost use Rattle.zw_inflect.specs.Layout.{layout_seen};
ghost use Rattle.zw_layout.specs.Expects.{AreNamespacesNamed};
ghost use Rattle.zw_scan.specs.ClaimTold.{file_told, files_told, told_with};
ghost use Rattle.zw_scan.specs.ClaimSeen.{IsNamed, expected_seen, claim_seen};

use crate::claim::{Claim, push_some, with_path};
use std::alloc::{AllocError, Global};
use zw_inflect::Layout;
use zw_layout::{ExpectFault, WrongName, expected_path, is_visible};
use zw_names::{CPath, Names};
use zw_path::Path;

/// The file at the path, if it is visible.
fn seen_file(
    alloc: Global,
    layout: &Layout,
    names: &mut Names,
    path: &Path,
) -> Result<Option<Claim>, AllocError>
    requires { AreNamespacesNamed names.old layout.now }
    ensures told { IfOk result (λ file. (later : List Text) → OnlyGrows names.new later →
        option_map (claim_seen later) file ≡ file_told (layout_seen later layout.now) path.now) }
    ensures named { IfOk result (λ file. IfSome file (IsNamed names.new)) }
    ensures grows { OnlyGrows names.old names.new }
{
    if !is_visible(alloc, layout, path)? {
        return Ok(None);
    }
    match expected_path(alloc, layout, names, path) {
        Ok(None) => Ok(None),
        Ok(Some(expected)) => with_path(alloc, path, Ok(expected)),
        Err(ExpectFault::Refused(wrong)) => with_path(alloc, path, Err(wrong)),
        Err(ExpectFault::Memory) => Err(AllocError),
    }
}

/// The visible ones among files with these paths, in this order, and what each is expected to define.
pub fn seen_files(
    alloc: Global,
    layout: &Layout,
    names: &mut Names,
    paths: &[Path],
) -> Result<Vec<Claim>, AllocError>
    requires { AreNamespacesNamed names.old layout.now }
    ensures told { IfOk result (λ files. (later : List Text) → OnlyGrows names.new later →
        map (claim_seen later) files.items ≡ files_told (layout_seen later layout.now) paths.now) }
    ensures paths { IfOk result (λ files. (later : List Text) → OnlyGrows names.new later →
        map (λ f. f.path) files.items ≡ filter (is_visible (layout_seen later layout.now)) paths.now) }
    ensures named { IfOk result (λ files. All (IsNamed names.new) files.items) }
    ensures grows { OnlyGrows names.old names.new }
{
    let mut files = Vec::new(alloc);
    for path in paths {
        let file = seen_file(alloc, layout, names, path)?;
        push_some(&mut files, file)?;
    }
    Ok(files)
}
