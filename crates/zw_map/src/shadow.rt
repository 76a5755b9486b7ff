//! Files that no key loads although they are expected to define a constant (Zeitwerk README, "Shadowed files").
ghost use Rattle.std.specs.Prelude.{◌≡◌, ◌++◌, [], List, Some, IfOk, IfSome, OnOk, map, option_map};
ghost use Rattle.std.specs.List.{All, cons_option};
ghost use Rattle.zw_def.specs.Text.{Text};
ghost use Rattle.zw_def.specs.Tree.{Tree as Files};
ghost use Rattle.zw_def.specs.Layout.{Layout as Shown};
ghost use Rattle.zw_def.specs.Names.{AreNamed, IsDistinct, texts_of};
ghost use Rattle.zw_def.specs.Map.{expecting_files, kept_out_by};
ghost use Rattle.zw_def.specs.Shadow.{shadowed, shadowed_as, unless_defined};
ghost use Rattle.zw_scan.specs.ClaimSeen.{IsNamed, expected_seen};
ghost use Rattle.zw_scan.specs.IsScan.{IsScan, IsScanNamed};
ghost use Rattle.zw_map.specs.BootSeen.{AreBootNamed, boot_seen};
ghost use Rattle.zw_map.specs.ShadowSeen.{IsShadowNamed, after_winner, row_of, shadow_seen};

use crate::boot::kept_out;
use std::alloc::{AllocError, Global};
use zw_names::{CPath, Names};
use zw_path::Path;
use zw_scan::{Claim, Scan};

/// Why a file is not loaded.
#[derive(Drop)]
pub enum Shade {
    /// This file wins.
    By(Path),
    /// Boot defines this constant, which is the file's or one above it.
    Defined(CPath),
}

/// A file that no key loads.
#[derive(Drop)]
pub struct ShadowRow {
    /// The file.
    pub path: Path,
    /// Why it is not loaded.
    pub shade: Shade,
}

/// A file that is not loaded.
fn row(alloc: Global, path: &Path, shade: Shade) -> Result<Option<ShadowRow>, AllocError>
    ensures { IfOk result (λ row. row ≡ Some (row_of path.now shade)) }
{
    let path = path.copy(alloc)?;
    Ok(Some(ShadowRow { path, shade }))
}

/// The file, unless it is the first of these.
fn behind_winner(
    alloc: Global,
    path: &Path,
    files: &[Path],
) -> Result<Option<ShadowRow>, AllocError>
    ensures told { IfOk result (λ row. (names : List Text) → option_map (shadow_seen names) row ≡ after_winner path.now files.now) }
    ensures named { IfOk result (λ row. (names : List Text) → IfSome row (IsShadowNamed names)) }
{
    match files.first() {
        Some(first) => {
            if first == path {
                return Ok(None);
            }
            row(alloc, path, Shade::By(first.copy(alloc)?))
        }
        None => Ok(None),
    }
}

/// The file of this constant path, if it is not loaded.
fn shadow_at(
    alloc: Global,
    scan: &Scan,
    boot: &[(CPath, bool)],
    path: &Path,
    names: &CPath,
) -> Result<Option<ShadowRow>, AllocError>
    ensures told { IfOk result (λ row. (table : List Text) (layout : Shown) (tree : Files) →
        IsScan table layout tree scan.now → IsDistinct table → AreBootNamed table boot.now → AreNamed table names.now →
        option_map (shadow_seen table) row ≡ unless_defined (expecting_files layout tree) path.now
        (texts_of table names.now) (kept_out_by (boot_seen table boot.now) (texts_of table names.now))) }
    ensures named { IfOk result (λ row. (table : List Text) → AreNamed table names.now →
        IfSome row (IsShadowNamed table)) }
{
    match kept_out(alloc, boot, names)? {
        Some(defined) => row(alloc, path, Shade::Defined(defined)),
        None => behind_winner(alloc, path, scan.files_at(alloc, names)?),
    }
}

/// The file, if it is not loaded.
fn shadow_of(
    alloc: Global,
    scan: &Scan,
    boot: &[(CPath, bool)],
    claim: &Claim,
) -> Result<Option<ShadowRow>, AllocError>
    ensures told { IfOk result (λ row. (names : List Text) (layout : Shown) (tree : Files) →
        IsScan names layout tree scan.now → IsDistinct names → AreBootNamed names boot.now → IsNamed names claim.now →
        option_map (shadow_seen names) row ≡ shadowed_as (boot_seen names boot.now) (expecting_files layout tree)
        claim.now.path (expected_seen names claim.now.expected)) }
    ensures named { IfOk result (λ row. (names : List Text) → IsNamed names claim.now →
        IfSome row (IsShadowNamed names)) }
{
    match &claim.expected {
        Ok(names) => shadow_at(alloc, scan, boot, &claim.path, names),
        Err(_) => Ok(None),
    }
}

fn push_some(rows: &mut Vec<ShadowRow>, row: Option<ShadowRow>) -> Result<(), AllocError>
    ensures { OnOk result (rows.new.items ≡ rows.old.items ++ cons_option row []) }
{
    if let Some(row) = row {
        rows.push(row)?;
    }
    Ok(())
}

/// The visible files with a constant path that no key loads, in path order, and why. `boot` is as `keys` takes it.
pub fn shadows(
    alloc: Global,
    scan: &Scan,
    boot: &[(CPath, bool)],
    names: &Names,
) -> Result<Vec<ShadowRow>, AllocError>
    requires scan { IsScanNamed names.now scan.now }
    requires boot { AreBootNamed names.now boot.now }
    ensures told { IfOk result (λ rows. (layout : Shown) (tree : Files) → IsScan names.now layout tree scan.now →
        map (shadow_seen names.now) rows.items ≡ shadowed layout tree (boot_seen names.now boot.now)) }
    ensures named { IfOk result (λ rows. All (IsShadowNamed names.now) rows.items) }
{
    names.are_distinct();
    let mut rows = Vec::new(alloc);
    for claim in scan.claims() {
        let row = shadow_of(alloc, scan, boot, claim)?;
        push_some(&mut rows, row)?;
    }
    Ok(rows)
}
