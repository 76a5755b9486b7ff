//! The keys of the map (Zeitwerk README, "File structure", "Implicit namespaces" and "Explicit namespaces").
ghost use Rattle.std.specs.Prelude.{◌≡◌, ◌++◌, [], List, IfOk, IfSome, OnOk, map, option_map};
ghost use Rattle.std.specs.List.{All, cons_option};
ghost use Rattle.zw_def.specs.Text.{Text};
ghost use Rattle.zw_def.specs.Tree.{Tree as Files};
ghost use Rattle.zw_def.specs.Layout.{Layout as Shown};
ghost use Rattle.zw_def.specs.Names.{AreNamed, IsDistinct, texts_of};
ghost use Rattle.zw_def.specs.Map.{map_of};
ghost use Rattle.zw_scan.specs.IsScan.{IsScan, IsScanNamed};
ghost use Rattle.zw_map.specs.BootSeen.{AreBootNamed, boot_seen};
ghost use Rattle.zw_map.specs.KeySeen.{IsKeyNamed, kept_told, key_seen, key_told, kind_seen, kind_told};

use crate::boot::kept_out;
use crate::sorted::order;
use std::alloc::{AllocError, Global};
use zw_names::{CPath, Names};
use zw_path::Path;
use zw_scan::Scan;

/// What a key is loaded from.
#[derive(Drop)]
pub enum Key {
    /// This file.
    File(Path),
    /// No file: it is a directory alone.
    Dir,
}

/// A key of the map.
#[derive(Drop)]
pub struct KeyRow {
    /// Its constant path.
    pub path: CPath,
    /// What it is loaded from.
    pub key: Key,
    /// Its directories, in root order and then in path order.
    pub directories: Vec<Path>,
}

/// The first of the files, or none.
fn key_of(alloc: Global, files: &[Path]) -> Result<Key, AllocError>
    ensures { IfOk result (λ key. kind_seen key ≡ kind_told files.now) }
{
    match files.first() {
        Some(file) => Ok(Key::File(file.copy(alloc)?)),
        None => Ok(Key::Dir),
    }
}

fn copies(alloc: Global, paths: &[Path]) -> Result<Vec<Path>, AllocError>
    ensures { IfOk result (λ copies. copies.items ≡ paths.now) }
{
    let mut copies = Vec::new(alloc);
    for path in paths {
        copies.push(path.copy(alloc)?)?;
    }
    Ok(copies)
}

/// The key of this path.
fn row_of(alloc: Global, scan: &Scan, path: &CPath) -> Result<KeyRow, AllocError>
    ensures told { IfOk result (λ row. (names : List Text) (layout : Shown) (tree : Files) →
        IsScan names layout tree scan.now → IsDistinct names → AreNamed names path.now →
        key_seen names row ≡ key_told layout tree (texts_of names path.now)) }
    ensures path { IfOk result (λ row. row.path ≡ path.now) }
{
    let key = key_of(alloc, scan.files_at(alloc, path)?)?;
    let directories = copies(alloc, scan.directories_at(alloc, path)?)?;
    let path = path.copy(alloc)?;
    Ok(KeyRow {
        path,
        key,
        directories,
    })
}

/// The key of this path, unless boot keeps it out.
fn kept_row(
    alloc: Global,
    scan: &Scan,
    boot: &[(CPath, bool)],
    path: &CPath,
) -> Result<Option<KeyRow>, AllocError>
    ensures told { IfOk result (λ row. (names : List Text) (layout : Shown) (tree : Files) →
        IsScan names layout tree scan.now → IsDistinct names → AreBootNamed names boot.now →
        AreNamed names path.now → option_map (key_seen names) row
        ≡ kept_told layout tree (boot_seen names boot.now) (texts_of names path.now)) }
    ensures named { IfOk result (λ row. (names : List Text) → AreNamed names path.now →
        IfSome row (IsKeyNamed names)) }
{
    let kept = kept_out(alloc, boot, path)?;
    if kept.is_some() {
        return Ok(None);
    }
    Ok(Some(row_of(alloc, scan, path)?))
}

fn push_some(rows: &mut Vec<KeyRow>, row: Option<KeyRow>) -> Result<(), AllocError>
    ensures { OnOk result (rows.new.items ≡ rows.old.items ++ cons_option row []) }
{
    if let Some(row) = row {
        rows.push(row)?;
    }
    Ok(())
}

/// The map in map order: its keys, each with what it is loaded from and with its directories. `boot` lists each path
/// that boot defines, core classes included, with true exactly where it is a module of that very name.
pub fn keys(
    alloc: Global,
    scan: &Scan,
    boot: &[(CPath, bool)],
    names: &Names,
) -> Result<Vec<KeyRow>, AllocError>
    requires scan { IsScanNamed names.now scan.now }
    requires boot { AreBootNamed names.now boot.now }
    ensures told { IfOk result (λ rows. (layout : Shown) (tree : Files) → IsScan names.now layout tree scan.now →
        map (key_seen names.now) rows.items ≡ map_of layout tree (boot_seen names.now boot.now)) }
    ensures named { IfOk result (λ rows. All (IsKeyNamed names.now) rows.items) }
{
    names.are_distinct();
    let mut rows = Vec::new(alloc);
    for path in &order(alloc, scan, names)? {
        let row = kept_row(alloc, scan, boot, path)?;
        push_some(&mut rows, row)?;
    }
    Ok(rows)
}
