//! Constant paths in map order.
ghost use Rattle.std.specs.Prelude.{◌≡◌, List, [], IfOk, OnOk, map, string_bytes};
ghost use Rattle.std.specs.List.{All, fold};
ghost use Rattle.zw_def.specs.Text.{Text};
ghost use Rattle.zw_def.specs.Tree.{Tree as Files};
ghost use Rattle.zw_def.specs.Layout.{Layout as Shown};
ghost use Rattle.zw_def.specs.Names.{AreNamed, texts_of};
ghost use Rattle.zw_def.specs.Map.{with_path};
ghost use Rattle.zw_scan.specs.FoundSeen.{IsFoundNamed};
ghost use Rattle.zw_scan.specs.IsScan.{IsScan, IsScanNamed};
ghost use Rattle.zw_map.specs.Order.{AreKeyed, all_paths, names_told, sorted_told};

use std::alloc::{AllocError, Global};
use std::collections::BTreeMap;
use zw_names::{CPath, Names};
use zw_scan::{Found, Scan};

/// The texts of the names of the path.
fn texts(alloc: Global, names: &Names, path: &CPath) -> Result<Vec<String>, AllocError>
    requires { AreNamed names.now path.now }
    ensures { IfOk result (λ texts. map string_bytes texts.items ≡ texts_of names.now path.now) }
{
    let mut texts = Vec::new(alloc);
    for name in path.names() {
        texts.push(String::from_str(alloc, names.text(*name))?)?;
    }
    Ok(texts)
}

/// Puts the path at its place, unless it is there.
fn add_path(
    alloc: Global,
    names: &Names,
    sorted: &mut BTreeMap<Vec<String>, CPath>,
    path: &CPath,
) -> Result<(), AllocError>
    requires named { AreNamed names.now path.now }
    requires keyed { AreKeyed names.now sorted.old.entries }
    ensures told { OnOk result (sorted_told names.now sorted.new.entries
        ≡ with_path (texts_of names.now path.now) (sorted_told names.now sorted.old.entries)) }
    ensures keyed { OnOk result (AreKeyed names.now sorted.new.entries) }
{
    let texts = texts(alloc, names, path)?;
    sorted.insert(texts, path.copy(alloc)?)?;
    Ok(())
}

/// Puts the constant paths of all these at their places.
fn add_all(
    alloc: Global,
    names: &Names,
    sorted: &mut BTreeMap<Vec<String>, CPath>,
    found: &[Found],
) -> Result<(), AllocError>
    requires named { All (IsFoundNamed names.now) found.now }
    requires keyed { AreKeyed names.now sorted.old.entries }
    ensures told { OnOk result (sorted_told names.now sorted.new.entries
        ≡ fold (λ paths p. with_path p paths) (sorted_told names.now sorted.old.entries)
        (names_told names.now found.now)) }
    ensures keyed { OnOk result (AreKeyed names.now sorted.new.entries) }
{
    for one in found {
        add_path(alloc, names, sorted, &one.names)?;
    }
    Ok(())
}

/// The paths in their order.
fn paths_of(alloc: Global, sorted: &BTreeMap<Vec<String>, CPath>) -> Result<Vec<CPath>, AllocError>
    ensures { IfOk result (λ paths. paths.items ≡ map (λ e. e.1) sorted.now.entries) }
{
    let mut paths = Vec::new(alloc);
    for path in sorted.values() {
        paths.push(path.copy(alloc)?)?;
    }
    Ok(paths)
}

/// The constant paths of all that is expected to define one, each once, in map order.
pub fn order(alloc: Global, scan: &Scan, names: &Names) -> Result<Vec<CPath>, AllocError>
    requires { IsScanNamed names.now scan.now }
    ensures told { IfOk result (λ paths. (layout : Shown) (tree : Files) → IsScan names.now layout tree scan.now →
        map (texts_of names.now) paths.items ≡ all_paths layout tree) }
    ensures named { IfOk result (λ paths. All (AreNamed names.now) paths.items) }
{
    let mut sorted = BTreeMap::new(alloc);
    add_all(alloc, names, &mut sorted, scan.files())?;
    add_all(alloc, names, &mut sorted, scan.directories())?;
    paths_of(alloc, &sorted)
}
