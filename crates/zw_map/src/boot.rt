//! What boot defines under constant paths.
ghost use Rattle.std.specs.Prelude.{◌≡◌, ◌≤◌, ◌<◌, List, IfOk, IfSome, length, map, option_map, take};
ghost use Rattle.std.specs.Str.{bytes_eq};
ghost use Rattle.zw_def.specs.Text.{Text};
ghost use Rattle.zw_def.specs.Names.{AreNamed, IsDistinct, texts_of};
ghost use Rattle.zw_def.specs.Map.{kept_out_by};
ghost use Rattle.zw_map.specs.BootSeen.{AreBootNamed, boot_seen, is_defined_at, is_own, is_taken_at, row_at};

use std::alloc::{AllocError, Global};
use zw_names::{CPath, Name};

fn are_same(names: &[Name], others: &[Name]) -> bool
    ensures { result ≡ bytes_eq (map (λ n. n.0) names.now) (map (λ n. n.0) others.now) }
{
    names == others
}

/// Whether the constant of these names is the module of that very name, if boot defines it.
fn own_at(boot: &[(CPath, bool)], names: &[Name]) -> Option<bool>
    ensures { result ≡ option_map (λ row. row.1) (row_at boot.now (map (λ n. n.0) names.now)) }
{
    for row in boot {
        if are_same(row.0.names(), names) {
            return Some(row.1);
        }
    }
    None
}

/// Whether boot defines the path of these names, and as something else than a module of that very name.
fn is_taken(boot: &[(CPath, bool)], names: &[Name]) -> bool
    ensures { result ≡ is_taken_at boot.now (map (λ n. n.0) names.now) }
{
    match own_at(boot, names) {
        Some(own) => !own,
        None => false,
    }
}

/// Whether boot defines the path of these names.
fn is_defined(boot: &[(CPath, bool)], names: &[Name]) -> bool
    ensures { result ≡ is_defined_at boot.now (map (λ n. n.0) names.now) }
{
    own_at(boot, names).is_some()
}

/// Whether boot defines the path as a module of that very name. `boot` is as `keys` takes it.
pub fn is_module(boot: &[(CPath, bool)], path: &CPath) -> bool
    ensures { (names : List Text) → IsDistinct names → AreBootNamed names boot.now → AreNamed names path.now →
        result ≡ is_own (boot_seen names boot.now (texts_of names path.now)) }
{
    match own_at(boot, path.names()) {
        Some(own) => own,
        None => false,
    }
}

/// The path of these names.
fn path_of(alloc: Global, names: &[Name]) -> Result<CPath, AllocError>
    ensures { IfOk result (λ path. path ≡ map (λ n. n.0) names.now) }
{
    let mut path = CPath::object(alloc);
    for name in names {
        path.push(*name)?;
    }
    Ok(path)
}

/// The shortest beginning of the path that boot defines and that keeps the path out of the map: one that is something
/// else than a module of that name, or else the path itself.
pub(crate) fn kept_out(
    alloc: Global,
    boot: &[(CPath, bool)],
    path: &CPath,
) -> Result<Option<CPath>, AllocError>
    ensures told { IfOk result (λ kept. (names : List Text) → IsDistinct names → AreBootNamed names boot.now →
        AreNamed names path.now → option_map (texts_of names) kept
        ≡ kept_out_by (boot_seen names boot.now) (texts_of names path.now)) }
    ensures named { IfOk result (λ kept. (names : List Text) → AreNamed names path.now → IfSome kept (AreNamed names)) }
{
    let names = path.names();
    for depth in 1..names.len() {
        if is_taken(boot, &names[..depth]) {
            return Ok(Some(path_of(alloc, &names[..depth])?));
        }
    }
    if is_defined(boot, names) {
        return Ok(Some(path.copy(alloc)?));
    }
    Ok(None)
}
