//! The lines that tell what is seen.
ghost use Rattle.std.specs.Prelude.{◌≡◌, ◌++◌, IfOk, codes, map, string_bytes};
ghost use Rattle.std.specs.List.{All};
ghost use Rattle.zw_def.specs.ConstantPath.{constant_path_text};
ghost use Rattle.zw_def.specs.Names.{AreNamed, texts_of};
ghost use Rattle.zw_def.specs.Path.{path_text};
ghost use Rattle.zw_def.specs.Shadow.{already_defined, shadowed_by};
ghost use Rattle.zw_def_session.specs.Answers as defined;
ghost use Rattle.zw_layout.specs.Expects.{wrong_seen};
ghost use Rattle.zw_map.specs.KeySeen.{IsKeyNamed, key_seen};
ghost use Rattle.zw_map.specs.ShadowSeen.{IsShadowNamed, shadow_seen};

use std::alloc::{AllocError, Global};
use zw_fault::{LoadFault, raise_of};
use zw_layout::WrongName;
use zw_map::{Key, KeyRow, Shade, ShadowRow};
use zw_names::{CPath, Names};
use zw_path::Path;
use zw_show::fault_line;

/// The line of a file that is expected to define the constant.
pub(crate) fn expected_line(
    alloc: Global,
    constant: &CPath,
    names: &Names,
) -> Result<String, AllocError>
    requires { AreNamed names.now constant.now }
    ensures { IfOk result (λ line. string_bytes line
        ≡ codes "- " ++ constant_path_text (texts_of names.now constant.now)) }
{
    let constant = constant.text(alloc, names)?;
    format!(in alloc; "- {constant}")
}

/// The line of a key.
pub(crate) fn key_line(alloc: Global, row: &KeyRow, names: &Names) -> Result<String, AllocError>
    requires { IsKeyNamed names.now row.now }
    ensures { IfOk result (λ line. string_bytes line ≡ defined.key_line (key_seen names.now row.now)) }
{
    let path = row.path.text(alloc, names)?;
    match &row.key {
        Key::File(file) => {
            let file = file.text(alloc)?;
            format!(in alloc; "- {path} file {file}")
        }
        Key::Dir => format!(in alloc; "- {path} dir"),
    }
}

/// The lines of these keys.
pub(crate) fn key_lines(
    alloc: Global,
    rows: &[KeyRow],
    names: &Names,
) -> Result<Vec<String>, AllocError>
    requires { All (IsKeyNamed names.now) rows.now }
    ensures { IfOk result (λ lines. map string_bytes lines.items
        ≡ map (λ row. defined.key_line (key_seen names.now row)) rows.now) }
{
    let mut lines = Vec::new(alloc);
    for row in rows {
        lines.push(key_line(alloc, row, names)?)?;
    }
    Ok(lines)
}

/// The line of a file that another one shadows, by the texts of both.
fn behind_text(alloc: Global, path: &str, winner: &str) -> Result<String, AllocError>
    ensures { IfOk result (λ line. string_bytes line
        ≡ codes "- " ++ path.now ++ (codes " shadowed by " ++ winner.now)) }
{
    format!(in alloc; "- {path} shadowed by {winner}")
}

/// The line of a file that another one shadows.
fn shadowed_line(alloc: Global, path: &Path, winner: &Path) -> Result<String, AllocError>
    ensures { IfOk result (λ line. string_bytes line
        ≡ codes "- " ++ path_text path.now ++ defined.shade_text (shadowed_by winner.now)) }
{
    behind_text(alloc, &path.text(alloc)?, &winner.text(alloc)?)
}

/// The line of a file that is ignored for a constant that boot defines.
fn ignored_line(
    alloc: Global,
    path: &Path,
    constant: &CPath,
    names: &Names,
) -> Result<String, AllocError>
    requires { AreNamed names.now constant.now }
    ensures { IfOk result (λ line. string_bytes line ≡ codes "- " ++ path_text path.now
        ++ defined.shade_text (already_defined (texts_of names.now constant.now))) }
{
    let path = path.text(alloc)?;
    let constant = constant.text(alloc, names)?;
    format!(in alloc; "- {path} ignored, {constant} is already defined")
}

/// The line of a file that no key loads.
pub(crate) fn shadow_line(
    alloc: Global,
    row: &ShadowRow,
    names: &Names,
) -> Result<String, AllocError>
    requires { IsShadowNamed names.now row.now }
    ensures { IfOk result (λ line. string_bytes line ≡ defined.shadow_line (shadow_seen names.now row.now)) }
{
    match &row.shade {
        Shade::By(winner) => shadowed_line(alloc, &row.path, winner),
        Shade::Defined(constant) => ignored_line(alloc, &row.path, constant, names),
    }
}

/// The lines of these files.
pub(crate) fn shadow_lines(
    alloc: Global,
    rows: &[ShadowRow],
    names: &Names,
) -> Result<Vec<String>, AllocError>
    requires { All (IsShadowNamed names.now) rows.now }
    ensures { IfOk result (λ lines. map string_bytes lines.items
        ≡ map (λ row. defined.shadow_line (shadow_seen names.now row)) rows.now) }
{
    let mut lines = Vec::new(alloc);
    for row in rows {
        lines.push(shadow_line(alloc, row, names)?)?;
    }
    Ok(lines)
}

/// The line of the fault that a file or directory has a wrong name.
pub(crate) fn wrong_name_line(
    alloc: Global,
    wrong: WrongName,
    names: &Names,
) -> Result<String, AllocError>
    ensures { IfOk result (λ line. string_bytes line ≡ defined.wrong_name_line (wrong_seen wrong)) }
{
    let raise = raise_of(alloc, &LoadFault::WrongName(wrong.path, wrong.name), names)?;
    fault_line(alloc, raise.kind.name(), &raise.message)
}
