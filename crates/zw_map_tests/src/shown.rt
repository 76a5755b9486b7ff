//! The answers as lines.
ghost use Rattle.std.specs.Prelude.{◌<◌, length, IfOk, IfSome};
ghost use Rattle.zw_def.specs.Names.{AreNamed};
ghost use Rattle.zw_map.specs.KeySeen.{IsKeyNamed};

use std::alloc::{AllocError, Global};
use std::test::Fail;
use zw_layout::ExpectFault;
use zw_map::{Key, KeyRow, Shade, ShadowRow};
use zw_names::{CPath, Names};
use zw_path::Path;
use zw_scan::ChildRow;

fn push_paths(alloc: Global, text: &mut String, paths: &[Path]) -> Result<(), AllocError> {
    for path in paths {
        text.push(' ')?;
        text.push_str(&path.text(alloc)?)?;
    }
    Ok(())
}

pub(crate) fn key_line(alloc: Global, names: &Names, row: &KeyRow) -> Result<String, AllocError>
    requires { IsKeyNamed names.now row.now }
{
    let mut text = row.path.text(alloc, names)?;
    match &row.key {
        Key::File(path) => {
            text.push(' ')?;
            text.push_str(&path.text(alloc)?)?;
        }
        Key::Dir => text.push_str(" dir")?,
    }
    push_paths(alloc, &mut text, &row.directories)?;
    Ok(text)
}

pub(crate) fn shadow_line(alloc: Global, row: &ShadowRow) -> Result<String, AllocError> {
    let mut text = row.path.text(alloc)?;
    match &row.shade {
        Shade::By(path) => {
            text.push_str(" by ")?;
            text.push_str(&path.text(alloc)?)?;
        }
        Shade::Defined(_) => text.push_str(" defined")?,
    }
    Ok(text)
}

pub(crate) fn child_line(alloc: Global, name: &str, row: &ChildRow) -> Result<String, AllocError> {
    let mut text = String::from_str(alloc, name)?;
    if let Some(winner) = &row.winner {
        text.push(' ')?;
        text.push_str(&winner.text(alloc)?)?;
    }
    text.push_str(" |")?;
    push_paths(alloc, &mut text, &row.directories)?;
    text.push_str(" |")?;
    push_paths(alloc, &mut text, &row.shadowed)?;
    Ok(text)
}

pub(crate) fn wrong_line(alloc: Global, wrong: Option<Path>) -> Result<String, AllocError> {
    match wrong {
        Some(path) => path.text(alloc),
        None => String::from_str(alloc, "none"),
    }
}

pub(crate) fn expected_line(
    alloc: Global,
    names: &Names,
    answer: Result<Option<CPath>, ExpectFault>,
) -> Result<String, Fail>
    requires { IfOk answer (λ path. IfSome path (AreNamed names.now)) }
{
    match answer {
        Ok(Some(path)) => Ok(path.text(alloc, names)?),
        Ok(None) => Ok(String::from_str(alloc, "none")?),
        Err(ExpectFault::Refused(wrong)) => Ok(format!(in alloc; "wrong {}", wrong.name)?),
        Err(ExpectFault::Memory) => Err(AllocError.into()),
    }
}
