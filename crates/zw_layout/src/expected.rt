//! The constant paths that files and directories are expected to define (Zeitwerk README, "File structure").
ghost use Rattle.std.specs.Prelude.{◌≡◌, List, ◌<◌, ◌≤◌, ◌+◌, IfOk, IfSome, OnOk, length, take, string_bytes};
ghost use Rattle.zw_def.specs.Text.{Text};
ghost use Rattle.zw_def.specs.Names.{AreNamed, OnlyGrows, texts_of};
ghost use Rattle.zw_def.specs.Expected as defined;
ghost use Rattle.zw_inflect.specs.Layout.{root_seen, layout_seen};
ghost use Rattle.zw_layout.specs.Above.{namespace_above};
ghost use Rattle.zw_layout.specs.Progress.{progress_of};
ghost use Rattle.zw_layout.specs.Expects.{AreNamespacesNamed, Expects, ExpectsAny, Extends, IsWrongAt};

use crate::progress::Progress;
use crate::roots::root_of;
use std::alloc::Global;
use thiserror::Error;
use zw_base::Fault;
use zw_inflect::{InflectFault, Layout, Root};
use zw_names::{CPath, Names};
use zw_path::Path;

/// A name that is no constant's, and the path up to the component of which it was made.
#[derive(Debug, Drop, Error)]
#[error("wrong constant name {name}")]
pub struct WrongName {
    /// What the inflector made of the component.
    pub name: String,
    /// The path up to that component.
    pub path: Path,
}

/// Why no constant path is told: a name is wrong, or there was no memory.
pub type ExpectFault = Fault<WrongName>;

/// The fault of a name that was made of the last of so many components.
fn wrong_at(alloc: Global, name: String, path: &Path, depth: usize) -> ExpectFault
    requires some { 0 < depth }
    requires within { depth ≤ length path.now }
    ensures { IsWrongAt result (string_bytes name) (take depth path.now) }
{
    match path.beginning(alloc, depth) {
        Ok(path) => Fault::Refused(WrongName { name, path }),
        Err(_) => Fault::Memory,
    }
}

/// Goes on by the name of the last of so many components, which has this base.
fn push_name(
    alloc: Global,
    layout: &Layout,
    names: &mut Names,
    namespace: &mut CPath,
    base: &str,
    path: &Path,
    depth: usize,
) -> Result<(), ExpectFault>
    requires some { 0 < depth }
    requires within { depth ≤ length path.now }
    requires named { AreNamed names.old namespace.old }
    ensures told { Extends names.new namespace.new result (defined.named
        (layout_seen names.new layout.now) base.now (take depth path.now) (texts_of names.old namespace.old)) }
    ensures named { OnOk result (AreNamed names.new namespace.new) }
    ensures grows { OnlyGrows names.old names.new }
{
    let here = &path.components()[..depth];
    match layout.inflector.camelize_at(alloc, base, here) {
        Ok(text) => {
            let name = names.intern(&text)?;
            namespace.push(name)?;
            Ok(())
        }
        Err(InflectFault::Refused(wrong)) => Err(wrong_at(alloc, wrong.0, path, depth)),
        Err(InflectFault::Memory) => Err(Fault::Memory),
    }
}

/// Goes on by the name of the directory one component further on, unless it is collapsed.
fn push_directory(
    alloc: Global,
    layout: &Layout,
    names: &mut Names,
    namespace: &mut CPath,
    progress: &Progress,
    path: &Path,
    depth: usize,
) -> Result<(), ExpectFault>
    requires within { depth < length path.now }
    requires here { progress.now ≡ progress_of layout.now.collapse.items (take (depth + 1) path.now) }
    requires named { AreNamed names.old namespace.old }
    ensures told { Extends names.new namespace.new result (defined.named_directory
        (layout_seen names.new layout.now) (take (depth + 1) path.now) (texts_of names.old namespace.old)) }
    ensures named { OnOk result (AreNamed names.new namespace.new) }
    ensures grows { OnlyGrows names.old names.new }
{
    if progress.is_match() {
        return Ok(());
    }
    let base = path.components()[depth].as_str();
    push_name(alloc, layout, names, namespace, base, path, depth + 1)
}

/// The namespace of the files of a directory below the root, which is the first components of the path, so many.
fn namespace_at(
    alloc: Global,
    layout: &Layout,
    names: &mut Names,
    root: &Root,
    path: &Path,
    end: usize,
) -> Result<CPath, ExpectFault>
    requires root { take (length root.now.path) path.now ≡ root.now.path }
    requires begins { length root.now.path ≤ end }
    requires within { end ≤ length path.now }
    requires named { AreNamed names.old root.now.namespace }
    ensures told { Expects names.new result (defined.namespace_of
        (layout_seen names.new layout.now) (root_seen names.new root.now) (take end path.now)) }
    ensures named { IfOk result (AreNamed names.new) }
    ensures grows { OnlyGrows names.old names.new }
{
    let start = root.path.components().len();
    let mut progress = Progress::along(alloc, &layout.collapse, path.components(), start)?;
    let mut namespace = root.namespace.copy(alloc)?;
    for depth in start..end {
        progress = progress.after(alloc, &layout.collapse, path.components(), depth)?;
        push_directory(alloc, layout, names, &mut namespace, &progress, path, depth)?;
    }
    Ok(namespace)
}

/// What a file at the path is expected to define, if it stands below a root: the names of the components below the
/// root, collapsed directories left out, in the root's namespace.
pub fn expected_path(
    alloc: Global,
    layout: &Layout,
    names: &mut Names,
    path: &Path,
) -> Result<Option<CPath>, ExpectFault>
    requires { AreNamespacesNamed names.old layout.now }
    ensures told { (later : List Text) → OnlyGrows names.new later →
        ExpectsAny later result (defined.expected_path (layout_seen later layout.now) path.now) }
    ensures named { IfOk result (λ p. IfSome p (AreNamed names.new)) }
    ensures grows { OnlyGrows names.old names.new }
{
    let Some(root) = root_of(layout, path) else {
        return Ok(None);
    };
    let end = path.components().len();
    let mut namespace = namespace_at(alloc, layout, names, root, path, end - 1)?;
    push_name(alloc, layout, names, &mut namespace, path.base(), path, end)?;
    Ok(Some(namespace))
}

/// The constant path of the files of a directory, if it stands below a root. It is what the directory is expected to
/// define, unless it is collapsed.
pub fn directory_path(
    alloc: Global,
    layout: &Layout,
    names: &mut Names,
    directory: &Path,
) -> Result<Option<CPath>, ExpectFault>
    requires { AreNamespacesNamed names.old layout.now }
    ensures told { (later : List Text) → OnlyGrows names.new later →
        ExpectsAny later result (defined.directory_path (layout_seen later layout.now) directory.now) }
    ensures named { IfOk result (λ p. IfSome p (AreNamed names.new)) }
    ensures grows { OnlyGrows names.old names.new }
{
    let Some(root) = root_of(layout, directory) else {
        return Ok(None);
    };
    let end = directory.components().len();
    Ok(Some(namespace_at(alloc, layout, names, root, directory, end)?))
}

/// The namespace in which a file or directory stands, if it stands below a root: that of the files of the directory
/// above it.
pub fn namespace_above(
    alloc: Global,
    layout: &Layout,
    names: &mut Names,
    path: &Path,
) -> Result<Option<CPath>, ExpectFault>
    requires { AreNamespacesNamed names.old layout.now }
    ensures told { (later : List Text) → OnlyGrows names.new later →
        ExpectsAny later result (namespace_above (layout_seen later layout.now) path.now) }
    ensures named { IfOk result (λ p. IfSome p (AreNamed names.new)) }
    ensures grows { OnlyGrows names.old names.new }
{
    let Some(root) = root_of(layout, path) else {
        return Ok(None);
    };
    let end = path.components().len() - 1;
    Ok(Some(namespace_at(alloc, layout, names, root, path, end)?))
}
