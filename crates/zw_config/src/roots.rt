//! Roots with their namespaces (Zeitwerk README, "Root directories and root namespaces").
ghost use Rattle.std.specs.Prelude.{◌≡◌, List, [], IfOk, map};
ghost use Rattle.std.specs.List.{All, list_any};
ghost use Rattle.toml.specs.View.{items_view, table_view, view};
ghost use Rattle.zw_def.specs.Path.{same_path};
ghost use Rattle.zw_def.specs.Names.{AreNamed, OnlyGrows, texts_of};
ghost use Rattle.zw_def.specs.Layout.{Root as Seen};
ghost use Rattle.zw_inflect.specs.Layout.{root_seen};
ghost use Rattle.zw_def_config.specs.Root as spec;
ghost use Rattle.zw_def_config.specs.Value.{elements_after};
ghost use Rattle.zw_config.specs.Fault.{Gives};
ghost use Rattle.zw_config.specs.Root.{HasPaths, IsNamed};

use crate::fault::{ConfigFault, ReadFault, wrong_kind};
use crate::keys::{only_known, value_at};
use crate::value::{array_in, cpath_in, path_in, table_in};
use std::alloc::Global;
use std::collections::BTreeSet;
use toml::{Table, Value};
use zw_inflect::Root;
use zw_names::{CPath, Names};
use zw_path::Path;

fn is_root(paths: &BTreeSet<Path>, path: &Path) -> bool
    ensures { (before : List Seen) → HasPaths paths.now before →
        result ≡ list_any (λ r. same_path r.path path.now) before }
{
    paths.contains(path)
}

// The path of a root, which none of those before has.
fn root_path(alloc: Global, paths: &BTreeSet<Path>, table: &Table) -> Result<Path, ReadFault>
    ensures { (before : List Seen) → HasPaths paths.now before →
        Gives (λ p. p) result (spec.root_path before (table_view table.now)) }
{
    let Some(value) = value_at(table, "path") else {
        return Err(wrong_kind("root.path"));
    };
    let path = path_in(alloc, "root.path", value)?;
    if is_root(paths, &path) {
        return Err(ReadFault::Refused(ConfigFault::DoubleRoot(path.text(alloc)?)));
    }
    Ok(path)
}

// The namespace of a root; `Object`, which is the empty path, where none is given.
fn root_namespace(alloc: Global, names: &mut Names, table: &Table) -> Result<CPath, ReadFault>
    ensures told { Gives (texts_of names.new) result (spec.root_namespace (table_view table.now)) }
    ensures named { IfOk result (AreNamed names.new) }
    ensures grows { OnlyGrows names.old names.new }
{
    match value_at(table, "namespace") {
        None => Ok(CPath::object(alloc)),
        Some(value) => cpath_in(alloc, names, "root.namespace", value),
    }
}

#[tactic(auto, unfolding(zw_def_config::specs::Root::root_of_table))]
fn root_of_table(
    alloc: Global,
    names: &mut Names,
    paths: &BTreeSet<Path>,
    table: &Table,
) -> Result<Root, ReadFault>
    ensures told { (before : List Seen) → HasPaths paths.now before →
        Gives (root_seen names.new) result (spec.root_of_table before (table_view table.now)) }
    ensures named { IfOk result (IsNamed names.new) }
    ensures grows { OnlyGrows names.old names.new }
{
    let path = root_path(alloc, paths, table)?;
    let namespace = root_namespace(alloc, names, table)?;
    Ok(Root { path, namespace })
}

// A root, beside those before it, which have these paths.
fn root_in(
    alloc: Global,
    names: &mut Names,
    paths: &BTreeSet<Path>,
    value: &Value,
) -> Result<Root, ReadFault>
    ensures told { (before : List Seen) → HasPaths paths.now before →
        Gives (root_seen names.new) result (spec.root_in before (view value.now)) }
    ensures named { IfOk result (IsNamed names.new) }
    ensures grows { OnlyGrows names.old names.new }
{
    let table = table_in("root", value)?;
    only_known(alloc, "root.", &["path", "namespace"], table)?;
    root_of_table(alloc, names, paths, table)
}

fn roots_in(alloc: Global, names: &mut Names, values: &[Value]) -> Result<Vec<Root>, ReadFault>
    ensures told { Gives (λ rs. map (root_seen names.new) rs.items) result
        (elements_after spec.root_in [] (items_view values.now)) }
    ensures named { IfOk result (λ rs. All (IsNamed names.new) rs.items) }
    ensures grows { OnlyGrows names.old names.new }
{
    let mut roots = Vec::new(alloc);
    let mut paths = BTreeSet::new(alloc);
    for value in values {
        let root = root_in(alloc, names, &paths, value)?;
        paths.insert(root.path.copy(alloc)?)?;
        roots.push(root)?;
    }
    Ok(roots)
}

/// The roots in the order of the configuration.
pub(crate) fn roots(alloc: Global, names: &mut Names, table: &Table) -> Result<Vec<Root>, ReadFault>
    ensures told { Gives (λ rs. map (root_seen names.new) rs.items) result (spec.roots (table_view table.now)) }
    ensures named { IfOk result (λ rs. All (IsNamed names.new) rs.items) }
    ensures grows { OnlyGrows names.old names.new }
{
    match value_at(table, "root") {
        None => Ok(Vec::new(alloc)),
        Some(value) => roots_in(alloc, names, array_in("root", value)?),
    }
}
