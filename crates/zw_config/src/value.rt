//! What a value is read as, at the key that faults name.
ghost use Rattle.std.specs.Prelude.{◌≡◌, IfOk};
ghost use Rattle.std.specs.Option.{ok_or};
ghost use Rattle.toml.specs.View.{items_view, table_view, view};
ghost use Rattle.zw_def.specs.Path.{path_of};
ghost use Rattle.zw_def.specs.Names.{AreNamed, OnlyGrows, texts_of};
ghost use Rattle.zw_def_config.specs.Fault.{bad_path};
ghost use Rattle.zw_def_config.specs.Value as spec;
ghost use Rattle.zw_config.specs.Fault.{Gives};

use crate::fault::{ConfigFault, ReadFault, wrong_kind};
use std::alloc::Global;
use toml::{Table, Value};
use zw_names::{CPath, CPathFault, Names};
use zw_path::{Path, PathFault};

pub(crate) fn text_in<'a>(key: &'static str, value: &'a Value) -> Result<&'a str, ReadFault>
    ensures { Gives (λ s. s.now) result (spec.text_in key.entry.now (view value.now)) }
{
    match value.as_str() {
        Some(text) => Ok(text),
        None => Err(wrong_kind(key)),
    }
}

pub(crate) fn boolean_in(key: &'static str, value: &Value) -> Result<bool, ReadFault>
    ensures { Gives (λ b. b) result (spec.boolean_in key.entry.now (view value.now)) }
{
    match value.as_bool() {
        Some(on) => Ok(on),
        None => Err(wrong_kind(key)),
    }
}

pub(crate) fn array_in<'a>(key: &'static str, value: &'a Value) -> Result<&'a [Value], ReadFault>
    ensures { Gives (λ s. items_view s.now) result (spec.array_in key.entry.now (view value.now)) }
{
    match value.as_array() {
        Some(values) => Ok(values.as_slice()),
        None => Err(wrong_kind(key)),
    }
}

pub(crate) fn table_in<'a>(key: &'static str, value: &'a Value) -> Result<&'a Table, ReadFault>
    ensures { Gives (λ t. table_view t.now) result (spec.table_in key.entry.now (view value.now)) }
{
    match value.as_table() {
        Some(table) => Ok(table),
        None => Err(wrong_kind(key)),
    }
}

/// The path that a text tells.
pub(crate) fn path_of(alloc: Global, key: &'static str, text: &str) -> Result<Path, ReadFault>
    ensures { Gives (λ p. p) result (ok_or (path_of text.now) (bad_path key.entry.now)) }
{
    match Path::parse(alloc, text) {
        Ok(path) => Ok(path),
        Err(PathFault::Refused(_)) => Err(ReadFault::Refused(ConfigFault::BadPath(key))),
        Err(PathFault::Memory) => Err(ReadFault::Memory),
    }
}

pub(crate) fn path_in(alloc: Global, key: &'static str, value: &Value) -> Result<Path, ReadFault>
    ensures { Gives (λ p. p) result (spec.path_in key.entry.now (view value.now)) }
{
    let text = text_in(key, value)?;
    path_of(alloc, key, text)
}

pub(crate) fn cpath_in(
    alloc: Global,
    names: &mut Names,
    key: &'static str,
    value: &Value,
) -> Result<CPath, ReadFault>
    ensures told { Gives (texts_of names.new) result (spec.constant_path_in key.entry.now (view value.now)) }
    ensures named { IfOk result (AreNamed names.new) }
    ensures grows { OnlyGrows names.old names.new }
{
    let text = text_in(key, value)?;
    match CPath::parse(alloc, names, text) {
        Ok(path) => Ok(path),
        Err(CPathFault::Refused(_)) => Err(ReadFault::Refused(ConfigFault::BadCPath(key))),
        Err(CPathFault::Memory) => Err(ReadFault::Memory),
    }
}
