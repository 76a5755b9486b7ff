//! Arrays of patterns (Zeitwerk README, "Ignoring parts of the project" and "Collapsing directories").
ghost use Rattle.std.specs.Prelude.{◌≡◌, [], map};
ghost use Rattle.toml.specs.View.{items_view, table_view, view};
ghost use Rattle.zw_def_config.specs.Configuration as spec;
ghost use Rattle.zw_def_config.specs.Value.{elements_after, path_in};
ghost use Rattle.zw_config.specs.Fault.{Gives};

use crate::fault::{ConfigFault, ReadFault};
use crate::keys::value_at;
use crate::value::{array_in, text_in};
use std::alloc::Global;
use toml::{Table, Value};
use zw_path::{PathFault, Pattern};

fn pattern_in(alloc: Global, key: &'static str, value: &Value) -> Result<Pattern, ReadFault>
    ensures { Gives (λ p. p) result (path_in key.entry.now (view value.now)) }
{
    let text = text_in(key, value)?;
    match Pattern::parse(alloc, text) {
        Ok(pattern) => Ok(pattern),
        Err(PathFault::Refused(_)) => Err(ReadFault::Refused(ConfigFault::BadPath(key))),
        Err(PathFault::Memory) => Err(ReadFault::Memory),
    }
}

fn patterns_in(
    alloc: Global,
    key: &'static str,
    values: &[Value],
) -> Result<Vec<Pattern>, ReadFault>
    ensures { Gives (λ ps. ps.items) result
        (elements_after (λ before. path_in key.entry.now) [] (items_view values.now)) }
{
    let mut patterns = Vec::new(alloc);
    for value in values {
        patterns.push(pattern_in(alloc, key, value)?)?;
    }
    Ok(patterns)
}

/// The patterns at a key.
pub(crate) fn patterns(
    alloc: Global,
    key: &'static str,
    table: &Table,
) -> Result<Vec<Pattern>, ReadFault>
    ensures { Gives (λ ps. ps.items) result (spec.patterns key.entry.now (table_view table.now)) }
{
    match value_at(table, key) {
        None => Ok(Vec::new(alloc)),
        Some(value) => patterns_in(alloc, key, array_in(key, value)?),
    }
}
