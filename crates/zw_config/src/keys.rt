//! The keys of a table.
ghost use Rattle.std.specs.Prelude.{◌≡◌, map, option_map, string_bytes};
ghost use Rattle.std.specs.List.{list_any};
ghost use Rattle.std.specs.Str.{bytes_eq};
ghost use Rattle.toml.specs.View.{table_view, view};
ghost use Rattle.zw_def_config.specs.Key as spec;
ghost use Rattle.zw_config.specs.Fault.{Gives};

use crate::fault::{ConfigFault, ReadFault, joined};
use std::alloc::Global;
use toml::{Table, Value};

/// The value at a key.
pub fn value_at<'a>(table: &'a Table, key: &str) -> Option<&'a Value>
    ensures { option_map (λ v. view v.now) result ≡ spec.at key.now (table_view table.now) }
{
    table.get(key)
}

/// Whether a key is one of those that are known.
fn is_known(known: &[&str], key: &str) -> bool
    ensures { result ≡ list_any (λ k. bytes_eq key.now k.now) known.now }
{
    known.iter().any(|word| key == *word)
}

/// The least key in byte order that is not known.
fn least_unknown<'a>(table: &'a Table, known: &[&str]) -> Option<&'a String>
    ensures { option_map (λ k. string_bytes k.now) result
        ≡ spec.least (spec.unknown_keys (map (λ k. k.now) known.now) (table_view table.now)) }
{
    for key in table.keys() {
        if !is_known(known, key.as_str()) {
            return Some(key);
        }
    }
    None
}

/// Whether a table has no other keys than these.
pub fn has_only(table: &Table, known: &[&str]) -> bool
    ensures { result ≡ spec.has_only (map (λ k. k.now) known.now) (table_view table.now) }
{
    least_unknown(table, known).is_none()
}

/// Nothing, unless the table has a key that is not known: of these the least is told, behind the prefix.
pub(crate) fn only_known(
    alloc: Global,
    prefix: &str,
    known: &[&str],
    table: &Table,
) -> Result<(), ReadFault>
    ensures { Gives (λ _. table_view table.now) result
        (spec.only_known prefix.now (map (λ k. k.now) known.now) (table_view table.now)) }
{
    match least_unknown(table, known) {
        None => Ok(()),
        Some(key) => Err(ReadFault::Refused(ConfigFault::UnknownKey(joined(alloc, prefix, key)?))),
    }
}
