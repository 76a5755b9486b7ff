//! The inflector (Zeitwerk README, "Inflection" and "Gem inflector").
ghost use Rattle.std.specs.Prelude.{◌≡◌, []};
ghost use Rattle.toml.specs.View.{table_view, view};
ghost use Rattle.zw_def.specs.Tree.{ends_in_rb};
ghost use Rattle.zw_inflect.specs.Inflector.{inflector_seen};
ghost use Rattle.zw_def_config.specs.Inflection as spec;
ghost use Rattle.zw_config.specs.Fault.{Gives};

use crate::fault::{ConfigFault, ReadFault, wrong_kind};
use crate::keys::value_at;
use crate::value::{path_of, table_in, text_in};
use std::alloc::Global;
use toml::{Table, Value};
use zw_inflect::{Inflector, Overrides};
use zw_names::is_constant;
use zw_path::Path;

// ---- overrides

fn constant_name(value: &Value) -> Result<&str, ReadFault>
    ensures { Gives (λ s. s.now) result (spec.constant_name_in (view value.now)) }
{
    let text = text_in("inflect", value)?;
    if is_constant(text) {
        Ok(text)
    } else {
        Err(wrong_kind("inflect"))
    }
}

fn overrides_in(alloc: Global, table: &Table) -> Result<Overrides, ReadFault>
    ensures { Gives (λ o. o) result (spec.overrides_after [] (table_view table.now)) }
{
    let mut overrides = Overrides::new(alloc);
    'entry: for (base, value) in table.iter() {
        let name = constant_name(value)?;
        overrides.insert(alloc, base, name)?;
    }
    Ok(overrides)
}

fn overrides(alloc: Global, table: &Table) -> Result<Overrides, ReadFault>
    ensures { Gives (λ o. o) result (spec.overrides (table_view table.now)) }
{
    match value_at(table, "inflect") {
        None => Ok(Overrides::new(alloc)),
        Some(value) => overrides_in(alloc, table_in("inflect", value)?),
    }
}

// ---- the gem's main file

fn ends_in_rb(text: &str) -> bool
    ensures { result ≡ ends_in_rb text.now }
{
    text.ends_with(".rb")
}

fn main_file_in(alloc: Global, value: &Value) -> Result<Path, ReadFault>
    ensures { Gives (λ p. p) result (spec.main_file_in (view value.now)) }
{
    let text = text_in("gem", value)?;
    if ends_in_rb(text) {
        path_of(alloc, "gem", text)
    } else {
        Err(ReadFault::Refused(ConfigFault::BadPath("gem")))
    }
}

fn main_file(alloc: Global, table: &Table) -> Result<Option<Path>, ReadFault>
    ensures { Gives (λ p. p) result (spec.main_file (table_view table.now)) }
{
    match value_at(table, "gem") {
        None => Ok(None),
        Some(value) => Ok(Some(main_file_in(alloc, value)?)),
    }
}

// ---- the inflector

fn inflector_of(overrides: Overrides, main: Option<Path>) -> Inflector
    ensures { inflector_seen result ≡ spec.inflector_of overrides main }
{
    match main {
        None => Inflector::Default(overrides),
        Some(main) => Inflector::Gem(overrides, main),
    }
}

/// The inflector, which is that of a gem where its main file is given.
#[tactic(auto, unfolding(zw_def_config::specs::Inflection::inflector))]
pub(crate) fn inflector(alloc: Global, table: &Table) -> Result<Inflector, ReadFault>
    ensures { Gives inflector_seen result (spec.inflector (table_view table.now)) }
{
    let overrides = overrides(alloc, table)?;
    let main = main_file(alloc, table)?;
    Ok(inflector_of(overrides, main))
}
