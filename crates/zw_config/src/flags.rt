//! Booleans, and the boot file.
ghost use Rattle.std.specs.Prelude.{◌≡◌};
ghost use Rattle.toml.specs.View.{table_view};
ghost use Rattle.zw_def_config.specs.Configuration as spec;
ghost use Rattle.zw_config.specs.Fault.{Gives};

use crate::fault::ReadFault;
use crate::keys::value_at;
use crate::value::{boolean_in, path_in};
use std::alloc::Global;
use toml::Table;
use zw_path::Path;

/// The boolean at a key, which is false where none is given.
pub(crate) fn flag(key: &'static str, table: &Table) -> Result<bool, ReadFault>
    ensures { Gives (λ b. b) result (spec.flag key.entry.now (table_view table.now)) }
{
    match value_at(table, key) {
        None => Ok(false),
        Some(value) => boolean_in(key, value),
    }
}

/// The path of the boot file, if one is given.
pub(crate) fn boot_file(alloc: Global, table: &Table) -> Result<Option<Path>, ReadFault>
    ensures { Gives (λ p. p) result (spec.boot_file (table_view table.now)) }
{
    match value_at(table, "boot") {
        None => Ok(None),
        Some(value) => Ok(Some(path_in(alloc, "boot", value)?)),
    }
}
