//! The document (TOML 1.1).
ghost use Rattle.std.specs.Prelude.{◌≡◌};
ghost use Rattle.toml.specs.View.{table_view};
ghost use Rattle.zw_def_config.specs.Configuration as spec;
ghost use Rattle.zw_config.specs.Fault.{Gives};

use crate::fault::{ConfigFault, ReadFault};
use std::alloc::Global;
use toml::Table;

/// The table that the bytes are.
pub fn table_of(alloc: Global, bytes: &[u8]) -> Result<Table, ReadFault>
    ensures { Gives table_view result (spec.document bytes.now) }
{
    match toml::table_from_slice(alloc, bytes) {
        Ok(table) => Ok(table),
        Err(error) if error.is_memory() => Err(ReadFault::Memory),
        Err(_) => Err(ReadFault::Refused(ConfigFault::NotToml)),
    }
}
