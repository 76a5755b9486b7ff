//! The whole configuration.
ghost use Rattle.std.specs.Prelude.{◌≡◌, IfOk};
ghost use Rattle.toml.specs.View.{table_view};
ghost use Rattle.zw_def.specs.Names.{OnlyGrows};
ghost use Rattle.zw_def.specs.Path as paths;
ghost use Rattle.zw_def_config.specs.Configuration as spec;
ghost use Rattle.zw_config.specs.Config.{IsNamed, config_seen};
ghost use Rattle.zw_config.specs.Fault.{Gives};

use crate::callbacks::callbacks;
use crate::document::table_of;
use crate::fault::ReadFault;
use crate::flags::{boot_file, flag};
use crate::keys::only_known;
use crate::layout::layout;
use std::alloc::Global;
use toml::Table;
use zw_hooks::Hooks;
use zw_inflect::Layout;
use zw_names::Names;
use zw_path::Path;

/// What a configuration says.
#[derive(Drop)]
pub struct Config {
    /// Where files are loaded from, and under which names.
    pub layout: Layout,
    /// Whether reloading is enabled (Zeitwerk README, "Reloading").
    pub reloading: bool,
    /// Whether the tree is loaded after setup (Zeitwerk README, "Eager loading").
    pub eager: bool,
    /// The file that is evaluated before setup, if there is one.
    pub boot: Option<Path>,
    /// In the order of the configuration.
    pub hooks: Hooks,
}

/// The keys of a configuration.
const KEYS: [&str; 10] = [
    "root",
    "ignore",
    "collapse",
    "no_eager",
    "inflect",
    "gem",
    "reloading",
    "eager",
    "boot",
    "callback",
];

#[tactic(auto, unfolding(zw_def_config::specs::Configuration::settings))]
fn settings(alloc: Global, names: &mut Names, table: &Table) -> Result<Config, ReadFault>
    ensures told { (path : paths.Path) → Gives (config_seen path names.new) result (spec.settings path (table_view table.now)) }
    ensures named { IfOk result (IsNamed names.new) }
    ensures grows { OnlyGrows names.old names.new }
{
    let layout = layout(alloc, names, table)?;
    let reloading = flag("reloading", table)?;
    let eager = flag("eager", table)?;
    let boot = boot_file(alloc, table)?;
    let all = callbacks(alloc, names, table)?;
    Ok(Config {
        layout,
        reloading,
        eager,
        boot,
        hooks: Hooks { all },
    })
}

/// What a configuration says whose document is the table, or the first reason to refuse it: the least unknown key in byte
/// order, then each key in its order. Names may have been made after a refusal, too.
#[tactic(auto, unfolding(zw_def_config::specs::Configuration::configuration_in))]
pub fn read_table(alloc: Global, table: &Table, names: &mut Names) -> Result<Config, ReadFault>
    ensures told { (path : paths.Path) → Gives (config_seen path names.new) result
        (spec.configuration_in path (table_view table.now)) }
    ensures named { IfOk result (IsNamed names.new) }
    ensures grows { OnlyGrows names.old names.new }
{
    only_known(alloc, "", &KEYS, table)?;
    settings(alloc, names, table)
}

/// What the bytes of a configuration say, or the first reason to refuse them: they are no document of TOML, or what refuses
/// the table that they are. Names may have been made after a refusal, too.
#[tactic(auto, unfolding(zw_def_config::specs::Configuration::configuration_of))]
pub fn read(alloc: Global, bytes: &[u8], names: &mut Names) -> Result<Config, ReadFault>
    ensures told { (path : paths.Path) → Gives (config_seen path names.new) result (spec.configuration_of path bytes.now) }
    ensures named { IfOk result (IsNamed names.new) }
    ensures grows { OnlyGrows names.old names.new }
{
    let table = table_of(alloc, bytes)?;
    read_table(alloc, &table, names)
}
