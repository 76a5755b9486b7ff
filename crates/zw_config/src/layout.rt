//! Where files are loaded from, and under which names.
ghost use Rattle.std.specs.Prelude.{◌≡◌, IfOk};
ghost use Rattle.std.specs.List.{All};
ghost use Rattle.toml.specs.View.{table_view};
ghost use Rattle.zw_def.specs.Names.{OnlyGrows};
ghost use Rattle.zw_inflect.specs.Layout.{layout_seen};
ghost use Rattle.zw_def_config.specs.Configuration as spec;
ghost use Rattle.zw_config.specs.Fault.{Gives};
ghost use Rattle.zw_config.specs.Root.{IsNamed};

use crate::fault::ReadFault;
use crate::inflection::inflector;
use crate::patterns::patterns;
use crate::roots::roots;
use std::alloc::Global;
use toml::Table;
use zw_inflect::Layout;
use zw_names::Names;

/// The roots, the patterns and the inflector.
#[tactic(auto, unfolding(zw_def_config::specs::Configuration::layout))]
pub(crate) fn layout(alloc: Global, names: &mut Names, table: &Table) -> Result<Layout, ReadFault>
    ensures told { Gives (layout_seen names.new) result (spec.layout (table_view table.now)) }
    ensures named { IfOk result (λ l. All (IsNamed names.new) l.roots.items) }
    ensures grows { OnlyGrows names.old names.new }
{
    let roots = roots(alloc, names, table)?;
    let ignore = patterns(alloc, "ignore", table)?;
    let collapse = patterns(alloc, "collapse", table)?;
    let no_eager = patterns(alloc, "no_eager", table)?;
    let inflector = inflector(alloc, table)?;
    Ok(Layout {
        roots,
        ignore,
        collapse,
        no_eager,
        inflector,
    })
}
