//! Whether the names of a layout are those of a table.
ghost use Rattle.std.specs.Prelude.{◌↔◌, IsTrue};
ghost use Rattle.zw_def.specs.Names.{AreNamed};
ghost use Rattle.zw_layout.specs.Expects.{AreNamespacesNamed};

use zw_inflect::Layout;
use zw_names::{CPath, Names};

fn are_named(path: &CPath, names: &Names) -> bool
    ensures { IsTrue result ↔ AreNamed names.now path.now }
{
    for name in path.names() {
        if name.0 >= names.len() {
            return false;
        }
    }
    true
}

/// Whether the namespaces of all roots have names of this table. Calls that make or tell their names ask it.
pub fn are_namespaces_named(layout: &Layout, names: &Names) -> bool
    ensures { IsTrue result ↔ AreNamespacesNamed names.now layout.now }
{
    for root in &layout.roots {
        if !are_named(&root.namespace, names) {
            return false;
        }
    }
    true
}
