//! Whether what boot defines has names of a table.
ghost use Rattle.std.specs.Prelude.{◌↔◌, IsTrue};
ghost use Rattle.zw_def.specs.Names.{AreNamed};
ghost use Rattle.zw_map.specs.BootSeen.{AreBootNamed};

use zw_names::{CPath, Names};

fn are_named(path: &CPath, names: &Names) -> bool
    ensures { IsTrue result ↔ AreNamed names.now path.now }
{
    for name in path.names() {
        if name.0 >= names.len() {
            return false;
        }
    }
    true
}

/// Whether the paths that boot defines have names of this table. `keys` and `shadows` ask it.
pub fn are_boot_named(boot: &[(CPath, bool)], names: &Names) -> bool
    ensures { IsTrue result ↔ AreBootNamed names.now boot.now }
{
    for row in boot {
        if !are_named(&row.0, names) {
            return false;
        }
    }
    true
}
