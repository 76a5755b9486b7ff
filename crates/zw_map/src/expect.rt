//! What the visible files of a tree are expected to define (Zeitwerk README, "File structure").
ghost use Rattle.std.specs.Prelude.{◌≡◌, List, IfOk, IfSome, map};
ghost use Rattle.std.specs.List.{All};
ghost use Rattle.zw_def.specs.Text.{Text};
ghost use Rattle.zw_def.specs.Tree.{Tree as Files};
ghost use Rattle.zw_def.specs.Layout.{Layout as Shown};
ghost use Rattle.zw_def.specs.Names.{AreNamed, OnlyGrows};
ghost use Rattle.zw_inflect.specs.Layout.{layout_seen};
ghost use Rattle.zw_layout.specs.Expects.{AreNamespacesNamed, ExpectsAny};
ghost use Rattle.zw_scan.specs.FoundSeen.{IsFoundNamed, found_seen};
ghost use Rattle.zw_scan.specs.IsScan.{IsScan, IsScanNamed};
ghost use Rattle.zw_map.specs.Expected.{all_expected, expected_of};

use std::alloc::{AllocError, Global};
use zw_inflect::Layout;
use zw_layout::{ExpectFault, expected_path};
use zw_names::{CPath, Names};
use zw_path::Path;
use zw_scan::{Found, Scan, in_order};

/// What the file at the path is expected to define, if it is a visible file of the tree. The scan is that of the tree
/// under this layout.
pub fn expected(
    alloc: Global,
    layout: &Layout,
    scan: &Scan,
    path: &Path,
    names: &mut Names,
) -> Result<Option<CPath>, ExpectFault>
    requires { AreNamespacesNamed names.old layout.now }
    ensures told { (later : List Text) (tree : Files) → OnlyGrows names.new later →
        IsScan later (layout_seen later layout.now) tree scan.now →
        ExpectsAny later result (expected_of (layout_seen later layout.now) tree path.now) }
    ensures named { IfOk result (λ p. IfSome p (AreNamed names.new)) }
    ensures grows { OnlyGrows names.old names.new }
{
    if scan.visible(path) {
        expected_path(alloc, layout, names, path)
    } else {
        Ok(None)
    }
}

/// The visible files with a constant path, in path order, and these paths.
pub fn all_expected(alloc: Global, scan: &Scan) -> Result<Vec<Found>, AllocError>
    ensures told { IfOk result (λ all. (names : List Text) (layout : Shown) (tree : Files) →
        IsScan names layout tree scan.now → map (found_seen names) all.items ≡ all_expected layout tree) }
    ensures named { IfOk result (λ all. (names : List Text) →
        IsScanNamed names scan.now → All (IsFoundNamed names) all.items) }
{
    in_order(alloc, scan.claims())
}
