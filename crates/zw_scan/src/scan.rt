//! What a layout shows of a whole tree.
ghost use Rattle.std.specs.Prelude.{◌≡◌, List, IfOk, OnOk, length, map};
ghost use Rattle.std.specs.List.{list_any, All};
ghost use Rattle.std.specs.BTreeSet.{contains};
ghost use Rattle.zw_def.specs.Text.{Text};
ghost use Rattle.zw_def.specs.Path.{Path as Components, same_path, path_cmp};
ghost use Rattle.zw_def.specs.Tree.{Tree as Files};
ghost use Rattle.zw_def.specs.Layout.{Layout as Shown};
ghost use Rattle.zw_def.specs.Names.{AreNamed, IsDistinct, OnlyGrows, texts_of};
ghost use Rattle.zw_def.specs.Visible.{keys_of, visible_files};
ghost use Rattle.zw_def.specs.Map.{all_expecting, expecting_directories, expecting_files, paths_of as listed};
ghost use Rattle.zw_inflect.specs.Layout.{layout_seen};
ghost use Rattle.zw_layout.specs.Expects.{AreNamespacesNamed};
ghost use Rattle.zw_scan.specs.ClaimTold.{directories_told, files_told};
ghost use Rattle.zw_scan.specs.ClaimSeen.{IsNamed, claim_seen};
ghost use Rattle.zw_scan.specs.FoundSeen.{IsFoundNamed, found_seen};
ghost use Rattle.zw_scan.specs.Children.{wrong_of};
ghost use Rattle.zw_scan.specs.ChildSeen.{AreBelow};
ghost use Rattle.zw_scan.specs.FileCount.{files_below};
ghost use Rattle.zw_scan.specs.IsScan.{AreFirst, IsScan, IsScanNamed};

use crate::claim::Claim;
use crate::directory::seen_directories;
use crate::file_count::FileCounts;
use crate::found::{Found, in_order, in_root_order};
use crate::name_table::NameTable;
use crate::seen_file::seen_files;
use crate::table::PathTable;
use crate::wrong::WrongTable;
use std::alloc::{AllocError, Global};
use std::collections::BTreeSet;
use zw_inflect::Layout;
use zw_names::{CPath, Name, Names};
use zw_path::Path;
use zw_tree::Tree;

/// What a layout shows of a tree: its visible files, what files and directories are expected to define, and by constant
/// path which of them are.
#[derive(Drop)]
pub struct Scan {
    claims: Vec<Claim>,
    visible: BTreeSet<Path>,
    files: Vec<Found>,
    directories: Vec<Found>,
    files_at: PathTable,
    directories_at: PathTable,
    below: NameTable,
    wrong: WrongTable,
    counts: FileCounts,
}

/// The paths of the claims.
fn paths_of(alloc: Global, claims: &[Claim]) -> Result<BTreeSet<Path>, AllocError>
    ensures { IfOk result (λ paths. (p : Components) →
        contains path_cmp paths p ≡ list_any (same_path p) (map (λ c. c.path) claims.now)) }
{
    let mut paths = BTreeSet::new(alloc);
    for claim in claims {
        paths.insert(claim.path.copy(alloc)?)?;
    }
    Ok(paths)
}

impl Scan {
    /// What the layout shows of the tree. Names are made for it.
    pub fn mount(
        alloc: Global,
        layout: &Layout,
        tree: &Tree,
        names: &mut Names,
    ) -> Result<Scan, AllocError>
        requires { AreNamespacesNamed names.old layout.now }
        ensures scan { IfOk result (λ scan. (later : List Text) → OnlyGrows names.new later →
            IsScan later (layout_seen later layout.now) tree.now scan) }
        ensures named { IfOk result (IsScanNamed names.new) }
        ensures grows { OnlyGrows names.old names.new }
    {
        tree.is_tree();
        let paths = tree.paths(alloc)?;
        let claims = seen_files(alloc, layout, names, paths.as_slice())?;
        let above = seen_directories(alloc, layout, names, claims.as_slice())?;
        let wrong = WrongTable::of(alloc, layout, names, &claims, &above)?;
        Scan::of(alloc, layout, names, claims, &above, wrong)
    }

    /// The scan of these files and directories.
    fn of(
        alloc: Global,
        layout: &Layout,
        names: &Names,
        claims: Vec<Claim>,
        above: &[Claim],
        wrong: WrongTable,
    ) -> Result<Scan, AllocError>
        requires claims { All (IsNamed names.now) claims.items }
        requires above { All (IsNamed names.now) above.now }
        ensures told { IfOk result (λ scan. (later : List Text) (tree : Files) → OnlyGrows names.now later →
            map (claim_seen later) claims.items ≡ files_told (layout_seen later layout.now) (keys_of tree) →
            map (claim_seen later) above.now ≡ directories_told (layout_seen later layout.now) tree →
            AreFirst later (layout_seen later layout.now) tree wrong →
            IsScan later (layout_seen later layout.now) tree scan) }
        ensures named { IfOk result (IsScanNamed names.now) }
    {
        let visible = paths_of(alloc, &claims)?;
        let files = in_root_order(alloc, layout, &claims)?;
        let directories = in_order(alloc, above)?;
        let files_at = PathTable::of(alloc, &files)?;
        let directories_at = PathTable::of(alloc, &directories)?;
        let below = NameTable::of(alloc, names, &files, &directories)?;
        let counts = FileCounts::of(alloc, &claims)?;
        Ok(Scan {
            claims,
            visible,
            files,
            directories,
            files_at,
            directories_at,
            below,
            wrong,
            counts,
        })
    }

    /// The names directly below the constant path, in byte order.
    pub(crate) fn names_below(&self, alloc: Global, path: &CPath) -> Result<Vec<Name>, AllocError>
        ensures { IfOk result (λ below. (names : List Text) (layout : Shown) (tree : Files) →
            IsScan names layout tree self.now → IsDistinct names → AreNamed names path.now →
            AreBelow names layout tree path.now below.items) }
    {
        self.below.at(alloc, path)
    }

    /// The path up to the first wrong name directly below the constant path, in root order and then in path order.
    pub(crate) fn wrong_below(
        &self,
        alloc: Global,
        path: &CPath,
    ) -> Result<Option<Path>, AllocError>
        ensures { IfOk result (λ wrong. (names : List Text) (layout : Shown) (tree : Files) →
            IsScan names layout tree self.now → IsDistinct names → AreNamed names path.now →
            wrong ≡ wrong_of layout tree (texts_of names path.now)) }
    {
        self.wrong.at(alloc, path)
    }

    /// Whether the path is that of a visible file of the tree.
    pub fn visible(&self, path: &Path) -> bool
        ensures { (names : List Text) (layout : Shown) (tree : Files) → IsScan names layout tree self.now →
            result ≡ list_any (same_path path.now) (visible_files layout tree) }
    {
        self.visible.contains(path)
    }

    /// How many visible files stand below the directory, at any depth, those of roots nested in it among them.
    pub fn files_below(&self, directory: &Path) -> usize
        ensures { (names : List Text) (layout : Shown) (tree : Files) → IsScan names layout tree self.now →
            result ≡ files_below layout tree directory.now }
    {
        self.counts.at(directory)
    }

    /// The visible files in path order, and what each is expected to define.
    pub fn claims(&self) -> &[Claim]
        ensures told { (names : List Text) (layout : Shown) (tree : Files) → IsScan names layout tree self.now →
            map (claim_seen names) result.now ≡ files_told layout (keys_of tree) }
        ensures named { (names : List Text) → IsScanNamed names self.now → All (IsNamed names) result.now }
    {
        self.claims.as_slice()
    }

    /// The files that are expected to define a constant, in root order and then in path order.
    pub fn files(&self) -> &[Found]
        ensures told { (names : List Text) (layout : Shown) (tree : Files) → IsScan names layout tree self.now →
            map (found_seen names) result.now ≡ expecting_files layout tree }
        ensures named { (names : List Text) → IsScanNamed names self.now → All (IsFoundNamed names) result.now }
    {
        self.files.as_slice()
    }

    /// The directories that are expected to define a constant, in root order and then in path order.
    pub fn directories(&self) -> &[Found]
        ensures told { (names : List Text) (layout : Shown) (tree : Files) → IsScan names layout tree self.now →
            map (found_seen names) result.now ≡ expecting_directories layout tree }
        ensures named { (names : List Text) → IsScanNamed names self.now → All (IsFoundNamed names) result.now }
    {
        self.directories.as_slice()
    }

    /// The files that are expected to define the constant: the first one wins, and the others are shadowed.
    pub fn files_at(&self, alloc: Global, path: &CPath) -> Result<&[Path], AllocError>
        ensures { IfOk result (λ paths. (names : List Text) (layout : Shown) (tree : Files) →
            IsScan names layout tree self.now → IsDistinct names → AreNamed names path.now →
            paths.now ≡ listed (all_expecting (texts_of names path.now) (expecting_files layout tree))) }
    {
        self.files_at.at(alloc, path)
    }

    /// The directories that are expected to define the constant.
    pub fn directories_at(&self, alloc: Global, path: &CPath) -> Result<&[Path], AllocError>
        ensures { IfOk result (λ paths. (names : List Text) (layout : Shown) (tree : Files) →
            IsScan names layout tree self.now → IsDistinct names → AreNamed names path.now →
            paths.now ≡ listed (all_expecting (texts_of names path.now) (expecting_directories layout tree))) }
    {
        self.directories_at.at(alloc, path)
    }
}
