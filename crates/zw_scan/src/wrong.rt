//! The first wrong name directly below each namespace (Zeitwerk README, "File structure").
ghost use Rattle.std.specs.Prelude.{◌≡◌, ◌++◌, ℕ, List, Some, None, false, IfOk, IfSome, OnOk, filter_map, map, option_map, if◌then◌else◌};
ghost use Rattle.std.specs.List.{All, fold};
ghost use Rattle.zw_def.specs.Text.{Text};
ghost use Rattle.zw_def.specs.Names.{AreNamed, IsDistinct, OnlyGrows, texts_of};
ghost use Rattle.zw_inflect.specs.Layout.{layout_seen, root_seen};
ghost use Rattle.zw_layout.specs.Expects.{AreNamespacesNamed};
ghost use Rattle.zw_scan.specs.ClaimSeen.{claim_seen};
ghost use Rattle.zw_scan.specs.FoundSeen.{IsFoundNamed, found_seen};
ghost use Rattle.zw_scan.specs.Table.{paths_found, same_numbers};
ghost use Rattle.zw_scan.specs.Wrong as told;
ghost use Rattle.zw_scan.specs.WrongTable.{first_at, first_seen, kept_seen};

use crate::claim::Claim;
use crate::found::{Found, push_some};
use crate::table::numbers_of;
use std::alloc::{AllocError, Global};
use std::collections::BTreeMap;
use zw_inflect::{Layout, Root};
use zw_layout::{ExpectFault, belongs_to, namespace_above};
use zw_names::{CPath, Names};
use zw_path::Path;

/// The path up to a wrong name, and the number of the root to which it belongs.
#[derive(Drop)]
pub(crate) struct First {
    root: usize,
    path: Path,
}

/// The first wrong names, by the numbers of the namespaces directly below which they stand.
#[derive(Drop)]
pub(crate) struct WrongTable {
    rows: BTreeMap<Vec<usize>, First>,
}

/// The path up to the wrong name of a claim of the root, and the namespace in which the claim stands.
fn misnamed(
    alloc: Global,
    layout: &Layout,
    names: &mut Names,
    root: &Root,
    claim: &Claim,
) -> Result<Option<Found>, AllocError>
    requires { AreNamespacesNamed names.old layout.now }
    ensures told { IfOk result (λ found. (later : List Text) → OnlyGrows names.new later →
        option_map (found_seen later) found
        ≡ told.misnamed (layout_seen later layout.now) (root_seen later root.now) (claim_seen later claim.now)) }
    ensures named { IfOk result (λ found. IfSome found (IsFoundNamed names.new)) }
    ensures grows { OnlyGrows names.old names.new }
{
    let Err(wrong) = &claim.expected else {
        return Ok(None);
    };
    if !belongs_to(layout, root, &claim.path) {
        return Ok(None);
    }
    match namespace_above(alloc, layout, names, &claim.path) {
        Ok(Some(namespace)) => Ok(Some(Found {
            path: wrong.path.copy(alloc)?,
            names: namespace,
        })),
        Ok(None) => Ok(None),
        Err(ExpectFault::Refused(_)) => Ok(None),
        Err(ExpectFault::Memory) => Err(AllocError),
    }
}

/// Adds those of the claims that belong to the root and have a wrong name.
fn push_misnamed(
    alloc: Global,
    layout: &Layout,
    names: &mut Names,
    root: &Root,
    all: &mut Vec<Found>,
    claims: &[Claim],
) -> Result<(), AllocError>
    requires layout { AreNamespacesNamed names.old layout.now }
    requires named { All (IsFoundNamed names.old) all.old.items }
    ensures told { OnOk result ((later : List Text) → OnlyGrows names.new later →
        map (found_seen later) all.new.items ≡ map (found_seen later) all.old.items
        ++ filter_map (told.misnamed (layout_seen later layout.now) (root_seen later root.now))
        (map (claim_seen later) claims.now)) }
    ensures named { OnOk result (All (IsFoundNamed names.new) all.new.items) }
    ensures grows { OnlyGrows names.old names.new }
{
    for claim in claims {
        let found = misnamed(alloc, layout, names, root, claim)?;
        push_some(all, found)?;
    }
    Ok(())
}

/// The root's files and directories with a wrong name.
fn misnamed_all(
    alloc: Global,
    layout: &Layout,
    names: &mut Names,
    root: &Root,
    files: &[Claim],
    directories: &[Claim],
) -> Result<Vec<Found>, AllocError>
    requires { AreNamespacesNamed names.old layout.now }
    ensures told { IfOk result (λ all. (later : List Text) → OnlyGrows names.new later →
        map (found_seen later) all.items ≡ told.misnamed_all (layout_seen later layout.now)
        (map (claim_seen later) files.now) (map (claim_seen later) directories.now) (root_seen later root.now)) }
    ensures named { IfOk result (λ all. All (IsFoundNamed names.new) all.items) }
    ensures grows { OnlyGrows names.old names.new }
{
    let mut all = Vec::new(alloc);
    push_misnamed(alloc, layout, names, root, &mut all, files)?;
    push_misnamed(alloc, layout, names, root, &mut all, directories)?;
    Ok(all)
}

impl First {
    /// Whether this stays the first beside a path of a root of that number or a later one.
    fn stays(&self, root: usize, path: &Path) -> bool
        ensures { result ≡ told.stays root (first_seen self.now) path.now }
    {
        if self.root == root {
            self.path.precedes(path)
        } else {
            true
        }
    }
}

/// The first of those before and a path of a root of that number.
fn better(
    alloc: Global,
    first: Option<First>,
    root: usize,
    path: &Path,
) -> Result<First, AllocError>
    ensures { IfOk result (λ f. Some (first_seen f) ≡ told.better root (kept_seen first) path.now) }
{
    let Some(first) = first else {
        return Ok(First {
            root,
            path: path.copy(alloc)?,
        });
    };
    if first.stays(root, path) {
        return Ok(first);
    }
    let path = path.copy(alloc)?;
    Ok(First { root, path })
}

impl WrongTable {
    /// No paths.
    fn new(alloc: Global) -> WrongTable
        ensures { (q : List ℕ) → first_at q result ≡ None }
    {
        WrongTable {
            rows: BTreeMap::new(alloc),
        }
    }

    /// Takes out what is kept under the numbers.
    fn take(&mut self, numbers: &[usize]) -> Option<First>
        ensures value { kept_seen result ≡ first_at numbers.now self.old }
        ensures others { (q : List ℕ) → same_numbers q numbers.now ≡ false → first_at q self.new ≡ first_at q self.old }
    {
        self.rows.remove(numbers)
    }

    /// Keeps the path, which belongs to a root of that number, where it is the first in its namespace.
    fn add(&mut self, alloc: Global, root: usize, one: &Found) -> Result<(), AllocError>
        ensures { OnOk result ((q : List ℕ) → first_at q self.new ≡ (if same_numbers q one.now.names
            then told.better root (first_at q self.old) one.now.path else first_at q self.old)) }
    {
        let numbers = numbers_of(alloc, one.names.names())?;
        let kept = self.take(numbers.as_slice());
        let first = better(alloc, kept, root, &one.path)?;
        self.rows.insert(numbers, first)?;
        Ok(())
    }

    /// Keeps the first of these, which belong to a root of that number, in each namespace.
    fn add_all(&mut self, alloc: Global, root: usize, all: &[Found]) -> Result<(), AllocError>
        ensures { OnOk result ((q : List ℕ) →
            first_at q self.new ≡ fold (told.better root) (first_at q self.old) (paths_found q all.now)) }
    {
        for one in all {
            self.add(alloc, root, one)?;
        }
        Ok(())
    }

    /// The first wrong names of these files and directories, in root order and then in path order.
    pub(crate) fn of(
        alloc: Global,
        layout: &Layout,
        names: &mut Names,
        files: &[Claim],
        directories: &[Claim],
    ) -> Result<WrongTable, AllocError>
        requires { AreNamespacesNamed names.old layout.now }
        ensures told { IfOk result (λ table. (later : List Text) → OnlyGrows names.new later → IsDistinct later →
            (q : List ℕ) → AreNamed later q → first_at q table ≡ told.first_below (texts_of later q) 0 None
            (map (told.misnamed_all (layout_seen later layout.now) (map (claim_seen later) files.now)
            (map (claim_seen later) directories.now)) (map (root_seen later) layout.now.roots.items))) }
        ensures grows { OnlyGrows names.old names.new }
    {
        let mut table = WrongTable::new(alloc);
        for place in 0..layout.roots.len() {
            let root = &layout.roots[place];
            let all = misnamed_all(alloc, layout, names, root, files, directories)?;
            table.add_all(alloc, place, &all)?;
        }
        Ok(table)
    }

    /// The path up to the first wrong name directly below the namespace.
    pub(crate) fn at(&self, alloc: Global, namespace: &CPath) -> Result<Option<Path>, AllocError>
        ensures { IfOk result (λ path. path ≡ option_map (λ f. f.path) (first_at namespace.now self.now)) }
    {
        let numbers = numbers_of(alloc, namespace.names())?;
        match self.rows.get(numbers.as_slice()) {
            Some(first) => Ok(Some(first.path.copy(alloc)?)),
            None => Ok(None),
        }
    }
}
