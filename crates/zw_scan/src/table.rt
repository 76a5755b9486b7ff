//! Paths by constant path.
ghost use Rattle.std.specs.Prelude.{◌≡◌, ◌++◌, ℕ, List, [], ◌∷◌, false, IfOk, OnOk, map, if◌then◌else◌};
ghost use Rattle.zw_scan.specs.Table.{paths_at, paths_found, same_numbers};

use crate::found::Found;
use std::alloc::{AllocError, Global};
use std::collections::BTreeMap;
use zw_names::{CPath, Name};
use zw_path::Path;

/// Paths by the numbers of the names of a constant path.
#[derive(Drop)]
pub(crate) struct PathTable {
    rows: BTreeMap<Vec<usize>, Vec<Path>>,
}

/// The numbers of the names.
pub(crate) fn numbers_of(alloc: Global, names: &[Name]) -> Result<Vec<usize>, AllocError>
    ensures { IfOk result (λ numbers. numbers.items ≡ map (λ n. n.0) names.now) }
{
    let mut numbers = Vec::with_capacity(alloc, names.len())?;
    for name in names {
        numbers.push(name.0)?;
    }
    Ok(numbers)
}

impl PathTable {
    /// No paths.
    pub(crate) fn new(alloc: Global) -> PathTable
        ensures { (q : List ℕ) → paths_at q result ≡ [] }
    {
        PathTable {
            rows: BTreeMap::new(alloc),
        }
    }

    /// Takes the paths out that are kept under the numbers.
    fn take(&mut self, alloc: Global, numbers: &[usize]) -> Vec<Path>
        ensures value { result.items ≡ paths_at numbers.now self.old }
        ensures others { (q : List ℕ) → same_numbers q numbers.now ≡ false → paths_at q self.new ≡ paths_at q self.old }
    {
        match self.rows.remove(numbers) {
            Some(paths) => paths,
            None => Vec::new(alloc),
        }
    }

    /// Keeps the path under the constant path, behind those that are there.
    fn add(&mut self, alloc: Global, names: &CPath, path: Path) -> Result<(), AllocError>
        ensures { OnOk result ((q : List ℕ) → paths_at q self.new
            ≡ (if same_numbers q names.now then paths_at q self.old ++ path ∷ [] else paths_at q self.old)) }
    {
        let numbers = numbers_of(alloc, names.names())?;
        let mut paths = self.take(alloc, numbers.as_slice());
        paths.push(path)?;
        self.rows.insert(numbers, paths)?;
        Ok(())
    }

    /// The paths that are expected to define each constant.
    pub(crate) fn of(alloc: Global, found: &[Found]) -> Result<PathTable, AllocError>
        ensures { IfOk result (λ table. (q : List ℕ) → paths_at q table ≡ paths_found q found.now) }
    {
        let mut table = PathTable::new(alloc);
        for one in found {
            table.add(alloc, &one.names, one.path.copy(alloc)?)?;
        }
        Ok(table)
    }

    /// The paths that are kept under the constant path.
    pub(crate) fn at(&self, alloc: Global, names: &CPath) -> Result<&[Path], AllocError>
        ensures { IfOk result (λ paths. paths.now ≡ paths_at names.now self.now) }
    {
        let numbers = numbers_of(alloc, names.names())?;
        match self.rows.get(numbers.as_slice()) {
            Some(paths) => Ok(paths.as_slice()),
            None => Ok(&[]),
        }
    }
}
