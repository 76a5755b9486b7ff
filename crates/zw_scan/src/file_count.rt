//! How many visible files stand below each directory.
ghost use Rattle.std.specs.Prelude.{◌≡◌, ◌+◌, ◌<◌, IfOk, OnOk, map, if◌then◌else◌};
ghost use Rattle.zw_def.specs.Path.{Path as Components, same_path};
ghost use Rattle.zw_scan.specs.FileCount.{count_below, count_of, is_above};

use crate::claim::Claim;
use std::alloc::{AllocError, Global};
use std::collections::BTreeMap;
use zw_path::Path;

/// The numbers of files below directories; one that is not kept has none.
#[derive(Drop)]
pub(crate) struct FileCounts {
    rows: BTreeMap<Path, usize>,
}

impl FileCounts {
    /// No files.
    fn new(alloc: Global) -> FileCounts
        ensures { (d : Components) → count_of result d ≡ 0 }
    {
        FileCounts {
            rows: BTreeMap::new(alloc),
        }
    }

    /// How many files stand below the directory.
    pub(crate) fn at(&self, directory: &Path) -> usize
        ensures { result ≡ count_of self.now directory.now }
    {
        match self.rows.get(directory) {
            Some(count) => *count,
            None => 0,
        }
    }

    /// Counts one more file below the directory.
    fn add(&mut self, directory: Path) -> Result<(), AllocError>
        requires { count_of self.old directory < usize.MAX }
        ensures { OnOk result ((d : Components) →
            count_of self.new d ≡ count_of self.old d + (if same_path d directory then 1 else 0)) }
    {
        let count = self.at(&directory) + 1;
        self.rows.insert(directory, count)?;
        Ok(())
    }

    /// Counts the file for each directory above it.
    fn add_above(&mut self, alloc: Global, file: &Path) -> Result<(), AllocError>
        requires { (d : Components) → count_of self.old d < usize.MAX }
        ensures { OnOk result ((d : Components) →
            count_of self.new d ≡ count_of self.old d + (if is_above d file.now then 1 else 0)) }
    {
        for depth in 1..file.components().len() {
            self.add(file.beginning(alloc, depth)?)?;
        }
        Ok(())
    }

    /// The numbers of these files.
    pub(crate) fn of(alloc: Global, files: &[Claim]) -> Result<FileCounts, AllocError>
        ensures { IfOk result (λ counts. (d : Components) →
            count_of counts d ≡ count_below (map (λ f. f.path) files.now) d) }
    {
        let mut counts = FileCounts::new(alloc);
        for file in files {
            counts.add_above(alloc, &file.path)?;
        }
        Ok(counts)
    }
}
