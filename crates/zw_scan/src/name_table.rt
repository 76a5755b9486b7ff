//! Names by the constant path in which they stand.
ghost use Rattle.std.specs.Prelude.{◌≡◌, ◌++◌, ◌<◌, ℕ, List, [], false, IfOk, OnOk, length, map, if◌then◌else◌};
ghost use Rattle.std.specs.List.{All, fold};
ghost use Rattle.zw_def.specs.Text.{Text};
ghost use Rattle.zw_def.specs.Names.{AreNamed, IsDistinct, OnlyGrows, text_of, texts_of};
ghost use Rattle.zw_scan.specs.Children.{below_more, names_below};
ghost use Rattle.zw_scan.specs.FoundSeen.{IsFoundNamed};
ghost use Rattle.zw_scan.specs.NameTable.{AreEntries, entry_told, names_at, texts_at, with_entry};
ghost use Rattle.zw_scan.specs.Table.{same_numbers};

use crate::found::Found;
use crate::table::numbers_of;
use std::alloc::{AllocError, Global};
use std::collections::BTreeMap;
use zw_names::{CPath, Name, Names};

/// Names by the numbers of the constant path in which they stand, in byte order of their texts.
#[derive(Drop)]
pub(crate) struct NameTable {
    rows: BTreeMap<Vec<usize>, BTreeMap<String, Name>>,
}

/// The names in their order.
fn names_of(alloc: Global, kept: &BTreeMap<String, Name>) -> Result<Vec<Name>, AllocError>
    ensures { IfOk result (λ names. names.items ≡ map (λ e. e.1) kept.now.entries) }
{
    let mut names = Vec::new(alloc);
    for name in kept.values() {
        names.push(*name)?;
    }
    Ok(names)
}

impl NameTable {
    /// No names.
    fn new(alloc: Global) -> NameTable
        ensures { (q : List ℕ) → names_at q result ≡ [] }
    {
        NameTable {
            rows: BTreeMap::new(alloc),
        }
    }

    /// Takes the names out that are kept under the numbers.
    fn take(&mut self, alloc: Global, numbers: &[usize]) -> BTreeMap<String, Name>
        ensures value { map entry_told result.entries ≡ names_at numbers.now self.old }
        ensures others { (q : List ℕ) → same_numbers q numbers.now ≡ false → names_at q self.new ≡ names_at q self.old }
    {
        match self.rows.remove(numbers) {
            Some(kept) => kept,
            None => BTreeMap::new(alloc),
        }
    }

    /// Keeps the name under the path in which it stands.
    fn add(
        &mut self,
        alloc: Global,
        names: &Names,
        parent: &[Name],
        last: Name,
    ) -> Result<(), AllocError>
        requires { last.0 < length names.now }
        ensures { OnOk result ((q : List ℕ) → names_at q self.new
            ≡ (if same_numbers q (map (λ n. n.0) parent.now)
            then with_entry (text_of names.now last.0) last.0 (names_at q self.old) else names_at q self.old)) }
    {
        let numbers = numbers_of(alloc, parent)?;
        let mut kept = self.take(alloc, numbers.as_slice());
        kept.insert(String::from_str(alloc, names.text(last))?, last)?;
        self.rows.insert(numbers, kept)?;
        Ok(())
    }

    /// Keeps the last name of the path.
    fn add_path(&mut self, alloc: Global, names: &Names, path: &CPath) -> Result<(), AllocError>
        requires { AreNamed names.now path.now }
        ensures texts { OnOk result ((later : List Text) → OnlyGrows names.now later → IsDistinct later →
            (q : List ℕ) → AreNamed later q → texts_at q self.new
            ≡ below_more (texts_of later q) (texts_at q self.old) (texts_of later path.now)) }
        ensures entries { OnOk result (AreEntries names.now self.old → AreEntries names.now self.new) }
    {
        match path.names().split_last() {
            Some((last, parent)) => self.add(alloc, names, parent, *last),
            None => Ok(()),
        }
    }

    /// Keeps the last names of all these.
    fn add_all(&mut self, alloc: Global, names: &Names, found: &[Found]) -> Result<(), AllocError>
        requires { All (IsFoundNamed names.now) found.now }
        ensures texts { OnOk result ((later : List Text) → OnlyGrows names.now later → IsDistinct later →
            (q : List ℕ) → AreNamed later q → texts_at q self.new
            ≡ fold (below_more (texts_of later q)) (texts_at q self.old)
            (map (λ f. texts_of later f.names) found.now)) }
        ensures entries { OnOk result (AreEntries names.now self.old → AreEntries names.now self.new) }
    {
        for one in found {
            self.add_path(alloc, names, &one.names)?;
        }
        Ok(())
    }

    /// The last names of what is expected to define a constant.
    pub(crate) fn of(
        alloc: Global,
        names: &Names,
        files: &[Found],
        directories: &[Found],
    ) -> Result<NameTable, AllocError>
        requires files { All (IsFoundNamed names.now) files.now }
        requires directories { All (IsFoundNamed names.now) directories.now }
        ensures texts { IfOk result (λ table. (later : List Text) → OnlyGrows names.now later → IsDistinct later →
            (q : List ℕ) → AreNamed later q → texts_at q table ≡ names_below (texts_of later q)
            (map (λ f. texts_of later f.names) files.now ++ map (λ f. texts_of later f.names) directories.now)) }
        ensures entries { IfOk result (AreEntries names.now) }
    {
        let mut table = NameTable::new(alloc);
        table.add_all(alloc, names, files)?;
        table.add_all(alloc, names, directories)?;
        Ok(table)
    }

    /// The names that are kept under the path, in byte order of their texts.
    pub(crate) fn at(&self, alloc: Global, path: &CPath) -> Result<Vec<Name>, AllocError>
        ensures { IfOk result (λ names. map (λ n. n.0) names.items ≡ map (λ e. e.1) (names_at path.now self.now)) }
    {
        let numbers = numbers_of(alloc, path.names())?;
        match self.rows.get(numbers.as_slice()) {
            Some(kept) => names_of(alloc, kept),
            None => Ok(Vec::new(alloc)),
        }
    }
}
