//! The tables of all modules.
ghost use Rattle.std.specs.Prelude.{◌≡◌, ◌<◌, IfOk, OnOk, OnErr, length};
ghost use Rattle.zw_consts.specs.Table.{tables_of, no_tables, value_at, with_value, without_value, first_tables};

use crate::table::Table;
use std::alloc::{AllocError, Global};
use std::marker::Model;
use zw_heap::ModuleId;
use zw_names::Name;

/// What stands at the names of each module. Contracts see a list of tables by the numbers of modules, and read it by
/// `tables_of`, for which all tables past its end are empty.
#[derive(Drop)]
pub struct Tables<V: Copy + Drop> {
    alloc: Global,
    tables: Vec<Table<V>>,
}

impl<V: Copy + Drop> Model for Tables<V> {
    ghost use Rattle.std.specs.Prelude.{List};
    ghost use Rattle.zw_consts.specs.Table.{Table as Entries};

    ghost Value = { List (Entries V) };

    ghost view = { λ s. s.tables.items };
}

/// Adds empty tables until the one with that number is there.
fn make_room<V: Copy + Drop>(
    alloc: Global,
    tables: &mut Vec<Table<V>>,
    number: usize,
) -> Result<(), AllocError>
    ensures same { tables_of tables.new.items ≡ tables_of tables.old.items }
    ensures there { OnOk result (number < length tables.new.items) }
{
    while tables.len() <= number {
        tables.push(Table::new(alloc))?;
    }
    Ok(())
}

fn copy_tables<V: Copy + Drop>(
    alloc: Global,
    tables: &[Table<V>],
) -> Result<Vec<Table<V>>, AllocError>
    requires exact { (x y : V) → V.is_clone x y → y ≡ x }
    ensures { IfOk result (λ copy. copy.items ≡ tables.now) }
{
    let mut copy = Vec::new(alloc);
    for table in tables {
        copy.push(table.copy()?)?;
    }
    Ok(copy)
}

impl<V: Copy + Drop> Tables<V> {
    /// All tables are empty.
    pub fn new(alloc: Global) -> Tables<V>
        ensures { tables_of result ≡ no_tables }
    {
        Tables {
            alloc,
            tables: Vec::new(alloc),
        }
    }

    /// What stands at a name of a module. It takes no memory.
    pub fn get(&self, of: ModuleId, name: Name) -> Option<V>
        ensures { result ≡ value_at of.0 name.0 (tables_of self.now) }
    {
        match self.tables.get(of.0) {
            Some(table) => table.get(name),
            None => None,
        }
    }

    /// Sets what stands at that one name. A name that is there keeps its place, and a new one comes last.
    pub fn set(&mut self, of: ModuleId, name: Name, value: V) -> Result<(), AllocError>
        ensures set { OnOk result (tables_of self.new ≡ with_value of.0 name.0 value (tables_of self.old)) }
        ensures unchanged { OnErr result (tables_of self.new ≡ tables_of self.old) }
    {
        make_room(self.alloc, &mut self.tables, of.0)?;
        self.tables[of.0].set(name, value)
    }

    /// Clears that one name. The others of the table keep their order. It takes no memory.
    pub fn clear(&mut self, of: ModuleId, name: Name)
        ensures { tables_of self.new ≡ without_value of.0 name.0 (tables_of self.old) }
    {
        if let Some(table) = self.tables.get_mut(of.0) {
            table.clear(name);
        }
    }

    /// The same tables of so many modules alone, where a clone of a value is that value.
    pub fn copy_first(&self, count: usize) -> Result<Tables<V>, AllocError>
        requires exact { (x y : V) → V.is_clone x y → y ≡ x }
        ensures { IfOk result (λ copy. tables_of copy ≡ first_tables count (tables_of self.now)) }
    {
        let count = self.tables.len().min(count);
        Ok(Tables {
            alloc: self.alloc,
            tables: copy_tables(self.alloc, &self.tables[..count])?,
        })
    }
}
