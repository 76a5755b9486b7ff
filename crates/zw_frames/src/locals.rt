//! Variables of a frame.
ghost use Rattle.std.specs.Prelude.{◌≡◌, ◌<◌, [], IfOk, IfSome, OnOk, OnErr, length, nat_eq};
ghost use Rattle.std.specs.List.{All};
ghost use Rattle.std.specs.Map.{lookup};
ghost use Rattle.indexmap.specs.IndexMap.{insert_entry};
ghost use Rattle.zw_frames.specs.Locals.{first_at, required_locals};

use std::alloc::{AllocError, Global};
use std::marker::Model;
use zw_heap::Value;
use zw_names::Name;

/// A variable and its value.
#[derive(Clone, Copy, Debug, PartialEq, Eq)]
struct Local {
    name: Name,
    value: Value,
}

/// Variables in the order in which they were first set. Contracts see the pairs of a name's number and a value. There are
/// as many as a method or a session has, so they are looked through.
#[derive(Drop)]
pub struct Locals {
    entries: Vec<Local>,
}

impl Model for Locals {
    ghost use Rattle.std.specs.Prelude.{List, ℕ, map};
    ghost use Rattle.zw_heap.specs.declared.value.Value.{Value as Item};
    ghost use Rattle.zw_frames.specs.LocalsSeen.{entries_seen};

    ghost Value = { List (ℕ × Item) };

    ghost view = { λ s. entries_seen s.entries.items };
}

impl Locals {
    /// No variables.
    pub fn new(alloc: Global) -> Locals
        ensures { result ≡ [] }
    {
        Locals {
            entries: Vec::new(alloc),
        }
    }

    /// Required parameters, each with its argument.
    pub fn of_arguments(
        alloc: Global,
        names: &[Name],
        values: &[Value],
    ) -> Result<Locals, AllocError>
        ensures { IfOk result (λ made. made ≡ required_locals names.now values.now) }
    {
        let count = names.len().min(values.len());
        let mut entries = Vec::with_capacity(alloc, count)?;
        for at in 0..count {
            entries.push(Local {
                name: names[at],
                value: values[at],
            })?;
        }
        Ok(Locals { entries })
    }

    /// Where a variable stands.
    fn place(&self, name: Name) -> Option<usize>
        ensures first { result ≡ first_at name.0 self.now }
        ensures within { IfSome result (λ at. at < length self.now) }
    {
        for at in 0..self.entries.len() {
            if self.entries[at].name.0 == name.0 {
                return Some(at);
            }
        }
        None
    }

    /// The value of a variable, if it was set.
    pub fn get(&self, name: Name) -> Option<Value>
        ensures { result ≡ lookup (nat_eq name.0) self.now }
    {
        match self.place(name) {
            Some(at) => Some(self.entries[at].value),
            None => None,
        }
    }

    /// Sets a variable. One that is there keeps its place, and a new one comes last.
    pub fn set(&mut self, name: Name, value: Value) -> Result<(), AllocError>
        ensures set { OnOk result (self.new ≡ insert_entry nat_eq self.old name.0 value) }
        ensures unchanged { OnErr result (self.new ≡ self.old) }
    {
        match self.place(name) {
            Some(at) => {
                self.entries[at].value = value;
                Ok(())
            }
            None => {
                self.entries.push(Local { name, value })?;
                Ok(())
            }
        }
    }
}
