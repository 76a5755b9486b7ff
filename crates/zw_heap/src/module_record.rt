//! Records of classes and modules.
ghost use Rattle.std.specs.Prelude.{◌≡◌, IfOk, OnOk, OnErr, nat_eq};
ghost use Rattle.std.specs.Map.{lookup};
ghost use Rattle.zw_heap.specs.ModuleRecord.{new_module, with_include, with_extension, with_variable, with_class_variable, frozen_module};

use crate::value::{ModuleId, ModuleKind, Value};
use crate::variables::Variables;
use std::alloc::{AllocError, Global};
use std::marker::Model;
use zw_names::{CPath, Name};

/// The record of a class or module.
#[derive(Drop)]
pub(crate) struct ModuleRecord {
    place: usize,
    count: usize,
    path: CPath,
    kind: ModuleKind,
    includes: Vec<ModuleId>,
    extensions: Vec<ModuleId>,
    variables: Variables,
    class_variables: Variables,
    is_frozen: bool,
}

impl Model for ModuleRecord {
    ghost use Rattle.zw_heap.specs.ModuleRecord.{Module};

    ghost Value = { Module };

    ghost view = { λ m. record {
      made = record { place = m.place; count = m.count };
      path = m.path;
      kind = m.kind;
      includes = m.includes.items;
      extensions = m.extensions.items;
      variables = m.variables;
      class_variables = m.class_variables;
      is_frozen = m.is_frozen;
    } };
}

impl ModuleRecord {
    /// A record of its own, made at a place as the one with that count.
    pub(crate) fn new(
        alloc: Global,
        place: usize,
        count: usize,
        path: CPath,
        kind: ModuleKind,
    ) -> ModuleRecord
        ensures { result ≡ new_module (record { place = place; count = count }) path kind }
    {
        ModuleRecord {
            place,
            count,
            path,
            kind,
            includes: Vec::new(alloc),
            extensions: Vec::new(alloc),
            variables: Variables::new(alloc),
            class_variables: Variables::new(alloc),
            is_frozen: false,
        }
    }

    pub(crate) fn path(&self) -> &CPath
        ensures { result.now ≡ self.now.path }
    {
        &self.path
    }

    pub(crate) fn kind(&self) -> ModuleKind
        ensures { result ≡ self.now.kind }
    {
        self.kind
    }

    pub(crate) fn includes(&self) -> &[ModuleId]
        ensures { result.now ≡ self.now.includes }
    {
        self.includes.as_slice()
    }

    pub(crate) fn extensions(&self) -> &[ModuleId]
        ensures { result.now ≡ self.now.extensions }
    {
        self.extensions.as_slice()
    }

    pub(crate) fn variable(&self, name: Name) -> Option<Value>
        ensures { result ≡ lookup (nat_eq name.0) self.now.variables }
    {
        self.variables.get(name)
    }

    pub(crate) fn class_variable(&self, name: Name) -> Option<Value>
        ensures { result ≡ lookup (nat_eq name.0) self.now.class_variables }
    {
        self.class_variables.get(name)
    }

    pub(crate) fn is_frozen(&self) -> bool
        ensures { result ≡ self.now.is_frozen }
    {
        self.is_frozen
    }

    pub(crate) fn add_include(&mut self, added: ModuleId) -> Result<(), AllocError>
        ensures ok { OnOk result (self.new ≡ with_include added self.old) }
        ensures err { OnErr result (self.new ≡ self.old) }
    {
        self.includes.insert(0, added)?;
        Ok(())
    }

    pub(crate) fn add_extension(&mut self, added: ModuleId) -> Result<(), AllocError>
        ensures ok { OnOk result (self.new ≡ with_extension added self.old) }
        ensures err { OnErr result (self.new ≡ self.old) }
    {
        self.extensions.insert(0, added)?;
        Ok(())
    }

    pub(crate) fn set_variable(&mut self, name: Name, to: Value) -> Result<(), AllocError>
        ensures ok { OnOk result (self.new ≡ with_variable name.0 to self.old) }
        ensures err { OnErr result (self.new ≡ self.old) }
    {
        self.variables.set(name, to)
    }

    pub(crate) fn set_class_variable(&mut self, name: Name, to: Value) -> Result<(), AllocError>
        ensures ok { OnOk result (self.new ≡ with_class_variable name.0 to self.old) }
        ensures err { OnErr result (self.new ≡ self.old) }
    {
        self.class_variables.set(name, to)
    }

    pub(crate) fn freeze(&mut self)
        ensures { self.new ≡ frozen_module self.old }
    {
        self.is_frozen = true;
    }

    /// The same record.
    pub(crate) fn copy(&self, alloc: Global) -> Result<ModuleRecord, AllocError>
        ensures { IfOk result (λ copy. copy ≡ self.now) }
    {
        Ok(ModuleRecord {
            place: self.place,
            count: self.count,
            path: self.path.copy(alloc)?,
            kind: self.kind,
            includes: Vec::from_slice(alloc, self.includes.as_slice())?,
            extensions: Vec::from_slice(alloc, self.extensions.as_slice())?,
            variables: self.variables.copy()?,
            class_variables: self.class_variables.copy()?,
            is_frozen: self.is_frozen,
        })
    }
}
