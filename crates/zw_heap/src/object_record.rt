//! Records of objects.
ghost use Rattle.std.specs.Prelude.{◌≡◌, IfOk, OnOk, OnErr, nat_eq};
ghost use Rattle.std.specs.Map.{lookup};
ghost use Rattle.std.specs.Option.{option_map};
ghost use Rattle.zw_heap.specs.ObjectRecord.{new_object, with_object_variable, with_message, frozen_object};

use crate::value::{ModuleId, Value};
use crate::variables::Variables;
use std::alloc::{AllocError, Global};
use std::marker::Model;
use zw_names::Name;

/// The record of an object. An exception may keep a text.
#[derive(Drop)]
pub(crate) struct ObjectRecord {
    place: usize,
    count: usize,
    class: ModuleId,
    variables: Variables,
    is_frozen: bool,
    message: Option<String>,
}

impl Model for ObjectRecord {
    ghost use Rattle.std.specs.Prelude.{string_bytes};
    ghost use Rattle.std.specs.Option.{option_map};
    ghost use Rattle.zw_heap.specs.ObjectRecord.{Object};

    ghost Value = { Object };

    ghost view = { λ o. record {
      made = record { place = o.place; count = o.count };
      class = o.class;
      variables = o.variables;
      is_frozen = o.is_frozen;
      message = option_map string_bytes o.message;
    } };
}

impl ObjectRecord {
    /// A record of its own, made at a place as the one with that count.
    pub(crate) fn new(alloc: Global, place: usize, count: usize, class: ModuleId) -> ObjectRecord
        ensures { result ≡ new_object (record { place = place; count = count }) class }
    {
        ObjectRecord {
            place,
            count,
            class,
            variables: Variables::new(alloc),
            is_frozen: false,
            message: None,
        }
    }

    pub(crate) fn class(&self) -> ModuleId
        ensures { result ≡ self.now.class }
    {
        self.class
    }

    pub(crate) fn variable(&self, name: Name) -> Option<Value>
        ensures { result ≡ lookup (nat_eq name.0) self.now.variables }
    {
        self.variables.get(name)
    }

    pub(crate) fn is_frozen(&self) -> bool
        ensures { result ≡ self.now.is_frozen }
    {
        self.is_frozen
    }

    pub(crate) fn message(&self) -> Option<&str>
        ensures { option_map (λ s. s.now) result ≡ self.now.message }
    {
        match &self.message {
            Some(text) => Some(text.as_str()),
            None => None,
        }
    }

    pub(crate) fn set_variable(&mut self, name: Name, to: Value) -> Result<(), AllocError>
        ensures ok { OnOk result (self.new ≡ with_object_variable name.0 to self.old) }
        ensures err { OnErr result (self.new ≡ self.old) }
    {
        self.variables.set(name, to)
    }

    pub(crate) fn set_message(&mut self, alloc: Global, text: &str) -> Result<(), AllocError>
        ensures ok { OnOk result (self.new ≡ with_message text.now self.old) }
        ensures err { OnErr result (self.new ≡ self.old) }
    {
        self.message = Some(String::from_str(alloc, text)?);
        Ok(())
    }

    pub(crate) fn freeze(&mut self)
        ensures { self.new ≡ frozen_object self.old }
    {
        self.is_frozen = true;
    }

    /// The same record.
    pub(crate) fn copy(&self, alloc: Global) -> Result<ObjectRecord, AllocError>
        ensures { IfOk result (λ copy. copy ≡ self.now) }
    {
        let message = match &self.message {
            Some(text) => Some(String::from_str(alloc, text.as_str())?),
            None => None,
        };
        Ok(ObjectRecord {
            place: self.place,
            count: self.count,
            class: self.class,
            variables: self.variables.copy()?,
            is_frozen: self.is_frozen,
            message,
        })
    }
}
