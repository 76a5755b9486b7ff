//! Overrides.
ghost use Rattle.std.specs.Prelude.{◌≡◌, [], IfOk, OnOk, OnErr, option_map};
ghost use Rattle.zw_def.specs.Inflector.{override_of};
ghost use Rattle.zw_inflect.specs.Overrides.{with_override};

use indexmap::IndexMap;
use std::alloc::{AllocError, Global};
use std::marker::Model;

/// Bases, and the names that are written for them, in the order in which they were added. Contracts see the pairs.
#[derive(Drop)]
pub struct Overrides {
    names: IndexMap<String, String>,
}

impl Model for Overrides {
    ghost use Rattle.std.specs.Prelude.{List, ℕ, map, string_bytes};
    ghost use Rattle.std.specs.Coded.{coded_ℕ, coded_list, coded×};

    ghost Value = { List (List ℕ × List ℕ) };

    ghost coded = { coded_list (coded× (coded_list coded_ℕ) (coded_list coded_ℕ)) };

    ghost view = { λ o. map (λ p. (string_bytes p.0, string_bytes p.1)) o.names.entries };
}

impl Overrides {
    /// No overrides.
    pub fn new(alloc: Global) -> Overrides
        ensures { result ≡ [] }
    {
        Overrides {
            names: IndexMap::new(alloc),
        }
    }

    /// Adds the name of a base. Where the base has one, the new name takes its place.
    pub fn insert(&mut self, alloc: Global, base: &str, name: &str) -> Result<(), AllocError>
        ensures added { OnOk result (self.new ≡ with_override self.old base.now name.now) }
        ensures unchanged { OnErr result (self.new ≡ self.old) }
    {
        let base = String::from_str(alloc, base)?;
        let name = String::from_str(alloc, name)?;
        self.names.insert(base, name)?;
        Ok(())
    }

    /// The name that is written for the whole base, if one is.
    pub fn name_of(&self, base: &str) -> Option<&str>
        ensures { option_map (λ s. s.now) result ≡ override_of self.now base.now }
    {
        self.names.get(base).map(|name| name.as_str())
    }

    /// The same overrides.
    pub fn copy(&self) -> Result<Overrides, AllocError>
        ensures { IfOk result (λ copy. copy ≡ self.now) }
    {
        Ok(Overrides {
            names: self.names.clone()?,
        })
    }
}
