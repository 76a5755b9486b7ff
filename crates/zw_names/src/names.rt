//! A table of names.
ghost use Rattle.std.specs.Prelude.{◌≡◌, ◌<◌, [], ◌==◌, Some, IfSome, IfOk, IsOkAnd, OnOk, OnErr, is_some, length, slice_get};
ghost use Rattle.std.specs.List.{list_any};
ghost use Rattle.std.specs.Str.{bytes_eq};
ghost use Rattle.zw_def.specs.Names.{IsDistinct, OnlyGrows, with_name};

use indexmap::IndexSet;
use std::alloc::{AllocError, Global};
use std::marker::Model;

/// A name, by its number in the `Names` that made it.
#[derive(Clone, Copy, Debug, PartialEq, Eq, PartialOrd, Ord, Hash)]
pub struct Name(pub usize);

/// An entry of the loader, by its number.
#[derive(Clone, Copy, Debug, PartialEq, Eq, PartialOrd, Ord, Hash)]
pub struct EntryId(pub usize);

/// Names in the order in which they were made. Contracts see the list of their texts: a name stays at its number.
#[derive(Drop)]
pub struct Names {
    alloc: Global,
    texts: IndexSet<String>,
}

impl Model for Names {
    ghost use Rattle.std.specs.Prelude.{List, ℕ, map, string_bytes};
    ghost use Rattle.std.specs.Coded.{coded_ℕ, coded_list};
    ghost use Rattle.zw_def.specs.Names.{IsDistinct};

    ghost Value = { List (List ℕ) };

    ghost coded = { coded_list (coded_list coded_ℕ) };

    ghost view = { λ s. map string_bytes s.texts.keys };

    ghost invariant = { λ s. IsDistinct (map string_bytes s.texts.keys) };
}

impl Names {
    /// No names yet.
    pub fn new(alloc: Global) -> Result<Names, AllocError>
        ensures { IsOkAnd result (λ names. names ≡ []) }
    {
        Ok(Names {
            alloc,
            texts: IndexSet::new(alloc),
        })
    }

    /// The name with a text, which is made where there is none.
    pub fn intern(&mut self, text: &str) -> Result<Name, AllocError>
        ensures named { IfOk result (λ name. slice_get self.new name.0 ≡ Some text.now) }
        ensures added { OnOk result (self.new ≡ with_name self.old text.now) }
        ensures err { OnErr result (self.new ≡ self.old) }
        ensures grows { OnlyGrows self.old self.new }
    {
        if let Some(number) = self.texts.get_index_of(text) {
            return Ok(Name(number));
        }
        let number = self.texts.len();
        self.texts.insert(String::from_str(self.alloc, text)?)?;
        Ok(Name(number))
    }

    /// The name with a text, if one was made. No other name has the text.
    pub fn find(&self, text: &str) -> Option<Name>
        ensures named { IfSome result (λ name. slice_get self.now name.0 ≡ Some text.now) }
        ensures found { is_some result ≡ list_any (bytes_eq text.now) self.now }
        ensures distinct { IsDistinct self.now }
    {
        let number = self.texts.get_index_of(text)?;
        Some(Name(number))
    }

    /// The text of a name that was made here.
    pub fn text(&self, name: Name) -> &str
        requires { name.0 < length self.now }
        ensures { slice_get self.now name.0 ≡ Some result.now }
    {
        self.texts.as_slice()[name.0].as_str()
    }

    /// How many names there are.
    pub fn len(&self) -> usize
        ensures { result ≡ length self.now }
    {
        self.texts.len()
    }

    /// Whether there is no name.
    pub fn is_empty(&self) -> bool
        ensures { result ≡ (length self.now == 0) }
    {
        self.texts.is_empty()
    }

    /// The same names, at the same numbers.
    pub fn copy(&self) -> Result<Names, AllocError>
        ensures { IfOk result (λ copy. copy ≡ self.now) }
    {
        let mut copy = Names::new(self.alloc)?;
        for text in self.texts.as_slice() {
            copy.intern(text.as_str())?;
        }
        Ok(copy)
    }

    /// No text has two names.
    pub fn are_distinct(&self)
        ensures { IsDistinct self.now }
    {
        let _ = &self.texts;
    }
}
