//! Constant paths.
ghost use Rattle.std.specs.Prelude.{◌≡◌, ◌<◌, ◌-◌, ◌↔◌, [], ◌∷◌, ◌++◌, Some, None, Err, IsNone, IfSome, IfOk, OnOk, OnErr, length, map, slice_get, take, string_bytes};
ghost use Rattle.zw_def.specs.ConstantPath.{parts_of, constant_path_of, constant_path_text, scoped};
ghost use Rattle.zw_base.specs.Fault.{IsRefusedFor};
ghost use Rattle.zw_def.specs.Names.{OnlyGrows, AreNamed, texts_of};

use crate::names::{Name, Names};
use crate::parts::{OBJECT, are_constants, first_part};
use std::alloc::{AllocError, Global};
use std::marker::Model;
use thiserror::Error;
use zw_base::Fault;

/// Why a text tells no constant path.
#[derive(Clone, Copy, Debug, PartialEq, Eq, Error)]
pub enum BadCPath {
    /// A part of the text between the places of `::` is no constant's name.
    #[error("not a constant path")]
    NotAConstant,
}

/// Why there is no constant path: the text tells none, or there was no memory.
pub type CPathFault = Fault<BadCPath>;

/// A constant path: a list of names. Contracts see the list of their numbers.
#[derive(Drop)]
pub struct CPath {
    names: Vec<Name>,
}

impl Model for CPath {
    ghost use Rattle.std.specs.Prelude.{List, ℕ, map};
    ghost use Rattle.std.specs.Coded.{coded_ℕ, coded_list};
    ghost use Rattle.zw_names.specs.declared.names.Name.{Name};

    ghost Value = { List ℕ };

    ghost coded = { coded_list coded_ℕ };

    ghost view = { λ p. map (λ (n : Name). n.0) p.names.items };
}

/// The names of the parts of a text.
fn intern_parts(alloc: Global, names: &mut Names, text: &str) -> Result<Vec<Name>, AllocError>
    ensures told { IfOk result (λ path. texts_of names.new (map (λ n. n.0) path.items) ≡ parts_of text.now) }
    ensures named { IfOk result (λ path. AreNamed names.new (map (λ n. n.0) path.items)) }
    ensures grows { OnlyGrows names.old names.new }
{
    let mut path = Vec::new(alloc);
    let mut left = Some(text);
    while let Some(rest) = left {
        let (part, after) = first_part(rest);
        path.push(names.intern(part)?)?;
        left = after;
    }
    Ok(path)
}

/// Writes names behind a text, each after `::`.
fn push_names(text: &mut String, names: &Names, path: &[Name]) -> Result<(), AllocError>
    requires { AreNamed names.now (map (λ n. n.0) path.now) }
    ensures { OnOk result (
        string_bytes text.new ≡ scoped (string_bytes text.old) (texts_of names.now (map (λ n. n.0) path.now))) }
{
    for name in path {
        text.push_str("::")?;
        text.push_str(names.text(*name))?;
    }
    Ok(())
}

impl CPath {
    /// The empty path, which is that of `Object`.
    pub fn object(alloc: Global) -> CPath
        ensures { result ≡ [] }
    {
        CPath {
            names: Vec::new(alloc),
        }
    }

    /// Reads a path: names with `::` between them, or `Object`. Where memory runs out, names may have been made.
    pub fn parse(alloc: Global, names: &mut Names, text: &str) -> Result<CPath, CPathFault>
        ensures path { IfOk result (λ path. constant_path_of text.now ≡ Some (texts_of names.new path)) }
        ensures named { IfOk result (λ path. AreNamed names.new path) }
        ensures refused { IsRefusedFor result BadCPath.NotAConstant ↔ (constant_path_of text.now ≡ None) }
        ensures grows { OnlyGrows names.old names.new }
        ensures unchanged { IsRefusedFor result BadCPath.NotAConstant → names.new ≡ names.old }
    {
        if text == OBJECT {
            return Ok(CPath::object(alloc));
        }
        if !are_constants(text) {
            return Err(CPathFault::Refused(BadCPath::NotAConstant));
        }
        let names = intern_parts(alloc, names, text)?;
        Ok(CPath { names })
    }

    /// The names of the path, from the outermost on.
    pub fn names(&self) -> &[Name]
        ensures { map (λ n. n.0) result.now ≡ self.now }
    {
        self.names.as_slice()
    }

    /// The text of the path: its names with `::` between them, or `Object`. The path of the one name `Object` has the
    /// same text as the empty path, so no text is read as it.
    pub fn text(&self, alloc: Global, names: &Names) -> Result<String, AllocError>
        requires { AreNamed names.now self.now }
        ensures { IfOk result (λ text. string_bytes text ≡ constant_path_text (texts_of names.now self.now)) }
    {
        let Some((first, others)) = self.names.as_slice().split_first() else {
            return String::from_str(alloc, OBJECT);
        };
        let mut text = String::from_str(alloc, names.text(*first))?;
        push_names(&mut text, names, others)?;
        Ok(text)
    }

    /// The path without its last name; the empty path has none.
    pub fn parent(&self, alloc: Global) -> Result<Option<CPath>, AllocError>
        ensures none { IfOk result (λ parent. IsNone parent ↔ (self.now ≡ [])) }
        ensures some { IfOk result (λ parent. IfSome parent (λ path. path ≡ take (length self.now - 1) self.now)) }
    {
        match self.names.as_slice().split_last() {
            Some((_, front)) => Ok(Some(CPath {
                names: Vec::from_slice(alloc, front)?,
            })),
            None => Ok(None),
        }
    }

    /// The path with one more name.
    pub fn child(&self, alloc: Global, name: Name) -> Result<CPath, AllocError>
        ensures { IfOk result (λ child. child ≡ self.now ++ name.0 ∷ []) }
    {
        let mut names = Vec::from_slice(alloc, self.names.as_slice())?;
        names.push(name)?;
        Ok(CPath { names })
    }

    /// Goes on by one more name.
    pub fn push(&mut self, name: Name) -> Result<(), AllocError>
        ensures ok { OnOk result (self.new ≡ self.old ++ name.0 ∷ []) }
        ensures err { OnErr result (self.new ≡ self.old) }
    {
        self.names.push(name)?;
        Ok(())
    }

    /// The same path.
    pub fn copy(&self, alloc: Global) -> Result<CPath, AllocError>
        ensures { IfOk result (λ copy. copy ≡ self.now) }
    {
        Ok(CPath {
            names: Vec::from_slice(alloc, self.names.as_slice())?,
        })
    }
}
