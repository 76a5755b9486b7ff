//! Paths.
ghost use Rattle.std.specs.Prelude.{◌≡◌, ◌<◌, ◌≤◌, Some, IfOk, length, map, string_bytes, take, refl};
ghost use Rattle.std.specs.Ordering.{nat_cmp};
ghost use Rattle.std.specs.Cmp.{po, partial_equiv_from_equiv};
ghost use Rattle.std.specs.Cmp.Lexicographic.{slice_cmp, lists_equiv, lists_total, lists_ties, nat_list_eq_equiv, nat_list_cmp_total, texts_ties};
ghost use Rattle.zw_def.specs.Path.{path_of, path_text, is_below, path_cmp, precedes, same_path};
ghost use Rattle.zw_def.specs.Base.{base_of};
ghost use Rattle.zw_base.specs.Fault.{IfRefused};
ghost use Rattle.zw_path.specs.BadPath.{bad_path};
ghost use Rattle.zw_path.specs.Shape.{IsPath};

use crate::bad_path::{BadPath, PathFault};
use crate::component::{bad_component, without_ending};
use std::alloc::{AllocError, Global};
use std::cmp::Ordering;
use std::marker::Model;

/// A path of a file or a directory of a tree. A clause sees it as the list of its components, each a text.
#[derive(Debug, Drop)]
pub struct Path {
    components: Vec<String>,
}

impl Model for Path {
    ghost use Rattle.std.specs.Prelude.{List, ℕ, map, string_bytes};
    ghost use Rattle.zw_path.specs.Shape.{IsPath};

    ghost Value = { List (List ℕ) };

    ghost view = { λ p. map string_bytes p.components.items };

    ghost invariant = { λ p. IsPath (map string_bytes p.components.items) };
}

impl Path {
    /// The path that the text tells.
    pub fn parse(alloc: Global, text: &str) -> Result<Path, PathFault>
        ensures path { IfOk result (λ path. path_of text.now ≡ Some path) }
        ensures refused { IfRefused result (λ bad. bad_path text.now ≡ Some bad) }
        ensures none { IfRefused result (λ _. path_of text.now ≡ None) }
    {
        if text.starts_with('/') {
            return Err(PathFault::Refused(BadPath::Absolute));
        }
        let mut components = Vec::new(alloc);
        for piece in text.split('/') {
            match bad_component(piece) {
                Some(bad) => return Err(PathFault::Refused(bad)),
                None => components.push(String::from_str(alloc, piece)?)?,
            }
        }
        Ok(Path { components })
    }

    /// The components, from the outermost on: one at least, and each a whole one.
    pub fn components(&self) -> &[String]
        ensures value { map string_bytes result.now ≡ self.now }
        ensures whole { IsPath self.now }
    {
        self.components.as_slice()
    }

    /// Whether the path stands below the directory, which is then a proper prefix of it.
    pub fn is_below(&self, directory: &Path) -> bool
        ensures { result ≡ is_below self.now directory.now }
    {
        directory.components.len() < self.components.len()
            && self.components.starts_with(&directory.components)
    }

    /// Whether the path stands before the other in path order.
    pub fn precedes(&self, other: &Path) -> bool
        ensures { result ≡ precedes self.now other.now }
    {
        self.cmp(other).is_lt()
    }

    /// How the path stands to the path of these components in path order.
    pub fn cmp_components(&self, components: &[String]) -> Ordering
        ensures { result ≡ path_cmp self.now (map string_bytes components.now) }
    {
        self.components.as_slice().cmp(components)
    }

    /// The components with `/` between them.
    pub fn text(&self, alloc: Global) -> Result<String, AllocError>
        ensures { IfOk result (λ text. string_bytes text ≡ path_text self.now) }
    {
        let mut text = String::from_str(alloc, self.components[0].as_str())?;
        for component in &self.components[1..] {
            text.push('/')?;
            text.push_str(component)?;
        }
        Ok(text)
    }

    /// The same path.
    pub fn copy(&self, alloc: Global) -> Result<Path, AllocError>
        ensures { IfOk result (λ path. path ≡ self.now) }
    {
        let mut components = Vec::with_capacity(alloc, self.components.len())?;
        for component in &self.components {
            components.push(String::from_str(alloc, component)?)?;
        }
        Ok(Path { components })
    }

    /// The path of its first components, so many.
    pub fn beginning(&self, alloc: Global, depth: usize) -> Result<Path, AllocError>
        requires some { 0 < depth }
        requires within { depth ≤ length self.now }
        ensures { IfOk result (λ path. path ≡ take depth self.now) }
    {
        let mut components = Vec::with_capacity(alloc, depth)?;
        for component in &self.components[..depth] {
            components.push(String::from_str(alloc, component)?)?;
        }
        Ok(Path { components })
    }

    /// The last component without a final `.rb`.
    pub fn base(&self) -> &str
        ensures { result.now ≡ base_of self.now }
    {
        without_ending(self.components[self.components.len() - 1].as_str())
    }
}

impl PartialEq for Path {
    ghost eq = { same_path };

    ghost laws = { partial_equiv_from_equiv (lists_equiv nat_list_eq_equiv) };

    fn eq(&self, other: &Path) -> bool {
        self.components == other.components
    }
}

impl Eq for Path {
    ghost laws = { lists_equiv nat_list_eq_equiv };
}

impl PartialOrd for Path {
    ghost partial_cmp = { λ p q. Some (path_cmp p q) };

    ghost laws = { po (lists_total nat_list_cmp_total) (lists_ties (slice_cmp nat_cmp) texts_ties) };

    fn partial_cmp(&self, other: &Path) -> Option<Ordering> {
        Some(self.cmp(other))
    }
}

impl Ord for Path {
    ghost cmp = { path_cmp };

    ghost total = { lists_total nat_list_cmp_total };

    ghost matches_partial_cmp = { λ _ _. refl };

    ghost matches_eq = { lists_ties (slice_cmp nat_cmp) texts_ties };

    fn cmp(&self, other: &Path) -> Ordering {
        self.cmp_components(&other.components)
    }
}
