//! Patterns.
ghost use Rattle.std.specs.Prelude.{◌≡◌, ◌↔◌, Some, IfOk, IsTrue, map, string_bytes};
ghost use Rattle.zw_def.specs.Path.{path_of};
ghost use Rattle.zw_def.specs.Pattern.{matches, matches_part, StandsFor};
ghost use Rattle.zw_base.specs.Fault.{IfRefused};
ghost use Rattle.zw_path.specs.BadPath.{bad_path};

use crate::bad_path::PathFault;
use crate::path::Path;
use crate::symbol::can_match;
use std::alloc::{AllocError, Global};
use std::marker::Model;

/// A path in which `*` stands for any run of characters of a component, and a component `**` for any number of
/// components. A clause sees it as the list of its components, each a text.
#[derive(Debug, Drop)]
pub struct Pattern {
    path: Path,
}

impl Model for Pattern {
    ghost use Rattle.std.specs.Prelude.{List, ℕ};

    ghost Value = { List (List ℕ) };

    ghost view = { λ p. p.path };
}

impl Pattern {
    /// The pattern that the text tells. It is refused as a path is.
    pub fn parse(alloc: Global, text: &str) -> Result<Pattern, PathFault>
        ensures pattern { IfOk result (λ pattern. path_of text.now ≡ Some pattern) }
        ensures refused { IfRefused result (λ bad. bad_path text.now ≡ Some bad) }
    {
        let path = Path::parse(alloc, text)?;
        Ok(Pattern { path })
    }

    /// The same pattern.
    pub fn copy(&self, alloc: Global) -> Result<Pattern, AllocError>
        ensures { IfOk result (λ pattern. pattern ≡ self.now) }
    {
        let path = self.path.copy(alloc)?;
        Ok(Pattern { path })
    }

    /// The components, from the outermost on.
    pub fn components(&self) -> &[String]
        ensures { map string_bytes result.now ≡ self.now }
    {
        self.path.components()
    }

    /// Whether the pattern stands for the path.
    pub fn matches(&self, path: &Path) -> bool
        ensures value { result ≡ matches self.now path.now }
        ensures meaning { IsTrue result ↔ StandsFor self.now path.now }
    {
        can_match(self.path.components(), path.components())
    }
}

/// Whether a component of a pattern, which is not `**`, stands for a component of a path.
pub fn matches_component(pattern: &str, component: &str) -> bool
    ensures { result ≡ matches_part pattern.now component.now }
{
    can_match(pattern.as_bytes(), component.as_bytes())
}
