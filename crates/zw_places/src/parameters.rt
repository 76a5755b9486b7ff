//! The names of a method's parameters (ISO/IEC 30170, 13.3.2).
ghost use Rattle.std.specs.Prelude.{◌≡◌, ◌++◌, map, IfOk};
ghost use Rattle.zw_places.specs.Twice.{has_twice, numbers_of};

use indexmap::IndexSet;
use std::alloc::{AllocError, Global};
use zw_ast::{Default, Node};
use zw_names::Name;

/// All parameters of a method, in order.
pub(crate) fn all_parameters(
    alloc: Global,
    required: &[Name],
    defaults: &[Default<Node>],
) -> Result<Vec<Name>, AllocError>
    ensures { IfOk result (λ all. all.items ≡ required.now ++ map (λ d. d.name) defaults.now) }
{
    let mut all = Vec::from_slice(alloc, required)?;
    'defaults: for default in defaults {
        all.push(default.name)?;
    }
    Ok(all)
}

/// Whether one of these names stands among them twice.
pub(crate) fn has_repeat(alloc: Global, names: &[Name]) -> Result<bool, AllocError>
    ensures { IfOk result (λ found. found ≡ has_twice (numbers_of names.now)) }
{
    let mut met: IndexSet<usize> = IndexSet::new(alloc);
    'names: for name in names {
        if !met.insert(name.0)? {
            return Ok(true);
        }
    }
    Ok(false)
}
