//! Symbols whose names may be new.
ghost use Rattle.std.specs.Prelude.{◌≡◌, ◌≤◌, length, IfOk};
ghost use Rattle.zw_def.specs.Names.{OnlyGrows};
ghost use Rattle.zw_def_world.specs.Act.{gives};
ghost use Rattle.zw_def_world.specs.Value as told;
ghost use Rattle.std.specs.Prelude.{ℕ};
ghost use Rattle.zw_calls.specs.End.{Performs, MakesOnlyPaid};
ghost use Rattle.zw_calls.specs.End.{AddsNamed};

use std::alloc::AllocError;
use zw_calls::end::PrimEnd;
use zw_heap::{Heap, Value};
use zw_names::Names;

/// The symbol with a name. It costs nothing.
pub(crate) fn symbol(text: &str, heap: &mut Heap, names: &mut Names) -> Result<PrimEnd, AllocError>
    requires named { heap.old.names ≤ length names.old }
    ensures adds { AddsNamed heap.old heap.new }
    ensures named { heap.new.names ≤ length names.new }
    ensures grows { OnlyGrows names.old names.new }
    ensures paid { IfOk result (MakesOnlyPaid heap.old heap.new) }
    ensures performs { (left : ℕ) → IfOk result (Performs (λ s I. gives (told.symbol text.now))
        heap.new names.new left left) }
{
    heap.only_adds();
    let name = names.intern(text)?;
    heap.tell_names(names);
    Ok(PrimEnd::Value(Value::Sym(name)))
}
