//! What is left to do of a call when all that it asks of the heap is known: nothing, or something to make and to pay.
ghost use Rattle.std.specs.Prelude.{◌≡◌, ◌≤◌, List, length, IfOk};
ghost use Rattle.zw_def.specs.Names.{OnlyGrows};
ghost use Rattle.zw_def.specs.Text.{Text};
ghost use Rattle.zw_def_world.specs.Act.{Act};
ghost use Rattle.zw_def_world.specs.Site.{Site};
ghost use Rattle.zw_heap.specs.Telling.{Telling};
ghost use Rattle.zw_calls.specs.End.{Performs, MakesOnlyPaid};
ghost use Rattle.zw_calls.specs.End.{AddsNamed};
ghost use Rattle.zw_strings.specs.Work.{Leaves};

use crate::naming::symbol;
use crate::texts::array_of_texts;
use std::alloc::{AllocError, Global};
use zw_calls::end::PrimEnd;
use zw_calls::making::text;
use zw_heap::Heap;
use zw_meter::Meter;
use zw_names::Names;

/// What is left to do of a call.
#[derive(Drop)]
pub(crate) enum Work {
    /// Nothing.
    Ended(PrimEnd),
    /// To make a text.
    Text(String),
    /// To make texts, and an array of them.
    Texts(Vec<String>),
    /// To give the symbol with a name.
    Symbol(String),
}

/// Does what is left to do.
pub(crate) fn perform(
    alloc: Global,
    work: Work,
    heap: &mut Heap,
    names: &mut Names,
    meter: &mut Meter,
) -> Result<PrimEnd, AllocError>
    requires named { heap.old.names ≤ length names.old }
    ensures adds { AddsNamed heap.old heap.new }
    ensures named { heap.new.names ≤ length names.new }
    ensures grows { OnlyGrows names.old names.new }
    ensures depth { meter.new.depth ≡ meter.old.depth }
    ensures paid { IfOk result (MakesOnlyPaid heap.old heap.new) }
    ensures performs { (call : Site → Telling → Act) → Leaves call heap.old names.old work
        → IfOk result (Performs call heap.new names.new meter.old.left meter.new.left) }
{
    match work {
        Work::Ended(end) => Ok(end),
        Work::Text(made) => text(alloc, made.as_str(), heap, meter),
        Work::Texts(made) => array_of_texts(alloc, &made, heap, meter),
        Work::Symbol(name) => symbol(name.as_str(), heap, names),
    }
}
