//! Texts of values that methods give.
ghost use Rattle.std.specs.Prelude.{◌≡◌, List, Option, IfOk, string_bytes};
ghost use Rattle.zw_base.specs.Fault.{IfRefused};
ghost use Rattle.zw_def.specs.Text.{Text};
ghost use Rattle.zw_def_world.specs.Act.{reading};
ghost use Rattle.zw_def_world.specs.Making.{makes_text};
ghost use Rattle.zw_def_world.specs.World.{World};
ghost use Rattle.zw_heap.specs.Telling.{Telling};
ghost use Rattle.zw_calls.specs.End.{Performs, AddsValues, MakesOnlyPaid};
ghost use Rattle.zw_show.specs.IsTold.{IsTold, IsTooLong};

use std::alloc::{AllocError, Global};
use zw_calls::end::{PrimEnd, raise};
use zw_calls::making::text;
use zw_fault::ErrorKind;
use zw_heap::Heap;
use zw_meter::Meter;
use zw_show::ShowFault;

/// A text that was shown, or the fault of one that is too long.
pub(crate) fn made(
    alloc: Global,
    shown: Result<String, ShowFault>,
    heap: &mut Heap,
    meter: &mut Meter,
) -> Result<PrimEnd, AllocError>
    ensures adds { AddsValues heap.old heap.new }
    ensures depth { meter.new.depth ≡ meter.old.depth }
    ensures paid { IfOk result (MakesOnlyPaid heap.old heap.new) }
    ensures performs { (names : List Text) (text_of : Telling → World → Option Text)
        → IfOk shown (λ made. IsTold heap.old names text_of (string_bytes made))
        → IfRefused shown (λ refusal. IsTooLong heap.old names text_of)
        → IfOk result (Performs (λ s I. reading (text_of I) makes_text)
        heap.new names meter.old.left meter.new.left) }
{
    match shown {
        Ok(shown) => text(alloc, shown.as_str(), heap, meter),
        Err(ShowFault::Refused(_)) => raise(alloc, ErrorKind::RangeError, "text too long"),
        Err(ShowFault::Memory) => Err(AllocError),
    }
}
