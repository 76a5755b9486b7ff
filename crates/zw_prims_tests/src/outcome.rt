//! How calls end, told as texts.
ghost use Rattle.std.specs.Prelude.{◌≤◌, length};
ghost use Rattle.zw_heap.specs.Heap.{sizes_of};
ghost use Rattle.zw_calls.specs.End.{EndIn};

use std::alloc::Global;
use std::test::Fail;
use zw_calls::{PrimEnd, row};
use zw_heap::Heap;
use zw_names::Names;
use zw_show::inspect;

/// The inspect text of a value, the fault line of an exception, or which other end it is.
pub(crate) fn outcome(
    alloc: Global,
    end: &PrimEnd,
    heap: &Heap,
    names: &Names,
) -> Result<String, Fail>
    requires held { EndIn (sizes_of heap.now) end.now }
    requires named { heap.now.names ≤ length names.now }
{
    match end {
        PrimEnd::Value(value) => Ok(inspect(alloc, heap, names, *value)?),
        PrimEnd::Raise(raise) => {
            let class = raise.kind.name();
            let message = raise.message.as_str();
            Ok(format!(in alloc; "! {class}: {message}")?)
        }
        PrimEnd::Budget => Ok(String::from_str(alloc, "budget")?),
        PrimEnd::Again(prim) => {
            let (class, name) = row(*prim);
            let class = class.name();
            Ok(format!(in alloc; "again {class} {name}")?)
        }
    }
}
