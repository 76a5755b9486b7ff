//! Items that are kept by comparisons.
ghost use Rattle.std.specs.Prelude.{◌≡◌, [], ◌∷◌, ◌++◌, List, map, IfOk, OnOk, IfSome, if◌then◌else◌};
ghost use Rattle.std.specs.List.{All};
ghost use Rattle.zw_def.specs.Text.{Text};
ghost use Rattle.zw_def_world.specs.ArrayRows.{uniques, without_items};
ghost use Rattle.zw_heap.specs.Telling.{Telling, tell};
ghost use Rattle.zw_arrays.specs.Answer.{Answers, kept_seen};
ghost use Rattle.zw_arrays.specs.Item.{IsItem};

use crate::equality::is_among;
use std::alloc::{AllocError, Global};
use zw_heap::{Heap, Value};
use zw_meter::Meter;

/// Keeps an item behind the others, unless it is found.
pub(crate) fn keep_unless(found: bool, item: Value, kept: &mut Vec<Value>) -> Result<(), AllocError>
    ensures { OnOk result (kept.new.items ≡ (if found then kept.old.items else kept.old.items ++ item ∷ [])) }
{
    if !found {
        kept.push(item)?;
    }
    Ok(())
}

/// The first of each that are the same. None with fewer steps left than the comparisons cost.
pub(crate) fn uniques(
    alloc: Global,
    heap: &Heap,
    items: &[Value],
    meter: &mut Meter,
) -> Result<Option<Vec<Value>>, AllocError>
    requires items { All (IsItem heap.now) items.now }
    ensures depth { meter.new.depth ≡ meter.old.depth }
    ensures items { IfOk result (λ kept. IfSome kept (λ kept. All (IsItem heap.now) kept.items)) }
    ensures told { IfOk result (λ kept. Answers heap.now (λ I. uniques [] (map (tell I) items.now))
        meter.old.left meter.new.left (kept_seen kept)) }
{
    let mut kept = Vec::new(alloc);
    for item in items {
        let Some(found) = is_among(heap, *item, kept.as_slice(), meter) else {
            return Ok(None);
        };
        keep_unless(found, *item, &mut kept)?;
    }
    Ok(Some(kept))
}

/// The items that are not among others. None with fewer steps left than the comparisons cost.
pub(crate) fn without_items(
    alloc: Global,
    heap: &Heap,
    items: &[Value],
    others: &[Value],
    meter: &mut Meter,
) -> Result<Option<Vec<Value>>, AllocError>
    requires items { All (IsItem heap.now) items.now }
    requires others { All (IsItem heap.now) others.now }
    ensures depth { meter.new.depth ≡ meter.old.depth }
    ensures items { IfOk result (λ kept. IfSome kept (λ kept. All (IsItem heap.now) kept.items)) }
    ensures told { IfOk result (λ kept. Answers heap.now
        (λ I. without_items (map (tell I) others.now) [] (map (tell I) items.now))
        meter.old.left meter.new.left (kept_seen kept)) }
{
    let mut kept = Vec::new(alloc);
    for item in items {
        let Some(found) = is_among(heap, *item, others, meter) else {
            return Ok(None);
        };
        keep_unless(found, *item, &mut kept)?;
    }
    Ok(Some(kept))
}
