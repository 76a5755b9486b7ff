//! What the methods of Symbol do. Nothing is made, and nothing costs a step.
ghost use Rattle.std.specs.Prelude.{◌≡◌, ℕ, ◌≤◌, length, map, pos, IfOk};
ghost use Rattle.std.specs.List.{All};
ghost use Rattle.std.specs.Str.{chars};
ghost use Rattle.zw_def_world.specs.Act.{gives};
ghost use Rattle.zw_def_world.specs.Argument.{symbol_arguments};
ghost use Rattle.zw_def_world.specs.Row.{of_symbol};
ghost use Rattle.zw_def_world.specs.Site.{Site, first};
ghost use Rattle.zw_def_world.specs.StringRows.{name_compared, symbol_act};
ghost use Rattle.zw_def_world.specs.Value as told;
ghost use Rattle.zw_heap.specs.Heap.{sizes_of};
ghost use Rattle.zw_heap.specs.Sound.{IsIn};
ghost use Rattle.zw_heap.specs.Telling.{Telling, Fits, tell};
ghost use Rattle.zw_heap.specs.declared.mark.Sizes.{Sizes};
ghost use Rattle.zw_heap.specs.declared.value.Value.TheVariants.{Sym as SymbolValue};
ghost use Rattle.zw_calls.specs.Argument.{arguments_seen};
ghost use Rattle.zw_calls.specs.Call.{call_of};
ghost use Rattle.zw_calls.specs.End.{Performs};
ghost use Rattle.zw_calls.specs.SymbolRow.{symbol_row_seen};

use crate::characters::size;
use crate::text::compared;
use std::alloc::{AllocError, Global};
use zw_calls::SymbolRow;
use zw_calls::argument::Arguments;
use zw_calls::end::PrimEnd;
use zw_calls::kind::Kind;
use zw_heap::{Heap, Value};
use zw_names::{Name, Names};

/// The arguments that a method takes.
fn arguments(row: SymbolRow) -> Arguments
    ensures { arguments_seen result ≡ symbol_arguments (symbol_row_seen row).1 }
{
    match row {
        SymbolRow::Compared => Arguments::of(&[Kind::Any]),
        _ => Arguments::of(&[]),
    }
}

/// The number that compares a name with the first argument, or nil where that is no symbol.
fn compared_with(text: &str, args: &[Value], names: &Names, heap: &Heap) -> Value
    requires arguments { All (IsIn (sizes_of heap.now)) args.now }
    requires named { heap.now.names ≤ length names.now }
    ensures told { (I : Telling) → Fits I names.now heap.now
        → name_compared text.now (first (map (tell I) args.now)) ≡ tell I result }
    ensures held { (s : Sizes) → IsIn s result }
{
    match args.first() {
        Some(Value::Sym(other)) => Value::Int(compared(text, names.text(*other))),
        _ => Value::Nil,
    }
}

/// How many characters a name has. No machine has a text of so many bytes that this is no integer; it would be want of
/// memory.
fn counted(text: &str) -> Result<Value, AllocError>
    ensures told { IfOk result (λ value. (I : Telling) → told.int (pos (length (chars text.now))) ≡ tell I value) }
    ensures held { IfOk result (λ value. (s : Sizes) → IsIn s value) }
{
    match i64::try_from(size(text)) {
        Ok(count) => Ok(Value::Int(count)),
        Err(_) => Err(AllocError),
    }
}

/// What a method gives, with arguments of the kinds that it takes.
fn given(
    row: SymbolRow,
    receiver: Name,
    args: &[Value],
    heap: &Heap,
    names: &Names,
) -> Result<Value, AllocError>
    requires receiver { IsIn (sizes_of heap.now) (SymbolValue receiver) }
    requires arguments { All (IsIn (sizes_of heap.now)) args.now }
    requires named { heap.now.names ≤ length names.now }
    ensures told { IfOk result (λ value. (s : Site) (I : Telling) → Fits I names.now heap.now
        → symbol_act s (symbol_row_seen row).1 (tell I (SymbolValue receiver)) (map (tell I) args.now) ≡ gives (tell I value)) }
    ensures held { IfOk result (IsIn (sizes_of heap.now)) }
{
    match row {
        SymbolRow::ToSym => Ok(Value::Sym(receiver)),
        SymbolRow::Size => counted(names.text(receiver)),
        SymbolRow::Compared => Ok(compared_with(names.text(receiver), args, names, heap)),
    }
}

/// A call of a method of Symbol. Its arguments are tested first.
pub fn apply(
    alloc: Global,
    row: SymbolRow,
    receiver: Name,
    args: &[Value],
    heap: &Heap,
    names: &Names,
) -> Result<PrimEnd, AllocError>
    requires receiver { IsIn (sizes_of heap.now) (SymbolValue receiver) }
    requires arguments { All (IsIn (sizes_of heap.now)) args.now }
    requires named { heap.now.names ≤ length names.now }
    ensures { (left : ℕ) → IfOk result
        (Performs (call_of (of_symbol (symbol_row_seen row).1) (SymbolValue receiver) args.now) heap.now names.now left left) }
{
    if let Some(raise) = arguments(row).fault(alloc, Value::Sym(receiver), args, heap, names)? {
        return Ok(PrimEnd::Raise(raise));
    }
    let value = given(row, receiver, args, heap, names)?;
    Ok(PrimEnd::Value(value))
}
