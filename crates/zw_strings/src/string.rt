//! What the methods of String do.
ghost use Rattle.std.specs.Prelude.{◌≡◌, ◌<◌, ◌≤◌, ℤ, List, length, map, pos, IfOk};
ghost use Rattle.std.specs.List.{All};
ghost use Rattle.zw_def.specs.Names.{OnlyGrows};
ghost use Rattle.zw_def.specs.Text.{Text};
ghost use Rattle.zw_def_world.specs.Act.{gives};
ghost use Rattle.zw_def_world.specs.Argument.{string_arguments};
ghost use Rattle.zw_def_world.specs.Row.{of_string};
ghost use Rattle.zw_def_world.specs.Site.{first, yes_or_no};
ghost use Rattle.zw_def_world.specs.StringRows.{string_act, text_compared};
ghost use Rattle.zw_def_world.specs.Value as told;
ghost use Rattle.zw_heap.specs.Heap.{Held, sizes_of};
ghost use Rattle.zw_heap.specs.Sound.{IsIn};
ghost use Rattle.zw_heap.specs.Telling.{Telling, Fits, tell};
ghost use Rattle.zw_heap.specs.declared.mark.Sizes.{Sizes};
ghost use Rattle.zw_heap.specs.declared.value.Value.TheVariants.{Text as TextValue};
ghost use Rattle.zw_calls.specs.Argument.{arguments_seen};
ghost use Rattle.zw_calls.specs.Call.{call_of};
ghost use Rattle.zw_calls.specs.End.{Performs, MakesOnlyPaid};
ghost use Rattle.zw_calls.specs.End.{AddsNamed};
ghost use Rattle.zw_calls.specs.StringRow.{string_row_seen};
ghost use Rattle.zw_strings.specs.Work.{Leaves};

use crate::characters::{each, reversed, size};
use crate::digits::number_of;
use crate::padding::{left_justified, right_justified, times};
use crate::parts::{part_at, split_by};
use crate::text::{
    begins_with, capitalized, compared, downcased, ends_with, holds, joined, precedes, stripped,
    upcased, without_prefix, without_suffix,
};
use crate::work::{Work, perform};
use std::alloc::{AllocError, Global};
use zw_calls::StringRow;
use zw_calls::argument::Arguments;
use zw_calls::end::{PrimEnd, integer, yes_or_no};
use zw_calls::kind::Kind;
use zw_calls::reading::{integer_at, text_at};
use zw_heap::{Heap, TextRef, Value};
use zw_meter::Meter;
use zw_names::Names;

/// The arguments that a method takes.
fn arguments(row: StringRow) -> Arguments
    ensures { arguments_seen result ≡ string_arguments (string_row_seen row).1 }
{
    match row {
        StringRow::Plus => Arguments::of(&[Kind::String]),
        StringRow::Times => Arguments::of(&[Kind::Integer]),
        StringRow::Less => Arguments::compared(&[Kind::String]),
        StringRow::LessOrSame => Arguments::compared(&[Kind::String]),
        StringRow::Greater => Arguments::compared(&[Kind::String]),
        StringRow::GreaterOrSame => Arguments::compared(&[Kind::String]),
        StringRow::Compared => Arguments::of(&[Kind::Any]),
        StringRow::Includes => Arguments::of(&[Kind::String]),
        StringRow::StartsWith => Arguments::of(&[Kind::String]),
        StringRow::EndsWith => Arguments::of(&[Kind::String]),
        StringRow::At => Arguments {
            least: 1,
            kinds: &[Kind::Integer, Kind::Integer],
            compares: false,
        },
        StringRow::Split => Arguments::of(&[Kind::String]),
        StringRow::Ljust => Arguments::of(&[Kind::Integer]),
        StringRow::Rjust => Arguments::of(&[Kind::Integer]),
        StringRow::DeletePrefix => Arguments::of(&[Kind::String]),
        StringRow::DeleteSuffix => Arguments::of(&[Kind::String]),
        _ => Arguments::of(&[]),
    }
}

/// The number that compares a text with the first argument, or nil where that is no text.
fn compared_with(text: &str, args: &[Value], heap: &Heap) -> Value
    requires arguments { All (IsIn (sizes_of heap.now)) args.now }
    ensures told { (I : Telling) (names : List Text) → Fits I names heap.now
        → text_compared text.now (first (map (tell I) args.now)) ≡ tell I result }
    ensures held { (s : Sizes) → IsIn s result }
{
    match args.first() {
        Some(Value::Text(other)) => Value::Int(compared(text, heap.text(*other))),
        _ => Value::Nil,
    }
}

/// True or false.
fn answered(answer: bool) -> Work
    ensures { (h : Held) (names : List Text) → Leaves (λ s I. yes_or_no answer) h names result }
{
    Work::Ended(yes_or_no(answer))
}

/// How many there are. No machine has a text of so many bytes that this is no integer; it would be want of memory.
fn counted(count: usize) -> Result<Work, AllocError>
    ensures { (h : Held) (names : List Text) → IfOk result (Leaves (λ s I. gives (told.int (pos count))) h names) }
{
    match i64::try_from(count) {
        Ok(count) => Ok(Work::Ended(PrimEnd::Value(Value::Int(count)))),
        Err(_) => Err(AllocError),
    }
}

/// What is left to do of a method, with arguments of the kinds that it takes.
fn work(
    alloc: Global,
    row: StringRow,
    text: &str,
    args: &[Value],
    heap: &Heap,
    names: &Names,
) -> Result<Work, AllocError>
    requires arguments { All (IsIn (sizes_of heap.now)) args.now }
    requires named { heap.now.names ≤ length names.now }
    ensures { IfOk result
        (Leaves (λ s I. string_act s (string_row_seen row).1 (told.text text.now) (map (tell I) args.now)) heap.now names.now) }
{
    let other = text_at(args, 0, heap, names);
    let number = integer_at(args, 0);
    match row {
        StringRow::Plus => Ok(Work::Text(joined(alloc, text, other)?)),
        StringRow::Times => times(alloc, text, number),
        StringRow::Less => Ok(answered(precedes(text, other))),
        StringRow::LessOrSame => Ok(answered(!precedes(other, text))),
        StringRow::Greater => Ok(answered(precedes(other, text))),
        StringRow::GreaterOrSame => Ok(answered(!precedes(text, other))),
        StringRow::Compared => Ok(Work::Ended(PrimEnd::Value(compared_with(text, args, heap)))),
        StringRow::Size => counted(size(text)),
        StringRow::Length => counted(size(text)),
        StringRow::Bytesize => counted(text.len()),
        StringRow::IsEmpty => Ok(answered(text.is_empty())),
        StringRow::Upcase => Ok(Work::Text(upcased(alloc, text)?)),
        StringRow::Downcase => Ok(Work::Text(downcased(alloc, text)?)),
        StringRow::Capitalize => Ok(Work::Text(capitalized(alloc, text)?)),
        StringRow::Reverse => Ok(Work::Text(reversed(alloc, text)?)),
        StringRow::Includes => Ok(answered(holds(text, other))),
        StringRow::StartsWith => Ok(answered(begins_with(text, other))),
        StringRow::EndsWith => Ok(answered(ends_with(text, other))),
        StringRow::At => part_at(alloc, text, args),
        StringRow::ToI => Ok(Work::Ended(integer(alloc, number_of(text))?)),
        StringRow::ToSym => Ok(Work::Symbol(String::from_str(alloc, text)?)),
        StringRow::Strip => Ok(Work::Text(String::from_str(alloc, stripped(text))?)),
        StringRow::Split => split_by(alloc, text, other),
        StringRow::Chars => Ok(Work::Texts(each(alloc, text)?)),
        StringRow::Ljust => left_justified(alloc, text, number),
        StringRow::Rjust => right_justified(alloc, text, number),
        StringRow::DeletePrefix => Ok(Work::Text(String::from_str(
            alloc,
            without_prefix(text, other),
        )?)),
        StringRow::DeleteSuffix => Ok(Work::Text(String::from_str(
            alloc,
            without_suffix(text, other),
        )?)),
    }
}

/// A call of a method of String. Its arguments are tested first.
pub fn apply(
    alloc: Global,
    row: StringRow,
    receiver: TextRef,
    args: &[Value],
    heap: &mut Heap,
    names: &mut Names,
    meter: &mut Meter,
) -> Result<PrimEnd, AllocError>
    requires receiver { IsIn (sizes_of heap.old) (TextValue receiver) }
    requires arguments { All (IsIn (sizes_of heap.old)) args.now }
    requires named { heap.old.names ≤ length names.old }
    ensures adds { AddsNamed heap.old heap.new }
    ensures named { heap.new.names ≤ length names.new }
    ensures grows { OnlyGrows names.old names.new }
    ensures depth { meter.new.depth ≡ meter.old.depth }
    ensures paid { IfOk result (MakesOnlyPaid heap.old heap.new) }
    ensures performs { IfOk result
        (Performs (call_of (of_string (string_row_seen row).1) (TextValue receiver) args.now)
        heap.new names.new meter.old.left meter.new.left) }
{
    if let Some(raise) = arguments(row).fault(alloc, Value::Text(receiver), args, heap, names)? {
        return Ok(PrimEnd::Raise(raise));
    }
    let work = work(alloc, row, heap.text(receiver), args, heap, names)?;
    perform(alloc, work, heap, names, meter)
}
