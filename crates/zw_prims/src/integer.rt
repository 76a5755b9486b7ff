//! What the methods of Integer do.
ghost use Rattle.std.specs.Prelude.{◌≡◌, ◌≤◌, ◌&&◌, int_le, codes, length, List, [], ◌∷◌, map, IfOk};
ghost use Rattle.std.specs.List.{All};
ghost use Rattle.std.specs.Int.{IsNonZero, w64};
ghost use Rattle.zw_def.specs.Text.{Text};
ghost use Rattle.zw_def_world.specs.Argument.{integer_arguments};
ghost use Rattle.zw_def_world.specs.IntegerRows.{integer_act, if_divides, makes_quotients, over, rest, compared, clamped, is_even};
ghost use Rattle.zw_def_world.specs.Act.{gives};
ghost use Rattle.zw_def_world.specs.CoreClass.{ArgumentError, ZeroDivisionError};
ghost use Rattle.zw_def_world.specs.Making.{fails, makes_array, makes_integer};
ghost use Rattle.zw_def_world.specs.Row.{of_integer};
ghost use Rattle.zw_def_world.specs.Value as told;
ghost use Rattle.zw_heap.specs.Heap.{sizes_of};
ghost use Rattle.zw_heap.specs.Sound.{IsIn};
ghost use Rattle.zw_heap.specs.Telling.{Telling, tell};
ghost use Rattle.zw_heap.specs.declared.mark.Sizes.{Sizes};
ghost use Rattle.zw_heap.specs.declared.value.Value.TheVariants.{Int as IntegerValue};
ghost use Rattle.zw_calls.specs.Argument.{arguments_seen};
ghost use Rattle.zw_calls.specs.Call.{call_of};
ghost use Rattle.zw_calls.specs.End.{EndsAtOnce, Performs, AddsValues, MakesOnlyPaid};
ghost use Rattle.zw_calls.specs.Integer.{IsInRange};
ghost use Rattle.zw_calls.specs.IntegerRow.{integer_row_seen};

use std::alloc::{AllocError, Global};
use zw_calls::IntegerRow;
use zw_calls::argument::Arguments;
use zw_calls::end::{PrimEnd, integer, raise, yes_or_no};
use zw_calls::kind::Kind;
use zw_calls::making::flat_array;
use zw_calls::reading::{integer_at, value_at};
use zw_fault::ErrorKind;
use zw_heap::{Heap, Value};
use zw_meter::Meter;
use zw_names::Names;

/// The arguments that a method takes.
fn arguments(row: IntegerRow) -> Arguments
    ensures { arguments_seen result ≡ integer_arguments (integer_row_seen row).1 }
{
    match row {
        IntegerRow::Plus => Arguments::of(&[Kind::Integer]),
        IntegerRow::Minus => Arguments::of(&[Kind::Integer]),
        IntegerRow::Times => Arguments::of(&[Kind::Integer]),
        IntegerRow::Over => Arguments::of(&[Kind::Integer]),
        IntegerRow::Rest => Arguments::of(&[Kind::Integer]),
        IntegerRow::Less => Arguments::compared(&[Kind::Integer]),
        IntegerRow::LessOrSame => Arguments::compared(&[Kind::Integer]),
        IntegerRow::Greater => Arguments::compared(&[Kind::Integer]),
        IntegerRow::GreaterOrSame => Arguments::compared(&[Kind::Integer]),
        IntegerRow::Compared => Arguments::of(&[Kind::Any]),
        IntegerRow::Divmod => Arguments::of(&[Kind::Integer]),
        IntegerRow::IsBetween => Arguments::compared(&[Kind::Integer, Kind::Integer]),
        IntegerRow::Clamp => Arguments::compared(&[Kind::Integer, Kind::Integer]),
        _ => Arguments::of(&[]),
    }
}

/// The quotient, rounded down.
fn over(number: i64, divisor: i64) -> i128
    requires { IsNonZero w64 divisor }
    ensures { result ≡ over number divisor }
{
    if divisor < 0 {
        return (-i128::from(number)).div_euclid(-i128::from(divisor));
    }
    i128::from(number).div_euclid(i128::from(divisor))
}

/// What is left of a number by that quotient. It has the divisor's sign.
fn rest(number: i64, divisor: i64) -> i64
    requires { IsNonZero w64 divisor }
    ensures { result ≡ rest number divisor }
{
    if divisor < 0 {
        return -(-i128::from(number)).rem_euclid(-i128::from(divisor)) as i64;
    }
    i128::from(number).rem_euclid(i128::from(divisor)) as i64
}

/// The number that compares another one with a value.
fn compared(number: i64, other: Value) -> Value
    ensures told { (I : Telling) → compared number (tell I other) ≡ tell I result }
    ensures held { (s : Sizes) → IsIn s result }
{
    let Value::Int(other) = other else {
        return Value::Nil;
    };
    if number < other {
        Value::Int(-1)
    } else if number == other {
        Value::Int(0)
    } else {
        Value::Int(1)
    }
}

/// Whether a number is even.
fn is_even(number: i64) -> bool
    ensures { result ≡ is_even number }
{
    rest(number, 2) == 0
}

/// Whether a number is one of the bounds, or between them.
fn is_between(number: i64, low: i64, high: i64) -> bool
    ensures { result ≡ (int_le low number && int_le number high) }
{
    low <= number && number <= high
}

/// The fault of a lower bound above the upper one.
fn exchanged_bounds(alloc: Global) -> Result<PrimEnd, AllocError>
    ensures { IfOk result (EndsAtOnce
        (λ I. fails ArgumentError (codes "min argument must be less than or equal to max argument"))) }
{
    raise(
        alloc,
        ErrorKind::ArgumentError,
        "min argument must be less than or equal to max argument",
    )
}

/// The number, or the bound that it exceeds.
fn clamped(alloc: Global, number: i64, low: i64, high: i64) -> Result<PrimEnd, AllocError>
    ensures { IfOk result (EndsAtOnce (λ I. clamped number low high)) }
{
    if high < low {
        return exchanged_bounds(alloc);
    }
    let clamped = if number < low {
        low
    } else if high < number {
        high
    } else {
        number
    };
    Ok(PrimEnd::Value(Value::Int(clamped)))
}

/// The fault of a division by zero.
fn division_by_zero(alloc: Global) -> Result<PrimEnd, AllocError>
    ensures { IfOk result (EndsAtOnce (λ I. fails ZeroDivisionError (codes "divided by 0"))) }
{
    raise(alloc, ErrorKind::ZeroDivisionError, "divided by 0")
}

/// The quotient, where there is one and it is in range.
fn quotient(alloc: Global, number: i64, divisor: i64) -> Result<PrimEnd, AllocError>
    ensures { IfOk result (EndsAtOnce (λ I. if_divides divisor (makes_integer (over number divisor)))) }
{
    if divisor == 0 {
        return division_by_zero(alloc);
    }
    integer(alloc, i64::try_from(over(number, divisor)).ok())
}

/// What is left of a number by a quotient, where there is one.
fn remainder(alloc: Global, number: i64, divisor: i64) -> Result<PrimEnd, AllocError>
    ensures { IfOk result (EndsAtOnce (λ I. if_divides divisor (gives (told.int (rest number divisor))))) }
{
    if divisor == 0 {
        return division_by_zero(alloc);
    }
    Ok(PrimEnd::Value(Value::Int(rest(number, divisor))))
}

/// An array of two integers.
fn pair(
    alloc: Global,
    first: i64,
    second: i64,
    heap: &mut Heap,
    meter: &mut Meter,
) -> Result<PrimEnd, AllocError>
    ensures adds { AddsValues heap.old heap.new }
    ensures depth { meter.new.depth ≡ meter.old.depth }
    ensures paid { IfOk result (MakesOnlyPaid heap.old heap.new) }
    ensures performs { (names : List Text)
        → IfOk result (Performs (λ s I. makes_array (told.int first ∷ told.int second ∷ []))
        heap.new names meter.old.left meter.new.left) }
{
    let items = [Value::Int(first), Value::Int(second)];
    flat_array(alloc, &items, heap, meter)
}

/// Both of these in an array.
fn quotients(
    alloc: Global,
    number: i64,
    divisor: i64,
    heap: &mut Heap,
    meter: &mut Meter,
) -> Result<PrimEnd, AllocError>
    ensures adds { AddsValues heap.old heap.new }
    ensures depth { meter.new.depth ≡ meter.old.depth }
    ensures paid { IfOk result (MakesOnlyPaid heap.old heap.new) }
    ensures performs { (names : List Text) → IfOk result (Performs (λ s I. if_divides divisor (makes_quotients number divisor))
        heap.new names meter.old.left meter.new.left) }
{
    if divisor == 0 {
        return division_by_zero(alloc);
    }
    let Ok(quotient) = i64::try_from(over(number, divisor)) else {
        return raise(alloc, ErrorKind::RangeError, "integer out of range");
    };
    pair(alloc, quotient, rest(number, divisor), heap, meter)
}

/// What a method does with arguments of the kinds that it takes.
fn act(
    alloc: Global,
    row: IntegerRow,
    number: i64,
    args: &[Value],
    heap: &mut Heap,
    meter: &mut Meter,
) -> Result<PrimEnd, AllocError>
    ensures adds { AddsValues heap.old heap.new }
    ensures depth { meter.new.depth ≡ meter.old.depth }
    ensures paid { IfOk result (MakesOnlyPaid heap.old heap.new) }
    ensures performs { (names : List Text) → IfOk result (Performs (λ s I. integer_act s (integer_row_seen row).1 (told.int number) (map (tell I) args.now))
        heap.new names meter.old.left meter.new.left) }
{
    let other = integer_at(args, 0);
    let last = integer_at(args, 1);
    match row {
        IntegerRow::Plus => integer(alloc, number.checked_add(other)),
        IntegerRow::Minus => integer(alloc, number.checked_sub(other)),
        IntegerRow::Times => integer(alloc, number.checked_mul(other)),
        IntegerRow::Over => quotient(alloc, number, other),
        IntegerRow::Rest => remainder(alloc, number, other),
        IntegerRow::Negated => integer(alloc, number.checked_neg()),
        IntegerRow::Less => Ok(yes_or_no(number < other)),
        IntegerRow::LessOrSame => Ok(yes_or_no(number <= other)),
        IntegerRow::Greater => Ok(yes_or_no(number > other)),
        IntegerRow::GreaterOrSame => Ok(yes_or_no(number >= other)),
        IntegerRow::Compared => Ok(PrimEnd::Value(compared(number, value_at(args, 0)))),
        IntegerRow::Abs => integer(alloc, number.checked_abs()),
        IntegerRow::IsZero => Ok(yes_or_no(number == 0)),
        IntegerRow::IsPositive => Ok(yes_or_no(number > 0)),
        IntegerRow::IsNegative => Ok(yes_or_no(number < 0)),
        IntegerRow::IsEven => Ok(yes_or_no(is_even(number))),
        IntegerRow::IsOdd => Ok(yes_or_no(!is_even(number))),
        IntegerRow::Succ => integer(alloc, number.checked_add(1)),
        IntegerRow::Pred => integer(alloc, number.checked_sub(1)),
        IntegerRow::ToI => Ok(PrimEnd::Value(Value::Int(number))),
        IntegerRow::Divmod => quotients(alloc, number, other, heap, meter),
        IntegerRow::IsBetween => Ok(yes_or_no(is_between(number, other, last))),
        IntegerRow::Clamp => clamped(alloc, number, other, last),
    }
}

/// A call of a method of Integer. Its arguments are tested first.
pub fn apply(
    alloc: Global,
    row: IntegerRow,
    number: i64,
    args: &[Value],
    heap: &mut Heap,
    names: &Names,
    meter: &mut Meter,
) -> Result<PrimEnd, AllocError>
    requires arguments { All (IsIn (sizes_of heap.old)) args.now }
    requires named { heap.old.names ≤ length names.now }
    ensures adds { AddsValues heap.old heap.new }
    ensures depth { meter.new.depth ≡ meter.old.depth }
    ensures paid { IfOk result (MakesOnlyPaid heap.old heap.new) }
    ensures performs { IfOk result
        (Performs (call_of (of_integer (integer_row_seen row).1) (IntegerValue number) args.now)
        heap.new names.now meter.old.left meter.new.left) }
{
    if let Some(raise) = arguments(row).fault(alloc, Value::Int(number), args, heap, names)? {
        return Ok(PrimEnd::Raise(raise));
    }
    act(alloc, row, number, args, heap, meter)
}
