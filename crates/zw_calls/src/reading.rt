//! What values are, for methods whose arguments were tested; of other values anything.
ghost use Rattle.std.specs.Prelude.{◌≡◌, ◌≤◌, get_or, length, map};
ghost use Rattle.std.specs.List.{All};
ghost use Rattle.zw_def_world.specs.Value.{nil, integer_in, text_in};
ghost use Rattle.zw_heap.specs.Heap.{sizes_of};
ghost use Rattle.zw_heap.specs.Sound.{IsIn};
ghost use Rattle.zw_heap.specs.Telling.{Telling, Fits, tell};

use zw_heap::{Heap, Value};
use zw_names::Names;

/// The argument at a place, or nil where there are fewer.
pub fn value_at(args: &[Value], place: usize) -> Value
    ensures { (I : Telling) → get_or (map (tell I) args.now) place nil ≡ tell I result }
{
    match args.get(place) {
        Some(value) => *value,
        None => Value::Nil,
    }
}

/// The integer that a value is.
pub fn integer_in(value: Value) -> i64
    ensures { (I : Telling) → integer_in (tell I value) ≡ result }
{
    match value {
        Value::Int(number) => number,
        _ => 0,
    }
}

/// The integer at a place of the arguments.
pub fn integer_at(args: &[Value], place: usize) -> i64
    ensures { (I : Telling) → integer_in (get_or (map (tell I) args.now) place nil) ≡ result }
{
    integer_in(value_at(args, place))
}

/// The text that a value is: a text's own, or the name of a symbol.
fn text_in<'a>(value: Value, heap: &'a Heap, names: &'a Names) -> &'a str
    requires held { IsIn (sizes_of heap.now) value }
    requires named { heap.now.names ≤ length names.now }
    ensures { (I : Telling) → Fits I names.now heap.now → text_in (tell I value) ≡ result.now }
{
    match value {
        Value::Text(text) => heap.text(text),
        Value::Sym(name) => names.text(name),
        _ => "",
    }
}

/// The text at a place of the arguments.
pub fn text_at<'a>(args: &[Value], place: usize, heap: &'a Heap, names: &'a Names) -> &'a str
    requires arguments { All (IsIn (sizes_of heap.now)) args.now }
    requires named { heap.now.names ≤ length names.now }
    ensures { (I : Telling) → Fits I names.now heap.now
        → text_in (get_or (map (tell I) args.now) place nil) ≡ result.now }
{
    match args.get(place) {
        Some(value) => text_in(*value, heap, names),
        None => "",
    }
}
