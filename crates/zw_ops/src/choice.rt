//! Which method answers a call (ISO/IEC 30170, 13.3.4 and 11.3.3).
ghost use Rattle.std.specs.Prelude.{◌≡◌, ◌<◌, ◌≤◌, ◌&&◌, not, false, List, Some, length, IfOk, IfSome};
ghost use Rattle.std.specs.List.{All, list_any};
ghost use Rattle.zw_consts.specs.Ancestor.{is_among, numbers_of};
ghost use Rattle.zw_def.specs.Text.{Text};
ghost use Rattle.zw_def_world.specs.Call.{finds_private};
ghost use Rattle.zw_def_world.specs.MethodLine.{passes_new};
ghost use Rattle.zw_def_world.specs.World.{World};
ghost use Rattle.zw_heap.specs.Heap.{sizes_of};
ghost use Rattle.zw_heap.specs.Sound.{IsIn};
ghost use Rattle.zw_heap.specs.Telling.{Telling, Fits, Agrees, tell};
ghost use Rattle.zw_calls.specs.Fault.{AreSame, fault_seen};
ghost use Rattle.zw_methods.specs.Line.{cores, place_seen, places_of};
ghost use Rattle.zw_methods.specs.Telling.{Codes};
ghost use Rattle.zw_ops.specs.Choice.{Chooses, ChoosesNext, Finds, FindsFrom, FindsNext, IsFoundIn, Makes, StandsIn, Tells, is_new};
ghost use Rattle.zw_ops.specs.Written.{absent_seen, written_seen};

use crate::fault::{OpFault, no_method, no_super, no_variable, private_method};
use crate::line::{count_tables, find_asked, place_behind};
use crate::written::{Absent, Written};
use std::alloc::{AllocError, Global};
use zw_consts::{ancestors, tells_ancestors};
use zw_fault::Raise;
use zw_heap::{CoreClass, Heap, ModuleId, Value};
use zw_methods::{Method, Methods, ModuleLine, is_one_of, line_of, tells_line};
use zw_names::{Name, Names};

/// A running method: its name, the table that has it, and how many equal tables stand before that one in the line of the
/// receiver.
#[derive(Clone, Copy, Debug, PartialEq, Eq)]
pub struct Running {
    pub name: Name,
    pub place: ModuleLine,
    pub earlier: usize,
}

/// The method that answers a call, and how it runs.
#[derive(Clone, Copy, Debug, PartialEq, Eq)]
pub struct Chosen {
    pub method: Method,
    pub running: Running,
}

/// The classes that have no `new`, and neither have those below them.
const WITHOUT_NEW: [CoreClass; 9] = [
    CoreClass::Module,
    CoreClass::Class,
    CoreClass::NilClass,
    CoreClass::TrueClass,
    CoreClass::FalseClass,
    CoreClass::Integer,
    CoreClass::String,
    CoreClass::Symbol,
    CoreClass::Array,
];

/// Whether one of several core classes is in a line of ancestors.
fn holds_any(heap: &Heap, line: &[ModuleId], classes: &[CoreClass]) -> bool
    ensures { result ≡ list_any (is_among (numbers_of line.now)) (cores classes.now) }
{
    for class in classes {
        if is_one_of(line, heap.core(*class)) {
            return true;
        }
    }
    false
}

/// Whether `new` of Class is passed over for a receiver.
fn passes_new(
    alloc: Global,
    heap: &Heap,
    names: &Names,
    receiver: Value,
    name: Name,
) -> Result<bool, AllocError>
    requires receiver { IsIn (sizes_of heap.now) receiver }
    requires named { name.0 < length names.now }
    ensures told { IfOk result (λ passes. (I : Telling) (w : World) → Fits I names.now heap.now → Agrees I heap.now w
        → passes_new w (tell I receiver) (I.name name.0) ≡ Some passes) }
    ensures makes { IfOk result (λ passes. passes ≡ false → is_new names.now name.0 → Makes heap.now receiver) }
{
    heap.tells_core();
    tells_ancestors(heap);
    if names.text(name) != "new" {
        return Ok(false);
    }
    let Value::Module(of) = receiver else {
        return Ok(true);
    };
    let line = ancestors(alloc, heap, of)?;
    Ok(holds_any(heap, &line, &WITHOUT_NEW))
}

/// The first method of a name from a place of a line on, and how it runs.
fn chosen_from(
    heap: &Heap,
    methods: &Methods,
    line: &[ModuleLine],
    start: usize,
    passes: bool,
    name: Name,
) -> Option<Chosen>
    requires { start ≤ length line.now }
    ensures finds { (I : Telling) (codes : Codes) (names : List Text) (w : World)
        → Tells I codes heap.now methods.now names w → All (λ p. (place_seen p).0 < length heap.now.modules) line.now
        → FindsFrom I codes w passes (I.name name.0) start line.now result }
    ensures found { IfSome result (IsFoundIn methods.now (places_of line.now) passes name) }
{
    heap.tells_core();
    let Some(found) = find_asked(heap, methods, line, start, passes, name) else {
        return None;
    };
    let place = line[found.at];
    Some(Chosen {
        method: found.method,
        running: Running {
            name,
            place,
            earlier: count_tables(&line[..found.at], place),
        },
    })
}

/// The method of a name that answers a call to a receiver, private ones too.
fn find_method(
    alloc: Global,
    heap: &Heap,
    methods: &Methods,
    names: &Names,
    receiver: Value,
    name: Name,
) -> Result<Option<Chosen>, AllocError>
    requires receiver { IsIn (sizes_of heap.now) receiver }
    requires named { name.0 < length names.now }
    ensures finds { IfOk result (Finds heap.now methods.now names.now receiver name.0) }
    ensures stands { IfOk result (λ chosen. IfSome chosen (StandsIn heap.now methods.now names.now receiver)) }
{
    tells_line(heap);
    let passes = passes_new(alloc, heap, names, receiver, name)?;
    let line = line_of(alloc, heap, receiver)?;
    Ok(chosen_from(heap, methods, &line, 0, passes, name))
}

/// The fault of a call to a receiver that has no such method.
fn absent_fault(
    alloc: Global,
    heap: &Heap,
    names: &Names,
    receiver: Value,
    name: &str,
    absent: Absent,
) -> Result<Raise, AllocError>
    requires receiver { IsIn (sizes_of heap.now) receiver }
    requires named { heap.now.names ≤ length names.now }
    ensures { IfOk result (λ raise. AreSame heap.now names.now
        (λ I. absent_seen absent (tell I receiver) name.now) (λ I. fault_seen raise)) }
{
    match absent {
        Absent::Method => no_method(alloc, receiver, name, heap, names),
        Absent::Variable => no_variable(alloc, receiver, name, heap, names),
    }
}

/// Whether a method is private, and the call is written so that private ones are not found.
fn is_hidden(method: Method, written: Written) -> bool
    ensures { result ≡ (method.private && not (finds_private (written_seen written))) }
{
    method.private && !written.finds_private()
}

/// The method that answers a call of a node. A private one does so only where the receiver is not written, or is `self`.
pub fn choose_call(
    alloc: Global,
    heap: &Heap,
    methods: &Methods,
    names: &Names,
    receiver: Value,
    name: Name,
    written: Written,
    absent: Absent,
) -> Result<Chosen, OpFault>
    requires receiver { IsIn (sizes_of heap.now) receiver }
    requires name { name.0 < length names.now }
    requires named { heap.now.names ≤ length names.now }
    ensures chooses { Chooses heap.now methods.now names.now written absent receiver name.0 result }
    ensures stands { IfOk result (StandsIn heap.now methods.now names.now receiver) }
{
    let text = names.text(name);
    let Some(chosen) = find_method(alloc, heap, methods, names, receiver, name)? else {
        let fault = absent_fault(alloc, heap, names, receiver, text, absent)?;
        return Err(OpFault::Refused(fault));
    };
    if is_hidden(chosen.method, written) {
        let fault = private_method(alloc, receiver, text, heap, names)?;
        return Err(OpFault::Refused(fault));
    }
    Ok(chosen)
}

/// The first method of a running method's name behind its table in the line of the receiver.
fn find_next(
    alloc: Global,
    heap: &Heap,
    methods: &Methods,
    names: &Names,
    receiver: Value,
    running: Running,
) -> Result<Option<Chosen>, AllocError>
    requires receiver { IsIn (sizes_of heap.now) receiver }
    requires named { running.name.0 < length names.now }
    ensures finds { IfOk result (FindsNext heap.now methods.now names.now receiver running) }
    ensures stands { IfOk result (λ chosen. IfSome chosen (StandsIn heap.now methods.now names.now receiver)) }
{
    tells_line(heap);
    let passes = passes_new(alloc, heap, names, receiver, running.name)?;
    let line = line_of(alloc, heap, receiver)?;
    let start = place_behind(&line, running.place, running.earlier);
    Ok(chosen_from(heap, methods, &line, start, passes, running.name))
}

/// The method that `super` calls: the first of the running method's name behind its table in the line of the receiver.
pub fn choose_super(
    alloc: Global,
    heap: &Heap,
    methods: &Methods,
    names: &Names,
    receiver: Value,
    running: Running,
) -> Result<Chosen, OpFault>
    requires receiver { IsIn (sizes_of heap.now) receiver }
    requires name { running.name.0 < length names.now }
    requires named { heap.now.names ≤ length names.now }
    ensures chooses { ChoosesNext heap.now methods.now names.now receiver running result }
    ensures stands { IfOk result (StandsIn heap.now methods.now names.now receiver) }
{
    let Some(chosen) = find_next(alloc, heap, methods, names, receiver, running)? else {
        let fault = no_super(alloc, receiver, names.text(running.name), heap, names)?;
        return Err(OpFault::Refused(fault));
    };
    Ok(chosen)
}
