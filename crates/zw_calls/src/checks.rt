//! The tests of arguments.
ghost use Rattle.std.specs.Prelude.{◌≡◌, ◌≤◌, ◌&&◌, [], Bool, false, nat_le, length, map, None, IfOk, IfSome, string_bytes};
ghost use Rattle.std.specs.List.{All};
ghost use Rattle.zw_def_world.specs.Act.{Act};
ghost use Rattle.zw_def_world.specs.Argument.{takes, takes_with, compares_with};
ghost use Rattle.zw_def_world.specs.Fault.{wrong_number, expected_text};
ghost use Rattle.zw_def_world.specs.Site.{kinds_tested, tested, wrong_argument};
ghost use Rattle.zw_def_world.specs.Value.{Value as Told};
ghost use Rattle.zw_heap.specs.Heap.{sizes_of};
ghost use Rattle.zw_heap.specs.declared.mark.Sizes.{Sizes};
ghost use Rattle.zw_heap.specs.Sound.{IsIn};
ghost use Rattle.zw_heap.specs.Telling.{Telling, tell};
ghost use Rattle.zw_calls.specs.Argument.{arguments_seen, after_kinds};
ghost use Rattle.zw_calls.specs.Fault.{fault_seen, unless_fault, AreSame};
ghost use Rattle.zw_calls.specs.Kind.{kind_seen};

use crate::argument::Arguments;
use crate::class::{no_comparison, wrong_kind};
use crate::kind::Kind;
use std::alloc::{AllocError, Global};
use zw_fault::{ErrorKind, Raise};
use zw_heap::{Heap, Value};
use zw_names::Names;

impl Arguments {
    /// All of these.
    pub fn of(kinds: &'static [Kind]) -> Arguments
        ensures { arguments_seen result ≡ takes (map kind_seen kinds.now) }
    {
        Arguments {
            least: kinds.len(),
            kinds,
            compares: false,
        }
    }

    /// Any of these, from the first.
    pub fn optional(kinds: &'static [Kind]) -> Arguments
        ensures { arguments_seen result ≡ takes_with [] (map kind_seen kinds.now) }
    {
        Arguments {
            least: 0,
            kinds,
            compares: false,
        }
    }

    /// All of these, which are compared with the receiver.
    pub fn compared(kinds: &'static [Kind]) -> Arguments
        ensures { arguments_seen result ≡ compares_with (map kind_seen kinds.now) }
    {
        Arguments {
            least: kinds.len(),
            kinds,
            compares: true,
        }
    }
}

/// The first argument that is of another kind, with the kind that is taken there.
fn first_wrong(kinds: &[Kind], args: &[Value]) -> Option<(Kind, Value)>
    ensures told { (I : Telling) (compares : Bool) (r : Told) (act : Act)
        → kinds_tested compares r None (map kind_seen kinds.now) (map (tell I) args.now) act
        ≡ after_kinds compares r I result act }
    ensures held { (s : Sizes) → All (IsIn s) args.now → IfSome result (λ wrong. IsIn s wrong.1) }
{
    let (value, args) = args.split_first()?;
    let (kind, kinds) = kinds.split_first()?;
    if !kind.has(*value) {
        return Some((*kind, *value));
    }
    first_wrong(kinds, args)
}

/// How many arguments are expected.
fn expected(alloc: Global, least: usize, most: usize) -> Result<String, AllocError>
    ensures { IfOk result (λ text. string_bytes text ≡ expected_text least most false) }
{
    if least == most {
        return format!(in alloc; "{least}");
    }
    let text = format!(in alloc; "{least}..{most}")?;
    Ok(text)
}

/// The fault of a number of arguments that a method does not take.
pub fn wrong_number(
    alloc: Global,
    given: usize,
    least: usize,
    most: usize,
) -> Result<Raise, AllocError>
    ensures { IfOk result (λ raise. fault_seen raise ≡ wrong_number given least most false) }
{
    let expected = expected(alloc, least, most)?;
    Ok(Raise {
        kind: ErrorKind::ArgumentError,
        message: format!(in alloc;
            "wrong number of arguments (given {given}, expected {expected})"
        )?,
    })
}

/// The fault of an argument of another kind than a method takes.
fn wrong_argument(
    alloc: Global,
    compares: bool,
    receiver: Value,
    wrong: (Kind, Value),
    heap: &Heap,
    names: &Names,
) -> Result<Raise, AllocError>
    requires receiver { IsIn (sizes_of heap.now) receiver }
    requires held { IsIn (sizes_of heap.now) wrong.1 }
    requires named { heap.now.names ≤ length names.now }
    ensures { IfOk result (λ raise. AreSame heap.now names.now
        (λ I. wrong_argument compares (tell I receiver) (kind_seen wrong.0) (tell I wrong.1)) (λ I. fault_seen raise)) }
{
    if compares {
        return no_comparison(alloc, receiver, wrong.1, heap, names);
    }
    wrong_kind(alloc, wrong.0, wrong.1, heap, names)
}

impl Arguments {
    /// Whether it takes so many.
    fn takes(&self, given: usize) -> bool
        ensures { result ≡ (nat_le self.now.least given && nat_le given (length self.now.kinds.now)) }
    {
        self.least <= given && given <= self.kinds.len()
    }

    /// The fault of arguments that a method does not take: their number is tested, and then their kinds, from the left.
    pub fn fault(
        &self,
        alloc: Global,
        receiver: Value,
        args: &[Value],
        heap: &Heap,
        names: &Names,
    ) -> Result<Option<Raise>, AllocError>
        requires receiver { IsIn (sizes_of heap.now) receiver }
        requires arguments { All (IsIn (sizes_of heap.now)) args.now }
        requires named { heap.now.names ≤ length names.now }
        ensures { IfOk result (λ raise. (act : Act) → AreSame heap.now names.now
            (λ I. tested (arguments_seen self.now) (tell I receiver) (map (tell I) args.now) act)
            (λ I. unless_fault raise act)) }
    {
        if !self.takes(args.len()) {
            let fault = wrong_number(alloc, args.len(), self.least, self.kinds.len())?;
            return Ok(Some(fault));
        }
        let Some(wrong) = first_wrong(self.kinds, args) else {
            return Ok(None);
        };
        let fault = wrong_argument(alloc, self.compares, receiver, wrong, heap, names)?;
        Ok(Some(fault))
    }
}
