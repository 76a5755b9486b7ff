//! The arguments of a method that a program defines (ISO/IEC 30170, 13.3.4 and 11.3.1).
ghost use Rattle.std.specs.Prelude.{◌≡◌, ◌+◌, ◌-◌, ◌≤◌, ◌^◌, ◌<◌, ◌&&◌, nat_le, true, false};
ghost use Rattle.zw_ops.specs.Arguments.{Binds};

use crate::fault::OpFault;
use std::alloc::Global;
use zw_calls::checks::wrong_number;

/// How many optional parameters are given, where a method takes so many arguments.
pub fn bind_args(
    alloc: Global,
    required: usize,
    optional: usize,
    given: usize,
) -> Result<usize, OpFault>
    requires { required + optional < 2 ^ 64 }
    ensures { Binds required (required + optional) given result }
{
    let most = required + optional;
    if required <= given && given <= most {
        return Ok(given - required);
    }
    let fault = wrong_number(alloc, given, required, most)?;
    Err(OpFault::Refused(fault))
}
