//! The words of the program, where they are refused.
ghost use Rattle.std.specs.Prelude.{◌≡◌, IfOk, string_bytes};
ghost use Rattle.zw_def_thin.specs.Refusal.{line_of_refusal, bad_words};

use std::alloc::{AllocError, Global};

/// The usage line, which is printed where the words are refused.
pub(crate) fn usage_line(alloc: Global) -> Result<String, AllocError>
    ensures { IfOk result (λ line. string_bytes line ≡ line_of_refusal bad_words) }
{
    String::from_str(
        alloc,
        "usage: zw [--budget N] [--log] [--steps] [--eager] CONFIG",
    )
}
