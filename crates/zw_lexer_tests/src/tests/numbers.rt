//! Integers.
use super::agree;
use std::test::Fail;

// No zero stands first but `0` itself, a `_` stands between digits, and no letter, `_` or dot and digit follow.
const NUMBERS: [(&str, &str); 30] = [
    ("1.5", "reason 3 line 1"),
    ("1__0", "reason 3 line 1"),
    ("x1.5", "x1 . int 5"),
    ("0", "int 0"),
    ("00", "reason 3 line 1"),
    ("01", "reason 3 line 1"),
    ("0_1", "reason 3 line 1"),
    ("10", "int 10"),
    ("1_0", "int 10"),
    ("1_000_000", "int 1000000"),
    ("1_", "reason 3 line 1"),
    ("1_a", "reason 3 line 1"),
    ("1_ 0", "reason 3 line 1"),
    ("9223372036854775807", "int 9223372036854775807"),
    ("9_223_372_036_854_775_807", "int 9223372036854775807"),
    ("9223372036854775808", "reason 3 line 1"),
    ("18446744073709551617", "reason 3 line 1"),
    ("1a", "reason 3 line 1"),
    ("1A", "reason 3 line 1"),
    ("1é", "reason 3 line 1"),
    ("1\u{301}", "reason 2 line 1"),
    ("0x1", "reason 3 line 1"),
    ("0.5", "reason 3 line 1"),
    ("1.a", "int 1 . a"),
    ("1._5", "int 1 . _5"),
    ("1..2", "int 1 . . int 2"),
    ("1. 5", "int 1 . int 5"),
    ("1 .5", "int 1 . int 5"),
    ("1?2:3", "int 1 ? int 2 : int 3"),
    ("-1", "- int 1"),
];

#[test]
fn numbers_are_read(rt: HostRuntime) -> Result<(), Fail> {
    agree(&rt, rt.alloc(), &NUMBERS)?;
    Ok(())
}
