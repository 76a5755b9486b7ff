//! Faults: the first statement that has one, its least reason, and its line.
use super::{Row, agree};
use std::test::Fail;

const REASONS: [Row<'static>; 22] = [
    ("", "return", "reason 10 line 1"),
    ("", "break", "reason 10 line 1"),
    ("", "super", "reason 10 line 1"),
    (
        "",
        "while 1 do class A; break; end; end",
        "reason 10 line 1",
    ),
    ("", "while break do end", "reason 10 line 1"),
    (
        "",
        "while 1; while break do end; end",
        "1:while(1 {while(break {})})",
    ),
    ("", "1\nclass A\nreturn\nend", "reason 10 line 2"),
    ("", "def f; end", "reason 11 line 1"),
    ("", "def f(a, a); return; end", "reason 11 line 1"),
    (
        "",
        "class A; def f; class B; def g; end; end; end; end",
        "reason 11 line 1",
    ),
    ("", "class A; def f; X = 1; end; end", "reason 12 line 1"),
    ("", "class A; def f; A::X = 1; end; end", "reason 12 line 1"),
    (
        "",
        "class A; def f(a = (B::X = 1)); end; end",
        "reason 12 line 1",
    ),
    (
        "",
        "class A; def f; module B; end; end; end",
        "reason 12 line 1",
    ),
    (
        "",
        "class A; def f; class B; return; end; end; end",
        "reason 12 line 1",
    ),
    ("", "class A; def f(a, a); end; end", "reason 13 line 1"),
    (
        "",
        "class A; def f(a, b, a = 1); end; end",
        "reason 13 line 1",
    ),
    (
        "",
        "class A; def f(a, b); end; def g(a); end; end",
        "1:class A{def f(a b){} def g(a){}}",
    ),
    (
        "",
        "class A; def f(a, a); X = 1; end; end; next; def g; end",
        "reason 12 line 1",
    ),
    ("", "(def f(a, a); X = 1; end; next)", "reason 10 line 1"),
    ("", "return; 1 +", "reason 10 line 1"),
    ("", "1 +\n'", "reason 4 line 2"),
];

// Each reason on a later line, after statements that would have a lower or a higher one further on.
const LINES: [Row<'static>; 12] = [
    ("", "1\nclass\nA", "reason 9 line 2"),
    ("", "1\n1 +\nreturn\ndef f; end", "reason 9 line 2"),
    ("", "1\n2\nreturn\n1 +", "reason 10 line 3"),
    ("", "1\nreturn\ndef f; end", "reason 10 line 2"),
    ("", "1\nif 2\ndef f; end\nend", "reason 11 line 2"),
    ("", "1\ndef f; end\nreturn\n1 +", "reason 11 line 2"),
    (
        "",
        "1\nclass A\ndef f\nmodule B; end\nend\nend",
        "reason 12 line 2",
    ),
    (
        "",
        "1\n\nclass A; def f; X = 1; end; end\nreturn",
        "reason 12 line 3",
    ),
    (
        "",
        "1\nclass A\ndef self.f(a, b,\na = 1); end\nend",
        "reason 13 line 2",
    ),
    (
        "",
        "1\nclass A; def f(a, a); end; end\n1 +",
        "reason 13 line 2",
    ),
    ("", "\nclass A\ndef f", "reason 9 line 2"),
    ("", "1\n\"#{1\n", "reason 8 line 2"),
];

#[test]
fn reasons_are_told(rt: HostRuntime) -> Result<(), Fail> {
    agree(&rt, rt.alloc(), &REASONS)?;
    Ok(())
}

#[test]
fn lines_are_told(rt: HostRuntime) -> Result<(), Fail> {
    agree(&rt, rt.alloc(), &LINES)?;
    Ok(())
}
