//! Modifiers, statements and separators (ISO/IEC 30170, 10 and 12).
use super::{Row, agree};
use std::test::Fail;

const MODIFIERS: [Row<'static>; 13] = [
    ("", "1 if 2", "1:if'(2 {1} {})"),
    ("", "1 if", "reason 9 line 1"),
    (
        "",
        "f a, b if c while d",
        "1:while'(d {if'(c {f(a b)} {})})",
    ),
    ("", "1 unless 2 and 3", "1:if'((2 and 3) {} {1})"),
    ("", "1 and 2 if 3", "1:if'(3 {(1 and 2)} {})"),
    ("", "a = 1 if 2", "1:if'(2 {($a = 1)} {})"),
    ("", "1 until 2", "1:while'(!(2) {1})"),
    ("", "a if a = 1", "1:if'(($a = 1) {a} {})"),
    ("", "begin; end while 1", "reason 9 line 1"),
    ("", "begin; end until 1", "reason 9 line 1"),
    ("", "begin; end if 1", "1:if'(1 {{}} {})"),
    ("", "(begin; end) while 1", "1:while'(1 {{}})"),
    ("", "1 if 2 else 3", "reason 9 line 1"),
];

const STATEMENTS: [Row<'static>; 13] = [
    ("", "", ""),
    ("", ";\n # a\n;", ""),
    ("", "1;; 2", "1:1 1:2"),
    (
        "",
        "\n1;; 2\r\n\n(3\n) # b\n[4,\n5\n]",
        "2:1 2:2 4:3 6:[4 5]",
    ),
    ("", "1\n2\n, 3", "reason 9 line 3"),
    ("", "a = 1 if 2\na", "1:if'(2 {($a = 1)} {}) 2:$a"),
    ("", "1 2", "reason 9 line 1"),
    ("", "1; )", "reason 9 line 1"),
    ("", "1\nend", "reason 9 line 2"),
    ("", "1 and\n2", "1:(1 and 2)"),
    ("", "1 +\n2", "1:1.+(2)"),
    ("", "1\n+ 2", "reason 9 line 2"),
    ("", "1 else 2", "reason 9 line 1"),
];

#[test]
fn modifiers_are_read(rt: HostRuntime) -> Result<(), Fail> {
    agree(&rt, rt.alloc(), &MODIFIERS)?;
    Ok(())
}

#[test]
fn statements_are_read(rt: HostRuntime) -> Result<(), Fail> {
    agree(&rt, rt.alloc(), &STATEMENTS)?;
    Ok(())
}
