//! Commands, what follows a primary, and `?:` (ISO/IEC 30170, 11.3, 11.5.2.2 and 11.5.4).
use super::{Row, agree};
use std::test::Fail;

const COMMANDS: [Row<'static>; 26] = [
    ("f", "f -1", "1:$f.-(1)"),
    ("", "f -1", "1:f(-1)"),
    ("", "f - 1", "1:f.-(1)"),
    ("", "f -\nx", "1:f(x.-@())"),
    ("", "f g -1", "1:f(g.-(1))"),
    ("", "f (1).abs, 2", "1:f(1.abs() 2)"),
    ("", "f (a; b)", "1:f({a b})"),
    ("", "f(1).abs", "1:f(1).abs()"),
    ("", "f()", "1:f()"),
    ("", "f", "1:f"),
    ("", "f?", "1:f?()"),
    ("", "f [0]", "1:f([0])"),
    ("", "f = 1; f [0]", "reason 9 line 1"),
    ("", "f !a", "1:f(!(a))"),
    ("", "f ::A", "1:f(::A)"),
    ("", "f 1, 2", "1:f(1 2)"),
    ("", "f 1,", "reason 9 line 1"),
    ("", "a.b c, 1", "1:a.b(c 1)"),
    ("", "x = a.b c", "1:($x = a.b(c))"),
    ("", "a.b -1", "1:a.b(-1)"),
    ("", "a.b - 1", "1:a.b().-(1)"),
    ("", "f (x = 1)", "1:f(($x = 1))"),
    ("", "f(x = 1)", "reason 9 line 1"),
    ("", "a.b(1) c", "reason 9 line 1"),
    ("", "-7.abs 1", "reason 9 line 1"),
    ("", "1 + a.b c", "reason 9 line 1"),
];

const POSTFIXES: [Row<'static>; 9] = [
    ("", "A::B.c(1)[2, 3].d", "1:A::B.c(1).[](2 3).d()"),
    ("", "a.class.Nil", "1:a.class().Nil()"),
    ("", "a\n  .b", "1:a.b()"),
    ("", "a[1]", "1:a.[](1)"),
    ("", "a[]", "reason 9 line 1"),
    ("", "[1] [0]", "reason 9 line 1"),
    ("", "[1][0]", "1:[1].[](0)"),
    ("", "A::b", "reason 9 line 1"),
    ("", "a.1", "reason 9 line 1"),
];

const TERNARIES: [Row<'static>; 7] = [
    ("", "1 ? 2 : 3 ? 4 : 5", "1:if(1 {2} {if(3 {4} {5})})"),
    ("", "1 ? 2 ? 3 : 4 : 5", "1:if(1 {if(2 {3} {4})} {5})"),
    ("", "x?1:2", "reason 9 line 1"),
    ("", "a ?b:c", "reason 9 line 1"),
    ("", "a ?b :1", "1:if(a {b} {1})"),
    ("", "1 ? a = 2 : 3", "reason 9 line 1"),
    ("", "1 ? 2", "reason 9 line 1"),
];

#[test]
fn commands_are_read(rt: HostRuntime) -> Result<(), Fail> {
    agree(&rt, rt.alloc(), &COMMANDS)?;
    Ok(())
}

#[test]
fn postfixes_are_read(rt: HostRuntime) -> Result<(), Fail> {
    agree(&rt, rt.alloc(), &POSTFIXES)?;
    Ok(())
}

#[test]
fn ternaries_are_read(rt: HostRuntime) -> Result<(), Fail> {
    agree(&rt, rt.alloc(), &TERNARIES)?;
    Ok(())
}
