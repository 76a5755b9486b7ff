//! Methods, their parameters, and jumps (ISO/IEC 30170, 13.3, 13.4.3, 11.5.2.4 and 11.3.4).
use super::{Row, agree};
use std::test::Fail;

const NAMES: [Row<'static>; 14] = [
    ("", "class A; def f; end; end", "1:class A{def f(){}}"),
    ("", "class A; def f!; end; end", "1:class A{def f!(){}}"),
    ("", "class A; def F; end; end", "1:class A{def F(){}}"),
    ("", "class A; def x=(v); end; end", "1:class A{def x=(v){}}"),
    ("", "class A; def x =(v); end; end", "reason 9 line 1"),
    ("", "class A; def x= v; end; end", "reason 9 line 1"),
    (
        "",
        "class A; def self.[](i) i end; end",
        "1:class A{def self.[](i){$i}}",
    ),
    (
        "",
        "class A; def <=>(a) end; end",
        "1:class A{def <=>(a){}}",
    ),
    ("", "class A; def !(a) end; end", "reason 9 line 1"),
    (
        "",
        "class A; def if; end; def self; end; end",
        "1:class A{def if(){} def self(){}}",
    ),
    ("", "class A; def B.f; end; end", "reason 9 line 1"),
    ("", "class A; f def g; end; end", "1:class A{f(def g(){})}"),
    ("", "class A; def f 1 end; end", "1:class A{def f(){1}}"),
    (
        "",
        "class A; def f; 1; rescue B; 2; end; end",
        "1:class A{def f(){begin{1} rescue B {2}}}",
    ),
];

const PARAMETERS: [Row<'static>; 11] = [
    ("", "class A; def f(); end; end", "1:class A{def f(){}}"),
    ("", "class A; def f x end; end", "1:class A{def f(x){}}"),
    (
        "",
        "class A; def f x, y; x end; end",
        "1:class A{def f(x y){$x}}",
    ),
    (
        "",
        "class A; def f(a, b = a) [a, b] end; end",
        "1:class A{def f(a b=$a){[$a $b]}}",
    ),
    (
        "",
        "class A; def f(a = (b = 1)) b end; end",
        "1:class A{def f(a=($b = 1)){b}}",
    ),
    (
        "",
        "class A; def f(a = a) end; end",
        "1:class A{def f(a=$a){}}",
    ),
    ("", "class A; def f(a = 1, b); end; end", "reason 9 line 1"),
    ("", "class A; def f x + 1 end; end", "reason 9 line 1"),
    ("", "class A; def f (1) end; end", "reason 9 line 1"),
    ("", "class A; def f(a,) end; end", "reason 9 line 1"),
    (
        "x",
        "class A; def f(a); x; end; end",
        "1:class A{def f(a){x}}",
    ),
];

const JUMPS: [Row<'static>; 17] = [
    (
        "",
        "class A; def f; return -1; end; end",
        "1:class A{def f(){return(-1)}}",
    ),
    (
        "",
        "class A; def f; return\nend; end",
        "1:class A{def f(){return}}",
    ),
    (
        "",
        "class A; def f; return; end; end",
        "1:class A{def f(){return}}",
    ),
    (
        "",
        "class A; def f; return end; end",
        "1:class A{def f(){return}}",
    ),
    (
        "",
        "class A; def f; (return) end; end",
        "1:class A{def f(){return}}",
    ),
    (
        "",
        "class A; def f; return if 1 end; end",
        "1:class A{def f(){if'(1 {return} {})}}",
    ),
    (
        "",
        "class A; def f; return unless 1 end; end",
        "1:class A{def f(){if'(1 {} {return})}}",
    ),
    (
        "",
        "class A; def f; return while 1 end; end",
        "1:class A{def f(){while'(1 {return})}}",
    ),
    (
        "",
        "class A; def f; return until 1 end; end",
        "1:class A{def f(){while'(!(1) {return})}}",
    ),
    (
        "",
        "class A; def f; return and 1 end; end",
        "1:class A{def f(){(return and 1)}}",
    ),
    (
        "",
        "class A; def f; return or 1 end; end",
        "1:class A{def f(){(return or 1)}}",
    ),
    (
        "",
        "class A; def f; return f 1; end; end",
        "1:class A{def f(){return(f(1))}}",
    ),
    ("", "if a then return else 2 end", "reason 9 line 1"),
    ("", "\"#{return}\"", "reason 9 line 1"),
    (
        "",
        "class A; def f; super; super(); super 1; end; end",
        "1:class A{def f(){super super() super(1)}}",
    ),
    ("", "while 1; break; next; end", "1:while(1 {break next})"),
    ("", "while 1; break 2; end", "reason 9 line 1"),
];

#[test]
fn names_are_read(rt: HostRuntime) -> Result<(), Fail> {
    agree(&rt, rt.alloc(), &NAMES)?;
    Ok(())
}

#[test]
fn parameters_are_read(rt: HostRuntime) -> Result<(), Fail> {
    agree(&rt, rt.alloc(), &PARAMETERS)?;
    Ok(())
}

#[test]
fn jumps_are_read(rt: HostRuntime) -> Result<(), Fail> {
    agree(&rt, rt.alloc(), &JUMPS)?;
    Ok(())
}
