//! For each production a text that it takes beside one that it does not (ISO/IEC 30170, 10 to 13).
use super::{Row, agree};
use std::test::Fail;

const VALUES: [Row<'static>; 32] = [
    ("", "1 and 2", "1:(1 and 2)"),
    ("", "1 and", "reason 9 line 1"),
    ("", "1 or 2", "1:(1 or 2)"),
    ("", "or 2", "reason 9 line 1"),
    ("", "not 1", "1:!(1)"),
    ("", "not", "reason 9 line 1"),
    ("", "a = 1", "1:($a = 1)"),
    ("", "a =", "reason 9 line 1"),
    ("", "a? = 1", "reason 9 line 1"),
    ("", "@a = 1", "1:(@a = 1)"),
    ("", "@a 1", "reason 9 line 1"),
    ("", "@@a = 1", "1:(@@a = 1)"),
    ("", "@@a 1", "reason 9 line 1"),
    ("", "A = 1", "1:(A = 1)"),
    ("", "A 1", "reason 9 line 1"),
    ("", "A::B = 1", "1:(A::B = 1)"),
    ("", "A::b = 1", "reason 9 line 1"),
    ("", "a.b = 1", "1:(a.b = 1)"),
    ("", "a.b! = 1", "reason 9 line 1"),
    ("", "a -= 1", "1:($a = $a.-(1))"),
    ("", "a.b -= 1", "reason 9 line 1"),
    ("", "1 || 2", "1:(1 or 2)"),
    ("", "1 ||", "reason 9 line 1"),
    ("", "1 && 2", "1:(1 and 2)"),
    ("", "1 &&", "reason 9 line 1"),
    ("", "1 == 2", "1:1.==(2)"),
    ("", "1 ==", "reason 9 line 1"),
    ("", "1 < 2", "1:1.<(2)"),
    ("", "1 <", "reason 9 line 1"),
    ("", "1 - 2", "1:1.-(2)"),
    ("", "1 * 2", "1:1.*(2)"),
    ("", "1 *", "reason 9 line 1"),
];

const PRIMARIES: [Row<'static>; 24] = [
    ("", "!1", "1:!(1)"),
    ("", "!", "reason 9 line 1"),
    ("a", "-a", "1:$a.-@()"),
    ("", "-", "reason 9 line 1"),
    ("", "a.if", "1:a.if()"),
    ("", "a.+", "reason 9 line 1"),
    ("", "a.", "reason 9 line 1"),
    ("", "a.b(1)", "1:a.b(1)"),
    ("", "a.b(1,)", "reason 9 line 1"),
    ("", "f(1)", "1:f(1)"),
    ("", "f(,)", "reason 9 line 1"),
    ("", "f(1", "reason 9 line 1"),
    ("", "f 1, 2", "1:f(1 2)"),
    ("", "f 1,, 2", "reason 9 line 1"),
    ("", "f 1", "1:f(1)"),
    ("f", "f 1", "reason 9 line 1"),
    (
        "",
        "class A; def f; super(1); end; end",
        "1:class A{def f(){super(1)}}",
    ),
    ("", "class A; def f; super(1,); end; end", "reason 9 line 1"),
    (
        "",
        "class A; def f; super 1; end; end",
        "1:class A{def f(){super(1)}}",
    ),
    ("", "class A; def f; super 1,; end; end", "reason 9 line 1"),
    (
        "",
        "class A; def f; return 1; end; end",
        "1:class A{def f(){return(1)}}",
    ),
    (
        "",
        "class A; def f; return 1, 2; end; end",
        "reason 9 line 1",
    ),
    ("", "while 1; next; end", "1:while(1 {next})"),
    ("", "while 1; next 2; end", "reason 9 line 1"),
];

const FORMS: [Row<'static>; 24] = [
    ("", "if 1\nthen 2 end", "1:if(1 {2} {})"),
    ("", "if 1 then then 2 end", "reason 9 line 1"),
    ("", "unless 1; 2 end", "1:if(1 {} {2})"),
    ("", "unless 1 2 end", "reason 9 line 1"),
    ("", "while 1 do 2 end", "1:while(1 {2})"),
    ("", "while 1 2 end", "reason 9 line 1"),
    ("", "until 1; 2; end", "1:while(!(1) {2})"),
    ("", "until 1 then 2 end", "reason 9 line 1"),
    ("", "begin 1 end", "1:{1}"),
    ("", "begin 1", "reason 9 line 1"),
    (
        "",
        "begin; 1; rescue A, B; 2; end",
        "1:begin{1} rescue A B {2}",
    ),
    ("", "begin; 1; rescue A B; 2; end", "reason 9 line 1"),
    ("", "class A::B; end", "1:class A::B{}"),
    ("", "class A::; end", "reason 9 line 1"),
    ("", "module ::A; end", "1:module ::A{}"),
    ("", "module A::b; end", "reason 9 line 1"),
    ("", "class A; def f(a) end; end", "1:class A{def f(a){}}"),
    ("", "class A; def f(a; end; end", "reason 9 line 1"),
    ("", "class A; def f(A) end; end", "reason 9 line 1"),
    ("", "class A; def f(a?) end; end", "reason 9 line 1"),
    (
        "",
        "class A; def f(a = 1) end; end",
        "1:class A{def f(a=1){}}",
    ),
    ("", "class A; def f(a =) end; end", "reason 9 line 1"),
    (
        "",
        "class A; def self.[](i) end; end",
        "1:class A{def self.[](i){}}",
    ),
    ("", "class A; def [(i) end; end", "reason 9 line 1"),
];

#[test]
fn values_have_neighbours(rt: HostRuntime) -> Result<(), Fail> {
    agree(&rt, rt.alloc(), &VALUES)?;
    Ok(())
}

#[test]
fn primaries_have_neighbours(rt: HostRuntime) -> Result<(), Fail> {
    agree(&rt, rt.alloc(), &PRIMARIES)?;
    Ok(())
}

#[test]
fn forms_have_neighbours(rt: HostRuntime) -> Result<(), Fail> {
    agree(&rt, rt.alloc(), &FORMS)?;
    Ok(())
}
