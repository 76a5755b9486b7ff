//! Forms that end with `end`, but for methods (ISO/IEC 30170, 11.5.2, 13.1.2 and 13.2.2).
use super::{Row, agree};
use std::test::Fail;

const CHOICES: [Row<'static>; 15] = [
    ("", "if 1 then 2 end", "1:if(1 {2} {})"),
    ("", "if 1; 2 end", "1:if(1 {2} {})"),
    ("", "if 1\nthen 2 else end", "1:if(1 {2} {})"),
    (
        "",
        "if 1 then 2 elsif 3; 4\nelse 5 end",
        "1:if(1 {2} {if(3 {4} {5})})",
    ),
    (
        "",
        "if 1; elsif 2; 3; elsif 4; 5; 6; end",
        "1:if(1 {} {if(2 {3} {if(4 {5 6} {})})})",
    ),
    ("", "if a = 1 then a end", "1:if(($a = 1) {$a} {})"),
    ("", "if 1 2 end", "reason 9 line 1"),
    ("", "if 1 then 2", "reason 9 line 1"),
    (
        "",
        "if 1 then 2 else 3 elsif 4 then 5 end",
        "reason 9 line 1",
    ),
    ("", "unless 1\nthen 2 else 3 end", "1:if(1 {3} {2})"),
    ("", "unless 1 then 2 end", "1:if(1 {} {2})"),
    ("", "unless 1 then 2 elsif 3 then 4 end", "reason 9 line 1"),
    ("", "while f 1 do break end", "1:while(f(1) {break})"),
    ("", "until 1\n2; 3\nend", "1:while(!(1) {2 3})"),
    ("", "while 1 then 2 end", "reason 9 line 1"),
];

const CLAUSES: [Row<'static>; 12] = [
    ("", "begin end", "1:{}"),
    ("", "begin 1; 2 end", "1:{1 2}"),
    (
        "",
        "begin; 1; rescue A, ::B::C => e; e; rescue; 2; else 3; ensure 4; end",
        "1:begin{1} rescue A ::B::C => e {$e} rescue {2} else{3} ensure{4}",
    ),
    (
        "",
        "begin; x rescue Nope; 2; end",
        "1:begin{x} rescue Nope {2}",
    ),
    ("", "begin; 1; rescue then 2; end", "1:begin{1} rescue {2}"),
    ("", "begin; 1; rescue A, then 2; end", "reason 9 line 1"),
    ("", "begin; 1; rescue a; 2; end", "reason 9 line 1"),
    ("", "begin; 1; rescue => e?; 2; end", "reason 9 line 1"),
    ("", "begin; 1; else 2; end", "reason 9 line 1"),
    ("", "begin; 1; ensure 2; rescue; 3; end", "reason 9 line 1"),
    (
        "",
        "begin; rescue => e; end; e",
        "1:begin{} rescue => e {} 1:$e",
    ),
    ("", "begin ensure end", "1:begin{} ensure{}"),
];

const BODIES: [Row<'static>; 14] = [
    ("", "class A; end", "1:class A{}"),
    ("", "class A end", "reason 9 line 1"),
    ("", "class a; end", "reason 9 line 1"),
    ("", "class ::A\nend", "1:class ::A{}"),
    ("", "class A::B < C::D; 1; end", "1:class A::B < C::D{1}"),
    ("", "class A <; end", "reason 9 line 1"),
    (
        "",
        "class A; begin; 1; rescue E, F; 2; end; end",
        "1:class A{begin{1} rescue E F {2}}",
    ),
    ("", "class A; 1; rescue; 2; end", "reason 9 line 1"),
    ("", "module ::A::B; end", "1:module ::A::B{}"),
    ("", "module A; module B; end; end", "1:module A{module B{}}"),
    ("", "module A < B; end", "reason 9 line 1"),
    ("", "module A end", "reason 9 line 1"),
    (
        "",
        "a = 1\nclass A; a; b = 2; end\n[a, b]",
        "1:($a = 1) 2:class A{a ($b = 2)} 3:[$a b]",
    ),
    (
        "",
        "class A < (b = C)\nb\nend\nb",
        "1:class A < ($b = C){b} 4:$b",
    ),
];

#[test]
fn choices_are_read(rt: HostRuntime) -> Result<(), Fail> {
    agree(&rt, rt.alloc(), &CHOICES)?;
    Ok(())
}

#[test]
fn clauses_are_read(rt: HostRuntime) -> Result<(), Fail> {
    agree(&rt, rt.alloc(), &CLAUSES)?;
    Ok(())
}

#[test]
fn bodies_are_read(rt: HostRuntime) -> Result<(), Fail> {
    agree(&rt, rt.alloc(), &BODIES)?;
    Ok(())
}
