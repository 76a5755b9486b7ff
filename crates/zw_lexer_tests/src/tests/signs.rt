//! Signs, gaps, and what begins no token.
use super::{agree, lexed};
use std::test::Fail;

// The longest sign stands at a place.
const SIGNS: [(&str, &str); 20] = [
    (
        "+ - * / % == != < <= > >= <=> && || ! = += -= *= /= %= ||= &&= . :: ( ) [ ] , ; ? : =>",
        "+ - * / % == != < <= > >= <=> && || ! = += -= *= /= %= ||= &&= . :: ( ) [ ] , ; ? : =>",
    ),
    ("===", "== ="),
    ("!==", "!= ="),
    ("<=>=", "<=> ="),
    ("==>", "== >"),
    ("=>=", "=> ="),
    ("||==", "||= ="),
    ("|||", "reason 2 line 1"),
    ("&&&&=", "&& &&="),
    ("+==", "+= ="),
    ("-=-", "-= -"),
    ("**=", "* *="),
    ("->", "- >"),
    ("<<=", "< <="),
    (">>", "> >"),
    ("...", ". . ."),
    ("::::", ":: ::"),
    ("[]=()", "[ ] = ( )"),
    ("!!a", "! ! a"),
    ("?:", "? :"),
];

// A character that begins no token.
const OUTSIDE: [(&str, &str); 20] = [
    ("$", "reason 2 line 1"),
    ("a $b", "reason 2 line 1"),
    ("&", "reason 2 line 1"),
    ("a&b", "reason 2 line 1"),
    ("|", "reason 2 line 1"),
    ("~", "reason 2 line 1"),
    ("!~", "reason 2 line 1"),
    ("=~", "reason 2 line 1"),
    ("^", "reason 2 line 1"),
    ("{", "reason 2 line 1"),
    ("a}", "reason 2 line 1"),
    ("\\", "reason 2 line 1"),
    ("`", "reason 2 line 1"),
    ("a\r", "reason 2 line 1"),
    ("a\rb", "reason 2 line 1"),
    ("\r\r\n", "reason 2 line 1"),
    ("\u{0}", "reason 2 line 1"),
    ("\u{c}", "reason 2 line 1"),
    ("\u{a0}", "reason 2 line 1"),
    ("\u{663}", "reason 2 line 1"),
];

const GAPS: [(&str, &str); 15] = [
    ("", ""),
    (" \t", ""),
    ("a\tb", "a b"),
    ("# a", ""),
    ("a # b", "a"),
    ("a#b", "a"),
    ("a#b\nc", "a NL c"),
    ("a # b\r\nc", "a NL c"),
    ("# $ \" case\na", "a"),
    ("# a\rb\nc", "c"),
    ("a\r\nb", "a NL b"),
    ("\u{feff}", ""),
    ("\u{feff}a", "a"),
    ("\u{feff}\u{feff}", "reason 2 line 1"),
    ("a\u{feff}", "reason 2 line 1"),
];

#[test]
fn signs_and_gaps_are_read(rt: HostRuntime) -> Result<(), Fail> {
    agree(&rt, rt.alloc(), &SIGNS)?;
    agree(&rt, rt.alloc(), &OUTSIDE)?;
    agree(&rt, rt.alloc(), &GAPS)?;
    Ok(())
}

#[test]
fn other_bytes_are_refused(rt: HostRuntime) -> Result<(), Fail> {
    let texts: [&[u8]; 4] = [b"\xff", b"a\n\xff", b"a\xc3", b"\xed\xa0\x80"];
    for text in texts {
        let read = lexed(&rt, rt.alloc(), text)?;
        assert!(rt;
            read.as_str() == "reason 1 line 1",
            "{text:?} is read as {read:?}"
        );
    }
    Ok(())
}
