//! Line ends, lines and places.
use super::{agree, agree_between, lexed};
use std::alloc::{AllocError, Global};
use std::test::Fail;
use zw_lexer::lex;
use zw_names::Names;

// The signs after which a line end is dropped, and words that join lines.
const JOINING: [&str; 31] = [
    "+", "-", "*", "/", "%", "==", "!=", "<", "<=", ">", ">=", "<=>", "&&", "||", "!", "=", "+=",
    "-=", "*=", "/=", "%=", "||=", "&&=", ".", "::", "(", "[", ",", "?", ":", "=>",
];

const LINE_ENDS: [(&str, &str); 36] = [
    ("a and\nb", "a kw:and b"),
    ("a or\nb", "a kw:or b"),
    ("not\nb", "kw:not b"),
    ("a.and\nb", "a . and NL b"),
    ("def or\nb", "kw:def or NL b"),
    (":not\nb", ":not NL b"),
    ("@and\nb", "@and NL b"),
    ("(a)\nb", "( a ) NL b"),
    ("[a]\nb", "[ a ] NL b"),
    ("a;\nb", "a ; NL b"),
    ("a\n;b", "a NL ; b"),
    ("\na", "a"),
    ("# a\n \n\r\nb", "b"),
    ("a\n", "a NL"),
    ("a\nb", "a NL b"),
    ("a\n\r\nb", "a NL NL b"),
    ("a\n # b\n c", "a NL NL c"),
    ("a;\n\nb", "a ; NL NL b"),
    ("a +\n # b\n\nc", "a + c"),
    ("(a\n)", "( a )"),
    ("(a\n # b\n\n )", "( a )"),
    ("[a,\nb\n]", "[ a , b ]"),
    ("a\n.b", "a . b"),
    ("a\n\n # c\n  .b", "a . b"),
    ("(a;\n)", "( a ; )"),
    (")\n)", ") )"),
    ("a\n::b", "a NL :: b"),
    ("a\n(b", "a NL ( b"),
    ("a\n,b", "a NL , b"),
    ("1\n+2", "int 1 NL + int 2"),
    ("a?\nb", "a? NL b"),
    ("if\nend\n", "kw:if NL kw:end NL"),
    ("X\n1\n@a\n@@b\n:c", "const X NL int 1 NL @a NL @@b NL :c"),
    (":a=\n'b'\n", ":a= NL \"b\" NL"),
    ("\"a\n#{\nb\n}\nc#{\n", "reason 8 line 5"),
    ("\"a#{\nb\n}c#{\n)}\"\nd", "\"a#{ NL b NL }c#{ ) }\" NL d"),
];

#[test]
fn line_ends_separate(rt: HostRuntime) -> Result<(), Fail> {
    agree(&rt, rt.alloc(), &LINE_ENDS)?;
    agree_between(&rt, rt.alloc(), &JOINING, ("a ", "\n\r\nb"), ("a ", " b"))?;
    Ok(())
}

// The line of a fault is that of the character at which the refused token begins.
const LINES: [(&str, &str); 21] = [
    ("a\n$", "reason 2 line 2"),
    ("\r\n\n}", "reason 2 line 3"),
    ("# a\n1.5", "reason 3 line 2"),
    ("a +\n\ncase", "reason 6 line 3"),
    ("a\r\n@", "reason 7 line 2"),
    ("'a\nb'\n@@", "reason 7 line 3"),
    ("\"a\n\nb", "reason 4 line 1"),
    ("\n'a\n\nb", "reason 4 line 2"),
    ("\n\"a\nb\\q\"", "reason 5 line 2"),
    ("\"a\n\\u{}\"", "reason 5 line 1"),
    ("\"a\n#{1", "reason 8 line 2"),
    ("\"a\n#{\n1", "reason 8 line 2"),
    ("\"a#{\n1}\nb#{\n2", "reason 8 line 3"),
    ("\"a#{\n1}\n\\q\"", "reason 5 line 1"),
    ("\n\"a#{\n1}b#{2}\n\\q\"", "reason 5 line 2"),
    ("\"a#{\n1}\nb", "reason 4 line 1"),
    ("\"#{\n\"b\n", "reason 4 line 2"),
    ("\"#{\n\"b#{\n1}\n\\q\"}\"", "reason 5 line 2"),
    ("\"#{\n\"b#{\n1}\"\n}\\q\"", "reason 5 line 1"),
    ("\"#{\n\"b#{\n1}\"\n2", "reason 8 line 1"),
    ("\"a\n#{1}\n\" $", "reason 2 line 3"),
];

// The first fault from the left decides; what is open counts at the end of the text.
const FIRST: [(&str, &str); 14] = [
    (r##""a#{case}\q""##, "reason 6 line 1"),
    (r##""\q#{case}""##, "reason 5 line 1"),
    (r#"case ""#, "reason 6 line 1"),
    ("case $", "reason 6 line 1"),
    ("$ case", "reason 2 line 1"),
    ("x.case $", "reason 2 line 1"),
    ("case\n1__0", "reason 6 line 1"),
    ("1__0 case", "reason 3 line 1"),
    ("@ 1.5", "reason 7 line 1"),
    (r#""\q"#, "reason 5 line 1"),
    (r##""#{ $"##, "reason 2 line 1"),
    (r##""#{1} } $""##, "\"#{ int 1 } } $\""),
    (r##""#{case"##, "reason 6 line 1"),
    (r##""#{1}" + '"##, "reason 4 line 1"),
];

#[test]
fn the_first_fault_decides(rt: HostRuntime) -> Result<(), Fail> {
    agree(&rt, rt.alloc(), &LINES)?;
    agree(&rt, rt.alloc(), &FIRST)?;
    Ok(())
}

// Line, start and end, and whether a blank stands before and after, of the tokens of the text below.
const PLACES: [(usize, usize, usize, bool, bool); 9] = [
    (1, 3, 5, false, true),
    (1, 6, 7, true, true),
    (1, 8, 12, true, false),
    (1, 12, 14, false, true),
    (2, 15, 17, true, true),
    (2, 18, 23, true, false),
    (3, 23, 24, false, true),
    (3, 25, 29, true, true),
    (3, 33, 34, false, false),
];

#[test]
fn tokens_have_their_places(rt: HostRuntime) -> Result<(), Fail> {
    let text = "\u{feff}é = 'ä'\r\n\t@b \"c\n#{d } e\" # f\n";
    let mut names = Names::new(rt.alloc())?;
    let tokens = lex(rt.alloc(), text.as_bytes(), &mut names)?;
    assert_eq!(rt; tokens.len(), PLACES.len());
    for (token, place) in tokens.iter().zip(PLACES) {
        let (line, start, end, before, after) = place;
        assert_eq!(rt; token.line, line, "at {start}");
        assert_eq!(rt; token.start, start);
        assert_eq!(rt; token.end, end, "at {start}");
        assert_eq!(rt; token.blank_before, before, "at {start}");
        assert_eq!(rt; token.blank_after, after, "at {start}");
    }
    Ok(())
}

// How often a piece stands in a long text.
const LONG: usize = 65_536;

fn repeated(alloc: Global, piece: &str, count: usize) -> Result<String, AllocError> {
    let mut text = String::new(alloc);
    for _ in 0..count {
        text.push_str(piece)?;
    }
    Ok(text)
}

#[test]
fn long_texts_are_read(rt: HostRuntime) -> Result<(), Fail> {
    let text = repeated(rt.alloc(), "\"#{", LONG)?;
    let read = lexed(&rt, rt.alloc(), text.as_bytes())?;
    assert_eq!(rt; read.as_str(), "reason 8 line 1");
    let text = repeated(rt.alloc(), "!", LONG)?;
    let mut names = Names::new(rt.alloc())?;
    let tokens = lex(rt.alloc(), text.as_bytes(), &mut names)?;
    assert_eq!(rt; tokens.len(), LONG);
    Ok(())
}
