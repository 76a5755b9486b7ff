//! Names, variables, symbols, and the words that are no names.
use super::{agree, agree_between, text_of};
use std::test::Fail;
use zw_lexer::{Token, TokenKind, lex};
use zw_names::Names;

// A `?` or `!` belongs to an identifier unless `=` follows, and never to a constant, which begins with `A` to `Z`.
const NAMES: [(&str, &str); 25] = [
    ("x?1:2", "x? int 1 : int 2"),
    ("x", "x"),
    ("_", "_"),
    ("_1", "_1"),
    ("a1_B", "a1_B"),
    ("é", "é"),
    ("Ä", "Ä"),
    ("a\u{301}\u{b7}\u{663}", "a\u{301}\u{b7}\u{663}"),
    ("a-b", "a - b"),
    ("x!", "x!"),
    ("_?", "_?"),
    ("x?=1", "x ? = int 1"),
    ("x? =1", "x? = int 1"),
    ("x?==1", "x ? == int 1"),
    ("x?=>1", "x ? => int 1"),
    ("x!=1", "x != int 1"),
    ("x!==1", "x != = int 1"),
    ("x?!", "x? !"),
    ("x!?", "x! ?"),
    ("x ?", "x ?"),
    ("X", "const X"),
    ("X1_é", "const X1_é"),
    ("X?", "const X ?"),
    ("X!", "const X !"),
    ("X?1", "const X ? int 1"),
];

const VARIABLES: [(&str, &str); 21] = [
    ("@", "reason 7 line 1"),
    ("@a", "@a"),
    ("@_", "@_"),
    ("@A", "@A"),
    ("@é1", "@é1"),
    ("@a?", "@a ?"),
    ("@a!", "@a !"),
    ("@a=1", "@a = int 1"),
    ("a@b", "a @b"),
    ("@1", "reason 7 line 1"),
    ("@ a", "reason 7 line 1"),
    ("@?", "reason 7 line 1"),
    ("@self", "@self"),
    ("@case", "@case"),
    ("@@a", "@@a"),
    ("@@A", "@@A"),
    ("@@a?b", "@@a ? b"),
    ("@@if", "@@if"),
    ("@@", "reason 7 line 1"),
    ("@@1", "reason 7 line 1"),
    ("@@@a", "reason 7 line 1"),
];

// A `=` belongs to a symbol unless `=`, `>` or `~` follows. A `:` after a `:` begins none.
const SYMBOLS: [(&str, &str); 30] = [
    ("a ?b:c", "a ? b :c"),
    ("a ?b: c", "a ? b : c"),
    (":a", ":a"),
    (":_", ":_"),
    (":A", ":A"),
    (":é", ":é"),
    (":a?", ":a?"),
    (":a!", ":a!"),
    (":A?", ":A ?"),
    (":a?=", ":a ? ="),
    (":a!=b", ":a != b"),
    (":a=", ":a="),
    (":A=", ":A="),
    (":a=1", ":a= int 1"),
    (":a =b", ":a = b"),
    (":a==b", ":a == b"),
    (":a=>1", ":a => int 1"),
    (":a=~", "reason 2 line 1"),
    ("a:b", "a :b"),
    ("a: b", "a : b"),
    ("a::b", "a :: b"),
    ("::a", ":: a"),
    ("a::B", "a :: const B"),
    (":::b", ":: : b"),
    ("a:::b", "a :: : b"),
    (":a:b", ":a :b"),
    (":1", ": int 1"),
    (":@a", ": @a"),
    (":'a'", ": \"a\""),
    (":+", ": +"),
];

const KEYWORDS: [&str; 26] = [
    "and", "begin", "break", "class", "def", "do", "else", "elsif", "end", "ensure", "false", "if",
    "module", "next", "nil", "not", "or", "rescue", "return", "self", "super", "then", "true",
    "unless", "until", "while",
];

const REFUSED: [&str; 13] = [
    "alias",
    "case",
    "defined?",
    "for",
    "in",
    "redo",
    "retry",
    "undef",
    "when",
    "yield",
    "__ENCODING__",
    "__FILE__",
    "__LINE__",
];

// A word is a plain name after `.` and `def`, and a symbol after `:`.
const WORDS: [(&str, &str); 36] = [
    ("x . if", "x . if"),
    ("x.\ncase", "x . case"),
    ("def if", "kw:def if"),
    ("def case", "kw:def case"),
    ("def self.if", "kw:def kw:self . if"),
    ("def self.case", "kw:def kw:self . case"),
    (":if", ":if"),
    (":case", ":case"),
    ("BEGIN", "reason 6 line 1"),
    ("END", "reason 6 line 1"),
    ("x.BEGIN", "x . const BEGIN"),
    ("def END", "kw:def const END"),
    ("def self.END", "kw:def kw:self . const END"),
    (":END", ":END"),
    ("X::END", "reason 6 line 1"),
    ("X::if", "const X :: kw:if"),
    ("defined", "defined"),
    ("defined ?", "defined ?"),
    ("defined!", "defined!"),
    ("defined?=", "defined ? ="),
    ("if?", "if?"),
    ("if!=", "kw:if !="),
    ("iff", "iff"),
    ("_if", "_if"),
    ("If", "const If"),
    ("nil?", "nil?"),
    ("x.class.self", "x . class . self"),
    ("def self", "kw:def self"),
    ("def self x", "kw:def self x"),
    ("def self .x", "kw:def kw:self . x"),
    ("def self\n.x", "kw:def kw:self . x"),
    ("def self.self.if", "kw:def kw:self . self . if"),
    ("def def if", "kw:def def kw:if"),
    ("x.def if", "x . def kw:if"),
    ("def\nif", "kw:def NL kw:if"),
    ("def x.if", "kw:def x . if"),
];

#[test]
fn names_are_read(rt: HostRuntime) -> Result<(), Fail> {
    agree(&rt, rt.alloc(), &NAMES)?;
    agree(&rt, rt.alloc(), &VARIABLES)?;
    agree(&rt, rt.alloc(), &SYMBOLS)?;
    agree(&rt, rt.alloc(), &WORDS)?;
    Ok(())
}

#[test]
fn words_are_told_apart(rt: HostRuntime) -> Result<(), Fail> {
    let alloc = rt.alloc();
    agree_between(&rt, alloc, &KEYWORDS, ("x;", " y"), ("x ; kw:", " y"))?;
    agree_between(&rt, alloc, &KEYWORDS, ("x.", " y"), ("x . ", " y"))?;
    agree_between(&rt, alloc, &REFUSED, ("x.", " y"), ("x . ", " y"))?;
    for word in REFUSED {
        agree(&rt, alloc, &[(word, "reason 6 line 1")])?;
    }
    Ok(())
}

#[test]
fn names_stay(rt: HostRuntime) -> Result<(), Fail> {
    let mut names = Names::new(rt.alloc())?;
    let first = names.intern("first")?;
    let second = names.intern("second")?;
    for text in ["third second $", "third case", "\"#{third", "third"] {
        let read = lex(rt.alloc(), text.as_bytes(), &mut names);
        assert_eq!(rt; read.is_ok(), text == "third", "at {text}");
        assert_eq!(rt; text_of(&rt, &names, first), "first", "at {text}");
        assert_eq!(rt; text_of(&rt, &names, second), "second", "at {text}");
    }
    let tokens = lex(rt.alloc(), b"second", &mut names)?;
    assert!(rt;
        matches!(tokens.first(), Some(Token { kind: TokenKind::Identifier(name), .. }) if *name == second)
    );
    Ok(())
}
