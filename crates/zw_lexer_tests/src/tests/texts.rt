//! Texts and their interpolations.
use super::agree;
use std::test::Fail;

// `\'` and `\\` alone are escapes.
const SINGLE: [(&str, &str); 14] = [
    ("''", r#""""#),
    ("'a'", r#""a""#),
    ("'é\"'", r#""é"""#),
    ("'a''b'", r#""a" "b""#),
    (r"'\''", r#""'""#),
    (r"'\\'", r#""\""#),
    (r"'\\\''", r#""\'""#),
    (r"'\n\q\u{41}'", r#""\n\q\u{41}""#),
    ("'#{a}'", r##""#{a}""##),
    ("'#{1'", r##""#{1""##),
    ("'a\r\nb'", "\"a\r\nb\""),
    ("'a", "reason 4 line 1"),
    (r"'\'", "reason 4 line 1"),
    ("'a\"", "reason 4 line 1"),
];

const DOUBLE: [(&str, &str); 20] = [
    (r#""a"#, "reason 4 line 1"),
    (r#""\q""#, "reason 5 line 1"),
    (r#""""#, r#""""#),
    (r#"a"b""#, r#"a "b""#),
    (r#""'""#, r#""'""#),
    (r#""\n\t\r""#, "\"\n\t\r\""),
    (r#""\"\\\#""#, r#"""\#""#),
    (r#""\\n""#, r#""\n""#),
    (r##""\#{a}""##, r##""#{a}""##),
    (r##""#""##, r##""#""##),
    (r##""#a # {}""##, r##""#a # {}""##),
    ("\"a\n\r\nb\"", "\"a\n\r\nb\""),
    (r#""\u{41}""#, r#""A""#),
    (r#""\u{e9}\u{E9}x""#, r#""ééx""#),
    (r#""\u{0}\u{000041}""#, "\"\u{0}A\""),
    (r#""\u{D7FF}\u{E000}""#, "\"\u{D7FF}\u{E000}\""),
    (r#""\u{10FFFF}""#, "\"\u{10FFFF}\""),
    (r#"""#, "reason 4 line 1"),
    (r#""a\""#, "reason 4 line 1"),
    (r#""a\"#, "reason 5 line 1"),
];

// A backslash and what is no escape.
const NO_ESCAPES: [(&str, &str); 18] = [
    ("\"a\\u{}\"", "reason 5 line 1"),
    ("\"a\\u{D800}\"", "reason 5 line 1"),
    ("\"a\\u{DFFF}\"", "reason 5 line 1"),
    ("\"a\\u{110000}\"", "reason 5 line 1"),
    ("\"a\\u{1234567}\"", "reason 5 line 1"),
    ("\"a\\u{0000041}\"", "reason 5 line 1"),
    ("\"a\\u{41\"", "reason 5 line 1"),
    ("\"a\\u{ 41}\"", "reason 5 line 1"),
    ("\"a\\u{g}\"", "reason 5 line 1"),
    ("\"a\\u41\"", "reason 5 line 1"),
    ("\"a\\u\"", "reason 5 line 1"),
    ("\"a\\'\"", "reason 5 line 1"),
    ("\"a\\e\"", "reason 5 line 1"),
    ("\"a\\0\"", "reason 5 line 1"),
    ("\"a\\N\"", "reason 5 line 1"),
    ("\"a\\{\"", "reason 5 line 1"),
    ("\"a\\ \"", "reason 5 line 1"),
    ("\"a\\\n\"", "reason 5 line 1"),
];

const INTERPOLATIONS: [(&str, &str); 31] = [
    (r##""#{1"##, "reason 8 line 1"),
    ("}", "reason 2 line 1"),
    (r##""#{1}""##, r##""#{ int 1 }""##),
    (r##""#{}""##, r##""#{ }""##),
    (r##""a#{1}b""##, r##""a#{ int 1 }b""##),
    (r##""a#{1}b#{2}c""##, r##""a#{ int 1 }b#{ int 2 }c""##),
    ("\"##{1}#\"", "\"##{ int 1 }#\""),
    (r##""#{ "#{1}" }""##, r##""#{ "#{ int 1 }" }""##),
    (
        r##""a#{"b#{1}c#{2}d"}e""##,
        r##""a#{ "b#{ int 1 }c#{ int 2 }d" }e""##,
    ),
    (r##""#{'}'}""##, r##""#{ "}" }""##),
    (r##""#{"}"}""##, r##""#{ "}" }""##),
    (r##""#{1}}""##, r##""#{ int 1 }}""##),
    (r##""#{1}\#{2}""##, r##""#{ int 1 }#{2}""##),
    (r##""#{1}\u{41}\n""##, "\"#{ int 1 }A\n\""),
    (r##""#{a ?b:c}:d""##, r##""#{ a ? b :c }:d""##),
    ("\"#{# }\n1\n}\"", r##""#{ NL int 1 NL }""##),
    (r##""#{1}" }"##, "reason 2 line 1"),
    (r##""#{{}}""##, "reason 2 line 1"),
    (r##""#{"##, "reason 8 line 1"),
    (r##""#{# }""##, "reason 8 line 1"),
    (r##""#{1}#{"##, "reason 8 line 1"),
    (r##""#{"#{"##, "reason 8 line 1"),
    (r##""#{"#{1}""##, "reason 8 line 1"),
    (r##""#{""##, "reason 4 line 1"),
    (r##""#{'"##, "reason 4 line 1"),
    (r##""#{1}"##, "reason 4 line 1"),
    (r##""#{"#{1}"##, "reason 4 line 1"),
    (r##""#{1}\q""##, "reason 5 line 1"),
    (r##""#{1}\"##, "reason 5 line 1"),
    (r##""#{case}""##, "reason 6 line 1"),
    (r##""#{@}""##, "reason 7 line 1"),
];

#[test]
fn texts_are_read(rt: HostRuntime) -> Result<(), Fail> {
    agree(&rt, rt.alloc(), &SINGLE)?;
    agree(&rt, rt.alloc(), &DOUBLE)?;
    agree(&rt, rt.alloc(), &NO_ESCAPES)?;
    agree(&rt, rt.alloc(), &INTERPOLATIONS)?;
    Ok(())
}
