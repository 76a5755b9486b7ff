//! Texts in double quotes, and fault lines.
use std::alloc::Global;
use std::process::Abort;
use std::test::Fail;
use zw_show::{fault_line, quoted};

fn try_quoted(rt: &impl Abort, alloc: Global, text: &str, wanted: &str) -> Result<(), Fail> {
    let made = quoted(alloc, text)?;
    assert!(rt; made.as_str() == wanted, "at {text}");
    Ok(())
}

fn try_all(rt: &impl Abort, alloc: Global, rows: &[(&str, &str)]) -> Result<(), Fail> {
    for (text, wanted) in rows {
        try_quoted(rt, alloc, text, wanted)?;
    }
    Ok(())
}

/// Plain texts, and the texts in double quotes.
const PLAIN: &[(&str, &str)] = &[
    ("", "\"\""),
    ("a b", "\"a b\""),
    (" ", "\" \""),
    ("~", "\"~\""),
    ("\u{80}", "\"\u{80}\""),
    ("é", "\"é\""),
    ("日本", "\"日本\""),
    ("\u{10ffff}", "\"\u{10ffff}\""),
    ("'", "\"'\""),
];

#[test]
fn plain_characters_stand_for_themselves(rt: HostRuntime) -> Result<(), Fail> {
    try_all(&rt, rt.alloc(), PLAIN)
}

/// Texts with quotes, backslashes, line ends and tabs.
const ESCAPED: &[(&str, &str)] = &[
    ("\"", "\"\\\"\""),
    ("\\", "\"\\\\\""),
    ("\n", "\"\\n\""),
    ("\t", "\"\\t\""),
    ("\r", "\"\\r\""),
    ("\r\n", "\"\\r\\n\""),
];

#[test]
fn some_characters_have_a_letter(rt: HostRuntime) -> Result<(), Fail> {
    try_all(&rt, rt.alloc(), ESCAPED)
}

/// Texts with `#`, before what begins an interpolation and before others.
const HASHES: &[(&str, &str)] = &[
    ("#", "\"#\""),
    ("#{", "\"\\#{\""),
    ("#$", "\"\\#$\""),
    ("#@x", "\"\\#@x\""),
    ("##{", "\"#\\#{\""),
    ("#a", "\"#a\""),
    ("# {", "\"# {\""),
    ("{#}", "\"{#}\""),
    ("#\"", "\"#\\\"\""),
    ("a\\#{b}", "\"a\\\\\\#{b}\""),
];

#[test]
fn a_hash_is_escaped_before_an_interpolation(rt: HostRuntime) -> Result<(), Fail> {
    try_all(&rt, rt.alloc(), HASHES)
}

/// Texts with control characters.
const CONTROL: &[(&str, &str)] = &[
    ("\0", "\"\\u{0}\""),
    ("\u{1}", "\"\\u{1}\""),
    ("\u{8}", "\"\\u{8}\""),
    ("\u{b}", "\"\\u{b}\""),
    ("\u{c}", "\"\\u{c}\""),
    ("\u{1b}", "\"\\u{1b}\""),
    ("\u{1f}", "\"\\u{1f}\""),
    ("\u{7f}", "\"\\u{7f}\""),
];

#[test]
fn control_characters_are_numbers(rt: HostRuntime) -> Result<(), Fail> {
    try_all(&rt, rt.alloc(), CONTROL)
}

/// A class, a message, and the line of that fault.
const LINES: &[(&str, &str, &str)] = &[
    (
        "NameError",
        "uninitialized constant A",
        "! NameError: uninitialized constant A",
    ),
    ("A::B", "", "! A::B: "),
    ("E", "a\nb", "! E: a\\nb"),
    ("E", "a\\b", "! E: a\\\\b"),
    ("E", "\"#{x}\"", "! E: \"#{x}\""),
    ("E", "\u{7f}é", "! E: \\u{7f}é"),
    ("E", "\t\r\u{1}", "! E: \\t\\r\\u{1}"),
];

fn try_line(
    rt: &impl Abort,
    alloc: Global,
    class: &str,
    message: &str,
    wanted: &str,
) -> Result<(), Fail> {
    let line = fault_line(alloc, class, message)?;
    assert!(rt; line.as_str() == wanted, "at {wanted}");
    Ok(())
}

#[test]
fn faults_have_lines(rt: HostRuntime) -> Result<(), Fail> {
    for (class, message, wanted) in LINES {
        try_line(&rt, rt.alloc(), class, message, wanted)?;
    }
    Ok(())
}
