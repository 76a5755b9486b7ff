//! Inspect texts of symbols.
use std::alloc::Global;
use std::process::Abort;
use std::test::Fail;
use zw_show::symbol_text;

fn try_symbol(rt: &impl Abort, alloc: Global, name: &str, wanted: &str) -> Result<(), Fail> {
    let made = symbol_text(alloc, name)?;
    assert!(rt; made.as_str() == wanted, "at {name}");
    Ok(())
}

fn try_all(rt: &impl Abort, alloc: Global, rows: &[(&str, &str)]) -> Result<(), Fail> {
    for (name, wanted) in rows {
        try_symbol(rt, alloc, name, wanted)?;
    }
    Ok(())
}

/// Names that are one symbol token behind `:`.
const BARE: &[(&str, &str)] = &[
    ("abc", ":abc"),
    ("a?", ":a?"),
    ("a!", ":a!"),
    ("a=", ":a="),
    ("A", ":A"),
    ("A=", ":A="),
    ("_", ":_"),
    ("if", ":if"),
    ("é", ":é"),
    ("é?", ":é?"),
    ("self", ":self"),
];

#[test]
fn a_symbol_that_is_one_token_is_bare(rt: HostRuntime) -> Result<(), Fail> {
    try_all(&rt, rt.alloc(), BARE)
}

/// Names that are not.
const QUOTED: &[(&str, &str)] = &[
    ("+", ":\"+\""),
    ("", ":\"\""),
    ("a b", ":\"a b\""),
    ("1a", ":\"1a\""),
    ("@x", ":\"@x\""),
    ("A?", ":\"A?\""),
    ("a?=", ":\"a?=\""),
    ("a==", ":\"a==\""),
    ("a ", ":\"a \""),
    ("a#b", ":\"a#b\""),
    ("a\n", ":\"a\\n\""),
    ("[]", ":\"[]\""),
    ("a:b", ":\"a:b\""),
];

#[test]
fn another_symbol_is_quoted(rt: HostRuntime) -> Result<(), Fail> {
    try_all(&rt, rt.alloc(), QUOTED)
}
