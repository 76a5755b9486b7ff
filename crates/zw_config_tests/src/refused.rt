//! Configurations that are refused, each with its first refusal.
use std::alloc::Global;
use std::test::Fail;
use zw_config::{ReadFault, read};
use zw_names::Names;

const TEXTS: [(&str, &str); 68] = [
    // The document.
    ("rootz", "not TOML"),
    ("eager = true\neager = true", "not TOML"),
    ("eager = ", "not TOML"),
    ("[root]\n[root]", "not TOML"),
    ("a = \"\\q\"", "not TOML"),
    ("zz = 1\nx", "not TOML"),
    // Keys that are not known.
    ("rootz = 1", "unknown key rootz"),
    ("b = 1\na = 1\nc = 1", "unknown key a"),
    ("bb = 1\nb = 1", "unknown key b"),
    ("b = 1\nB = 1", "unknown key B"),
    ("\"é\" = 1\nz = 1", "unknown key z"),
    ("\"\" = 1\na = 1", "unknown key "),
    ("[rootz]\npath = \"m\"", "unknown key rootz"),
    ("Root = []", "unknown key Root"),
    ("edits = \"live\"", "unknown key edits"),
    ("root.path = \"m\"\nzz = 1", "unknown key zz"),
    // Roots.
    ("root = \"m\"", "wrong kind root"),
    ("[root]\npath = \"m\"", "wrong kind root"),
    ("root = [{path = \"m\"}, 3]", "wrong kind root"),
    ("[[root]]\npath = \"m\"\nzz = 1", "unknown key root.zz"),
    ("[[root]]\nPath = \"m\"\nAth = 1", "unknown key root.Ath"),
    ("[[root]]", "wrong kind root.path"),
    ("[[root]]\nnamespace = \"A\"", "wrong kind root.path"),
    ("[[root]]\npath = [\"m\"]", "wrong kind root.path"),
    ("[[root]]\npath = \"../m\"", "bad path root.path"),
    ("[[root]]\npath = \"\"", "bad path root.path"),
    ("[[root]]\npath = \"/m\"", "bad path root.path"),
    ("[[root]]\npath = \"m/\"", "bad path root.path"),
    ("[[root]]\npath = \"m\\u0007\"", "bad path root.path"),
    (
        "[[root]]\npath = \"m\"\n[[root]]\npath = \"m\"",
        "double root m",
    ),
    (
        "[[root]]\npath = \"é/b\"\n[[root]]\npath = \"n\"\n[[root]]\npath = \"é/b\"",
        "double root é/b",
    ),
    (
        "[[root]]\npath = \"m\"\n[[root]]\npath = \"m\"\nnamespace = \"a\"",
        "double root m",
    ),
    (
        "[[root]]\npath = \"m\"\nnamespace = 1",
        "wrong kind root.namespace",
    ),
    (
        "[[root]]\npath = \"m\"\nnamespace = \"a\"",
        "bad constant path root.namespace",
    ),
    (
        "[[root]]\npath = \"m\"\nnamespace = \"::A\"",
        "bad constant path root.namespace",
    ),
    (
        "[[root]]\npath = \"m\"\nnamespace = \"\"",
        "bad constant path root.namespace",
    ),
    // Patterns.
    ("ignore = \"x\"", "wrong kind ignore"),
    ("ignore = [1, \"a//b\"]", "wrong kind ignore"),
    ("ignore = [\"a//b\", 1]", "bad path ignore"),
    ("collapse = [\"x\", 1]", "wrong kind collapse"),
    ("collapse = [\"./x\"]", "bad path collapse"),
    ("no_eager = {}", "wrong kind no_eager"),
    ("no_eager = [\"**/x\", \"/x\"]", "bad path no_eager"),
    // The inflector.
    ("inflect = [\"XML\"]", "wrong kind inflect"),
    ("inflect = {a = 1}", "wrong kind inflect"),
    ("[inflect]\na.b = \"C\"", "wrong kind inflect"),
    ("inflect = {a = \"b\"}", "wrong kind inflect"),
    ("inflect = {a = \"A::B\"}", "wrong kind inflect"),
    ("inflect = {a = \"É\"}", "wrong kind inflect"),
    ("gem = 1", "wrong kind gem"),
    ("gem = \"lib//x.rb\"", "bad path gem"),
    ("gem = \"lib/x\"", "bad path gem"),
    // Booleans and the boot file.
    ("reloading = \"true\"", "wrong kind reloading"),
    ("eager = 1", "wrong kind eager"),
    ("boot = true", "wrong kind boot"),
    ("boot = \"/boot.rb\"", "bad path boot"),
    // Callbacks.
    ("callback = {}", "wrong kind callback"),
    ("callback = [\"setup\"]", "wrong kind callback"),
    ("callback = [{path = \"m\"}]", "unknown key callback.path"),
    ("[[callback]]\nrun = \"1\"", "wrong kind callback.on"),
    (
        "[[callback]]\non = \"Load\"\nrun = \"1\"",
        "wrong kind callback.on",
    ),
    (
        "[[callback]]\non = \"setup\"\ntarget = \"A\"\nrun = \"1\"",
        "wrong kind callback.target",
    ),
    (
        "[[callback]]\non = \"setup\"\ntarget = \"m\"\nrun = \"1\"",
        "wrong kind callback.target",
    ),
    (
        "[[callback]]\non = \"unload\"\ntarget = \"m\"\nrun = \"1\"",
        "bad constant path callback.target",
    ),
    ("[[callback]]\non = \"load\"", "wrong kind callback.run"),
    (
        "[[callback]]\non = \"load\"\nrun = \"1 +\"",
        "bad Ruby callback.run",
    ),
    (
        "[[callback]]\non = \"setup\"\nrun = \"return\"",
        "bad Ruby callback.run",
    ),
    (
        "[[callback]]\non = \"load\"\nrun = \"cpath [0] 1\"",
        "bad Ruby callback.run",
    ),
];

/// What is written for the first refusal, or nothing where there is none.
pub(crate) fn refusal(alloc: Global, text: &str) -> Result<String, Fail> {
    let mut names = Names::new(alloc)?;
    match read(alloc, text.as_bytes(), &mut names) {
        Ok(_) => Ok(String::new(alloc)),
        Err(ReadFault::Refused(fault)) => Ok(format!(in alloc; "{fault}")?),
        Err(ReadFault::Memory) => Err(Fail::from("out of memory")),
    }
}

#[test]
fn the_first_refusal_is_told(rt: HostRuntime) -> Result<(), Fail> {
    for (text, wanted) in &TEXTS {
        let told = refusal(rt.alloc(), text)?;
        assert!(&rt; told.as_str() == *wanted, "{text}: {told}");
    }
    Ok(())
}

#[test]
fn the_text_is_what_display_writes(rt: HostRuntime) -> Result<(), Fail> {
    let alloc = rt.alloc();
    for (text, wanted) in &TEXTS {
        let mut names = Names::new(alloc)?;
        if let Err(ReadFault::Refused(fault)) = read(alloc, text.as_bytes(), &mut names) {
            let told = fault.text(alloc)?;
            assert!(&rt; told.as_str() == *wanted, "{text}: {told}");
        }
    }
    Ok(())
}

#[test]
fn bytes_that_are_no_utf_8_are_no_document(rt: HostRuntime) -> Result<(), Fail> {
    let mut names = Names::new(rt.alloc())?;
    let told = read(rt.alloc(), b"eager = true # \xff\n".as_slice(), &mut names);
    assert!(&rt;
        matches!(
            told,
            Err(ReadFault::Refused(zw_config::ConfigFault::NotToml))
        )
    );
    Ok(())
}
