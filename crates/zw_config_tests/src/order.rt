//! Neighbouring refusals, in both orders of the text.
use crate::refused::refusal;
use std::alloc::Global;
use std::process::Abort;
use std::test::Fail;

/// A line that is refused, and the refusal, in the order in which they are tested.
type Row = (&'static str, &'static str);

const KEYS: [Row; 11] = [
    ("zz = 1", "unknown key zz"),
    ("root = 1", "wrong kind root"),
    ("ignore = 1", "wrong kind ignore"),
    ("collapse = 1", "wrong kind collapse"),
    ("no_eager = 1", "wrong kind no_eager"),
    ("inflect = 1", "wrong kind inflect"),
    ("gem = 1", "wrong kind gem"),
    ("reloading = 1", "wrong kind reloading"),
    ("eager = 1", "wrong kind eager"),
    ("boot = 1", "wrong kind boot"),
    ("callback = 1", "wrong kind callback"),
];

const ROOT_KEYS: [Row; 3] = [
    ("zz = 1", "unknown key root.zz"),
    ("path = 1", "wrong kind root.path"),
    ("namespace = 1", "wrong kind root.namespace"),
];

const CALLBACK_KEYS: [Row; 3] = [
    ("zz = 1", "unknown key callback.zz"),
    ("on = 1", "wrong kind callback.on"),
    ("target = 1", "wrong kind callback.target"),
];

/// Those that are read once it is known when the callback runs.
const LATER_KEYS: [Row; 2] = [
    ("target = 1", "wrong kind callback.target"),
    ("run = 1", "wrong kind callback.run"),
];

/// The last refusals of keys that have several.
const LAST: [Row; 8] = [
    (
        "root = [{path = \"m\", namespace = \"a\"}]",
        "bad constant path root.namespace",
    ),
    ("ignore = [\"..\"]", "bad path ignore"),
    ("collapse = [\"..\"]", "bad path collapse"),
    ("no_eager = [\"..\"]", "bad path no_eager"),
    ("inflect = {a = \"b\"}", "wrong kind inflect"),
    ("gem = \"a\"", "bad path gem"),
    ("boot = \"..\"", "bad path boot"),
    (
        "callback = [{on = \"load\", run = \"1 +\"}]",
        "bad Ruby callback.run",
    ),
];

const ROOT: [Row; 3] = [
    ("3", "wrong kind root"),
    ("{zz = 1}", "unknown key root.zz"),
    ("{path = 1}", "wrong kind root.path"),
];

/// Behind a root `m`.
const LATER_ROOT: [Row; 5] = [
    ("{path = 1}", "wrong kind root.path"),
    ("{path = \"..\"}", "bad path root.path"),
    ("{path = \"m\"}", "double root m"),
    ("{path = \"n\", namespace = 1}", "wrong kind root.namespace"),
    (
        "{path = \"o\", namespace = \"a\"}",
        "bad constant path root.namespace",
    ),
];

const CALLBACK: [Row; 7] = [
    ("3", "wrong kind callback"),
    ("{zz = 1}", "unknown key callback.zz"),
    ("{on = 1}", "wrong kind callback.on"),
    ("{on = \"load\", target = 1}", "wrong kind callback.target"),
    (
        "{on = \"load\", target = \"a\"}",
        "bad constant path callback.target",
    ),
    ("{on = \"load\", run = 1}", "wrong kind callback.run"),
    ("{on = \"load\", run = \"1 +\"}", "bad Ruby callback.run"),
];

fn try_pair(
    rt: &impl Abort,
    alloc: Global,
    front: &str,
    first: &str,
    between: &str,
    second: &str,
    back: &str,
    wanted: &str,
) -> Result<(), Fail> {
    let text = format!(in alloc; "{front}{first}{between}{second}{back}")?;
    let told = refusal(alloc, &text)?;
    assert!(rt; told.as_str() == wanted, "{text}: {told}");
    Ok(())
}

fn try_rows(
    rt: &impl Abort,
    alloc: Global,
    front: &str,
    rows: &[Row],
    between: &str,
    back: &str,
) -> Result<(), Fail> {
    for pair in rows.windows(2) {
        let (first, wanted) = pair[0];
        let (second, _) = pair[1];
        try_pair(rt, alloc, front, first, between, second, back, wanted)?;
        try_pair(rt, alloc, front, second, between, first, back, wanted)?;
    }
    Ok(())
}

#[test]
fn keys_are_tested_in_their_order(rt: HostRuntime) -> Result<(), Fail> {
    try_rows(&rt, rt.alloc(), "", &KEYS, "\n", "\n")?;
    try_rows(&rt, rt.alloc(), "", &LAST, "\n", "\n")
}

#[test]
fn keys_of_elements_are_tested_in_their_order(rt: HostRuntime) -> Result<(), Fail> {
    try_rows(&rt, rt.alloc(), "root = [{", &ROOT_KEYS, ", ", "}]\n")?;
    try_rows(
        &rt,
        rt.alloc(),
        "callback = [{",
        &CALLBACK_KEYS,
        ", ",
        "}]\n",
    )?;
    let front = "callback = [{on = \"load\", ";
    try_rows(&rt, rt.alloc(), front, &LATER_KEYS, ", ", "}]\n")
}

// The element that stands first in the text decides, whatever it is refused for.
fn try_elements(rt: &impl Abort, alloc: Global, front: &str, rows: &[Row]) -> Result<(), Fail> {
    for pair in rows.windows(2) {
        let (first, wanted) = pair[0];
        let (second, other) = pair[1];
        try_pair(rt, alloc, front, first, ", ", second, "]\n", wanted)?;
        try_pair(rt, alloc, front, second, ", ", first, "]\n", other)?;
    }
    Ok(())
}

#[test]
fn elements_are_tested_in_their_order(rt: HostRuntime) -> Result<(), Fail> {
    try_elements(&rt, rt.alloc(), "root = [", &ROOT)?;
    let front = "root = [{path = \"m\"}, ";
    try_elements(&rt, rt.alloc(), front, &LATER_ROOT)?;
    try_elements(&rt, rt.alloc(), "callback = [", &CALLBACK)?;
    let patterns = [
        (
            "ignore = [",
            ("1", "wrong kind ignore"),
            ("\"..\"", "bad path ignore"),
        ),
        (
            "collapse = [",
            ("1", "wrong kind collapse"),
            ("\"..\"", "bad path collapse"),
        ),
        (
            "no_eager = [",
            ("1", "wrong kind no_eager"),
            ("\"..\"", "bad path no_eager"),
        ),
    ];
    for (front, first, second) in patterns {
        try_elements(&rt, rt.alloc(), front, &[first, second])?;
    }
    Ok(())
}
