//! How deep forms may stand in one another: at most 250 brackets are open, and no node is higher than 100.
use super::read;
use std::alloc::{AllocError, Global};
use std::process::Abort;
use std::test::Fail;

// The front so many times, the middle, and the back as often.
fn nested(
    alloc: Global,
    front: &str,
    middle: &str,
    back: &str,
    count: usize,
) -> Result<String, AllocError> {
    let mut text = front.repeat(alloc, count)?;
    text.push_str(middle)?;
    text.push_str(&back.repeat(alloc, count)?)?;
    Ok(text)
}

// Asserts that a text nested so deep is a program, and one deeper is malformed.
fn deepest(
    rt: &impl Abort,
    alloc: Global,
    parts: (&str, &str, &str),
    count: usize,
) -> Result<(), AllocError> {
    let text = nested(alloc, parts.0, parts.1, parts.2, count)?;
    let shown = read(alloc, "", &text)?;
    assert!(rt;
        shown.as_str().starts_with("1:"),
        "{count} times {}",
        parts.0
    );
    let deeper = nested(alloc, parts.0, parts.1, parts.2, count.saturating_add(1))?;
    let shown = read(alloc, "", &deeper)?;
    assert!(rt;
        shown.as_str() == "reason 9 line 1",
        "one more of {}",
        parts.0
    );
    Ok(())
}

#[test]
fn brackets_end_at_250(rt: HostRuntime) -> Result<(), Fail> {
    deepest(&rt, rt.alloc(), ("(", "1", ")"), 250)?;
    Ok(())
}

#[test]
fn nodes_end_at_height_100(rt: HostRuntime) -> Result<(), Fail> {
    let alloc = rt.alloc();
    deepest(&rt, alloc, ("!", "1", ""), 99)?;
    deepest(&rt, alloc, ("- ", "a", ""), 99)?;
    deepest(&rt, alloc, ("not ", "1", ""), 99)?;
    deepest(&rt, alloc, ("[", "1", "]"), 99)?;
    deepest(&rt, alloc, ("a = ", "1", ""), 99)?;
    deepest(&rt, alloc, ("f(", "1", ")"), 99)?;
    deepest(&rt, alloc, ("\"#{", "1", "}\""), 99)?;
    deepest(&rt, alloc, ("if 1 then ", "1", " end"), 99)?;
    deepest(&rt, alloc, ("class A;", "1", ";end"), 99)?;
    deepest(&rt, alloc, ("1 ? 1 : ", "1", ""), 99)?;
    Ok(())
}

// Asserts that a text is malformed.
fn is_malformed(rt: &impl Abort, alloc: Global, text: &str) -> Result<(), AllocError> {
    let shown = read(alloc, "", text)?;
    assert!(rt; shown.as_str() == "reason 9 line 1");
    Ok(())
}

// 250 brackets round a node that is 100 high: no text that is read goes deeper.
#[test]
fn the_deepest_texts_are_read(rt: HostRuntime) -> Result<(), Fail> {
    let alloc = rt.alloc();
    let inversions = nested(alloc, "!", "1", "", 99)?;
    deepest(&rt, alloc, ("(", &inversions, ")"), 250)?;
    let assignments = nested(alloc, "a = ", "1", "", 99)?;
    deepest(&rt, alloc, ("(", &assignments, ")"), 250)?;
    let calls = nested(alloc, "f(", "(", ")", 99)?;
    is_malformed(&rt, alloc, &calls)?;
    Ok(())
}

// Texts that are refused only when all of them has been gone into.
#[test]
fn texts_past_every_depth_are_refused(rt: HostRuntime) -> Result<(), Fail> {
    let alloc = rt.alloc();
    is_malformed(&rt, alloc, &nested(alloc, "if 1 then ", "1", " end", 1000)?)?;
    is_malformed(&rt, alloc, &nested(alloc, "begin;", "1", ";end", 1000)?)?;
    is_malformed(&rt, alloc, &nested(alloc, "class A;", "1", ";end", 1000)?)?;
    is_malformed(
        &rt,
        alloc,
        &nested(alloc, "while 1 do ", "1", " end", 1000)?,
    )?;
    is_malformed(&rt, alloc, &nested(alloc, "!", "1", "", 100_000)?)?;
    is_malformed(&rt, alloc, &nested(alloc, "not ", "1", "", 100_000)?)?;
    is_malformed(&rt, alloc, &nested(alloc, "1 ? ", "1", " : 1", 1000)?)?;
    is_malformed(&rt, alloc, &nested(alloc, "[", "1", "]", 1000)?)?;
    Ok(())
}
