//! Paths and patterns against their rules.
use std::alloc::{AllocError, Global};
use std::process::Abort;
use std::test::Fail;
use zw_path::{BadPath, Path, PathFault, Pattern};

/// A text, and why it tells no path, where it tells none.
const TEXTS: &[(&str, Option<BadPath>)] = &[
    ("m", None),
    ("m/b/c.rb", None),
    ("a/...", None),
    (".m/.rb", None),
    ("é/x", None),
    ("a b/*", None),
    ("", Some(BadPath::Empty)),
    ("m//..", Some(BadPath::Empty)),
    ("m/", Some(BadPath::Empty)),
    ("./m", Some(BadPath::Dots)),
    ("a/..", Some(BadPath::Dots)),
    ("../\t", Some(BadPath::Dots)),
    ("/", Some(BadPath::Absolute)),
    ("/..", Some(BadPath::Absolute)),
    ("a\u{7f}b", Some(BadPath::BadChar)),
    ("a\n//", Some(BadPath::BadChar)),
    ("\u{0}", Some(BadPath::BadChar)),
];

fn repeated(alloc: Global, piece: &str, count: usize) -> Result<String, AllocError> {
    let mut text = String::new(alloc);
    for _ in 0..count {
        text.push_str(piece)?;
    }
    Ok(text)
}

#[test]
fn texts_tell_paths(rt: HostRuntime) -> Result<(), Fail> {
    for (text, bad) in TEXTS {
        let fault = Path::parse(rt.alloc(), text).err();
        assert!(rt; fault == bad.map(PathFault::Refused), "at {text:?}");
    }
    let longest = repeated(rt.alloc(), "a", 255)?;
    assert!(rt; Path::parse(rt.alloc(), &longest).is_ok());
    let longer = repeated(rt.alloc(), "a", 256)?;
    assert!(rt; Path::parse(rt.alloc(), &longer).is_err());
    Ok(())
}

/// A path, another, whether it stands below that one, whether before it, and its base name.
const PAIRS: &[(&str, &str, bool, bool, &str)] = &[
    ("m/a.rb", "m", true, false, "a"),
    ("m", "m", false, false, "m"),
    ("a/b", "a-b", false, true, "b"),
    ("m/.rb", "m/a/.rb", false, true, ""),
];

#[test]
fn paths_are_compared(rt: HostRuntime) -> Result<(), Fail> {
    for (text, other, below, before, base) in PAIRS {
        let path = Path::parse(rt.alloc(), text)?;
        let other = Path::parse(rt.alloc(), other)?;
        let order = path.cmp_components(other.components());
        let holds = path.is_below(&other) == *below && order.is_lt() == *before;
        assert!(rt;
            holds && path.precedes(&other) == *before && path.base() == *base,
            "at {text}"
        );
        let copy = path.copy(rt.alloc())?;
        assert!(rt;
            copy == path && copy.text(rt.alloc())?.as_str() == *text,
            "at {text}"
        );
    }
    Ok(())
}

/// A pattern, a path, and whether the one stands for the other.
const PATTERNS: &[(&str, &str, bool)] = &[
    ("m", "m/a", false),
    ("m/a.rb", "m/a.rb", true),
    ("m/*", "m", false),
    ("m/*", "m/a/b", false),
    ("m/*.rb", "m/.rb", true),
    ("m/*.rb", "m/arb", false),
    ("m/a*b*c", "m/axbybzc", true),
    ("m/a*b*c", "m/acb", false),
    ("a**b", "ab", true),
    ("a**b", "a/b", false),
    ("m/*é*", "m/aéb", true),
    ("m/*é", "m/è", false),
    ("**", "m/a/b", true),
    ("m/**", "m", true),
    ("m/**/a", "m/b/c/a", true),
    ("m/**/a", "m/b/c", false),
    ("**/a/**/b", "x/a/y/a/b", true),
    ("**/a/**/b", "x/b/y/a", false),
    ("m/**/x*", "m/x/y", false),
];

/// What is repeated, how often, and what follows, of a pattern and of a path for which it does not stand. A search that
/// goes back to earlier stars would not end.
const HOSTILE: &[((&str, usize, &str), (&str, usize, &str))] = &[
    (("**/*/", 30, "b"), ("a/", 200, "a")),
    (("*a", 120, "*b"), ("a", 254, "a")),
    (("**/*a*a*a*b/", 30, "b"), ("aaaaaaaaaaaaaaaa/", 200, "a")),
];

fn joined(alloc: Global, parts: &(&str, usize, &str)) -> Result<String, AllocError> {
    let mut text = repeated(alloc, parts.0, parts.1)?;
    text.push_str(parts.2)?;
    Ok(text)
}

fn try_pattern(
    rt: &impl Abort,
    alloc: Global,
    pattern: &str,
    path: &str,
    wanted: bool,
) -> Result<(), Fail> {
    let matcher = Pattern::parse(alloc, pattern)?;
    let tried = Path::parse(alloc, path)?;
    assert!(rt; matcher.matches(&tried) == wanted, "{pattern} at {path}");
    Ok(())
}

#[test]
fn patterns_stand_for_paths(rt: HostRuntime) -> Result<(), Fail> {
    for (pattern, path, wanted) in PATTERNS {
        try_pattern(&rt, rt.alloc(), pattern, path, *wanted)?;
    }
    for (pattern, path) in HOSTILE {
        let pattern = joined(rt.alloc(), pattern)?;
        let path = joined(rt.alloc(), path)?;
        try_pattern(&rt, rt.alloc(), &pattern, &path, false)?;
    }
    Ok(())
}
