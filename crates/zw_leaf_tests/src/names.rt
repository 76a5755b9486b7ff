//! Names and paths against their texts.
use std::alloc::Global;
use std::process::Abort;
use std::test::Fail;
use zw_names::{BadCPath, CPath, CPathFault, Name, Names, is_cpath};

#[test]
fn equal_texts_have_equal_names(rt: HostRuntime) -> Result<(), Fail> {
    let mut names = Names::new(rt.alloc())?;
    for (text, number) in [("a", 0), ("b", 1), ("a", 0), ("", 2), ("b", 1)] {
        let name = names.intern(text)?;
        let found = names.find(text) == Some(name) && names.text(name) == text;
        assert!(rt; found && name == Name(number), "at {text}");
    }
    assert!(rt; names.find("c").is_none() && names.copy()?.len() == 3);
    Ok(())
}

/// A text, and how many names the path has that it tells.
const PATHS: &[(&str, Option<usize>)] = &[
    ("A", Some(1)),
    ("Object", Some(0)),
    ("Object::A", Some(2)),
    ("A::B::C", Some(3)),
    ("Aé::A1_", Some(2)),
    ("", None),
    ("a", None),
    ("A::", None),
    ("::A", None),
    ("A:B", None),
    ("A:::B", None),
    ("A::b", None),
    ("Ä", None),
    ("A B", None),
];

fn try_path(
    rt: &impl Abort,
    alloc: Global,
    names: &mut Names,
    text: &str,
    length: Option<usize>,
) -> Result<(), Fail> {
    assert!(rt; is_cpath(text) == length.is_some(), "at {text}");
    match CPath::parse(alloc, names, text) {
        Ok(path) => {
            assert!(rt; Some(path.names().len()) == length, "at {text}");
            assert!(rt; path.text(alloc, names)?.as_str() == text, "at {text}");
        }
        Err(fault) => {
            let refused = CPathFault::Refused(BadCPath::NotAConstant);
            assert!(rt; fault == refused && length.is_none(), "at {text}");
        }
    }
    Ok(())
}

#[test]
fn paths_are_read_and_written(rt: HostRuntime) -> Result<(), Fail> {
    let mut names = Names::new(rt.alloc())?;
    for (text, length) in PATHS {
        try_path(&rt, rt.alloc(), &mut names, text, *length)?;
    }
    let child = CPath::object(rt.alloc()).child(rt.alloc(), Name(5))?;
    let grandchild = child.copy(rt.alloc())?.child(rt.alloc(), Name(2))?;
    let parent = grandchild.parent(rt.alloc())?;
    assert!(rt; parent.is_some_and(|path| path.names() == [Name(5)].as_slice()));
    Ok(())
}
