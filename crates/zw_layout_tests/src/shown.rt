//! Whether files are seen, and to which roots they belong.
use crate::layout::layout;
use std::alloc::Global;
use std::process::Abort;
use std::test::Fail;
use zw_inflect::Layout;
use zw_layout::{is_collapsed, is_not_eager, is_root, is_visible, root_of};
use zw_names::Names;
use zw_path::Path;

/// A path, its root, and whether it is seen.
const FILES: &[(&str, &str, bool)] = &[
    ("m/user.rb", "m", true),
    ("m/app/concerns.rb", "m", true),
    ("m/app/concerns", "m", true),
    ("m/app/concerns/taggable.rb", "m/app/concerns", true),
    ("m/app/concerns2/x.rb", "m", true),
    ("n/a/x.rb", "n", true),
    ("n/old.rb", "n", true),
    ("n/old/x.rb", "n", false),
    ("n/a/b/old/x.rb", "n", false),
    ("m/tasks.rb", "m", true),
    ("m/tasks/clean.rb", "m", false),
    ("m/tasks/a/b.rb", "m", false),
    ("m/a_test.rb", "m", false),
    ("m", "none", false),
    ("mm/a.rb", "none", false),
    ("q/m/a.rb", "none", false),
];

fn root_text(alloc: Global, layout: &Layout, path: &Path) -> Result<String, Fail> {
    match root_of(layout, path) {
        Some(root) => Ok(root.path.text(alloc)?),
        None => Ok(String::from_str(alloc, "none")?),
    }
}

fn try_file(
    rt: &impl Abort,
    alloc: Global,
    layout: &Layout,
    row: (&str, &str, bool),
) -> Result<(), Fail> {
    let (text, root, visible) = row;
    let path = Path::parse(alloc, text)?;
    assert!(rt;
        root_text(alloc, layout, &path)?.as_str() == root,
        "the root of {text}"
    );
    assert!(rt; is_visible(alloc, layout, &path)? == visible, "at {text}");
    Ok(())
}

#[test]
fn files_belong_to_the_deepest_root(rt: HostRuntime) -> Result<(), Fail> {
    let mut names = Names::new(rt.alloc())?;
    let layout = layout(rt.alloc(), &mut names)?;
    for row in FILES {
        try_file(&rt, rt.alloc(), &layout, *row)?;
    }
    Ok(())
}

/// A path, and whether it is a root, collapsed, and left out of eager loading.
const DIRECTORIES: &[(&str, bool, bool, bool)] = &[
    ("m", true, false, false),
    ("n", true, true, false),
    ("m/app", false, false, false),
    ("m/app/concerns", true, false, false),
    ("m/booking/actions", false, true, false),
    ("m/booking/actions/x", false, false, false),
    ("m/a/shared", false, true, false),
    ("m/a/b/shared", false, false, false),
    ("inner", false, true, false),
    ("m/a/inner", false, true, false),
    ("m/lazy", false, false, true),
    ("m/lazy/a/b.rb", false, false, true),
    ("m/lazy.rb", false, false, false),
];

fn try_directory(
    rt: &impl Abort,
    alloc: Global,
    layout: &Layout,
    row: (&str, bool, bool, bool),
) -> Result<(), Fail> {
    let (text, root, collapsed, lazy) = row;
    let path = Path::parse(alloc, text)?;
    assert!(rt; is_root(layout, &path) == root, "root at {text}");
    assert!(rt;
        is_collapsed(layout, &path) == collapsed,
        "collapsed at {text}"
    );
    assert!(rt;
        is_not_eager(alloc, layout, &path)? == lazy,
        "lazy at {text}"
    );
    Ok(())
}

#[test]
fn patterns_stand_for_directories(rt: HostRuntime) -> Result<(), Fail> {
    let mut names = Names::new(rt.alloc())?;
    let layout = layout(rt.alloc(), &mut names)?;
    for row in DIRECTORIES {
        try_directory(&rt, rt.alloc(), &layout, *row)?;
    }
    Ok(())
}
