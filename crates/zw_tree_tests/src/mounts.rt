//! Mounts, and what a walk over the mounted tree finds.
use std::alloc::Global;
use std::process::Abort;
use std::test::Fail;
use zw_path::Path;
use zw_tree::StagedTree;

fn put(alloc: Global, tree: &mut StagedTree, text: &str) -> Result<(), Fail> {
    tree.put(Path::parse(alloc, text)?, text.as_bytes().to_vec(alloc)?)?;
    Ok(())
}

fn del(alloc: Global, tree: &mut StagedTree, text: &str) -> Result<(), Fail> {
    tree.del(&Path::parse(alloc, text)?)?;
    Ok(())
}

/// The paths that a mount tells.
fn try_mount(
    rt: &impl Abort,
    alloc: Global,
    tree: &mut StagedTree,
    expected: &[&str],
) -> Result<(), Fail> {
    let touched = tree.mount()?;
    assert!(rt;
        touched.paths.len() == expected.len(),
        "{} paths",
        touched.paths.len()
    );
    for (path, text) in touched.paths.iter().zip(expected) {
        assert!(rt; path.text(alloc)?.as_str() == *text, "at {text}");
    }
    Ok(())
}

/// What stands at the path in the mounted tree.
fn try_text(
    rt: &impl Abort,
    alloc: Global,
    tree: &StagedTree,
    text: &str,
    is_there: bool,
) -> Result<(), Fail> {
    let path = Path::parse(alloc, text)?;
    let found = tree.mounted().text(&path);
    let expected = if is_there {
        Some(text.as_bytes())
    } else {
        None
    };
    assert!(rt; found == expected, "at {text}");
    Ok(())
}

#[test]
fn a_mount_carries_the_edits_over(rt: HostRuntime) -> Result<(), Fail> {
    let mut tree = StagedTree::new(rt.alloc(), Vec::new(rt.alloc()));
    for text in ["m/d/c.rb", "m/b.rb", "m/a.rb", "m/b.rb"] {
        put(rt.alloc(), &mut tree, text)?;
    }
    try_text(&rt, rt.alloc(), &tree, "m/a.rb", false)?;
    try_mount(
        &rt,
        rt.alloc(),
        &mut tree,
        &["m/a.rb", "m/b.rb", "m/d/c.rb"],
    )?;
    try_mount(&rt, rt.alloc(), &mut tree, &[])?;
    del(rt.alloc(), &mut tree, "m/d/c.rb")?;
    del(rt.alloc(), &mut tree, "m/b.rb")?;
    put(rt.alloc(), &mut tree, "m/b.rb/d.rb")?;
    try_text(&rt, rt.alloc(), &tree, "m/b.rb", true)?;
    try_mount(
        &rt,
        rt.alloc(),
        &mut tree,
        &["m/b.rb", "m/b.rb/d.rb", "m/d/c.rb"],
    )?;
    for (text, is_there) in [
        ("m/a.rb", true),
        ("m/b.rb", false),
        ("m/b.rb/d.rb", true),
        ("m/d/c.rb", false),
    ] {
        try_text(&rt, rt.alloc(), &tree, text, is_there)?;
    }
    Ok(())
}
