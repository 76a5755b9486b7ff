//! The paths of all files, in path order.
use std::alloc::Global;
use std::process::Abort;
use std::test::Fail;
use zw_path::Path;
use zw_tree::StagedTree;

/// The files in the order in which they are put.
const FILES: &[&str] = &[
    "m/b.rb",
    "m/a/c.rb",
    "n.rb",
    "m/a.rb",
    "a.rb",
    "m/a/b/d.rb",
    "m/x/y/z.rb",
];

/// The same in path order, a directory's before what stands after its name.
const PATHS: &[&str] = &["a.rb", "m/a/b/d.rb", "m/a/c.rb", "m/a.rb", "m/b.rb", "n.rb"];

fn new_tree(alloc: Global) -> Result<StagedTree, Fail> {
    let mut tree = StagedTree::new(alloc, Vec::new(alloc));
    for file in FILES {
        tree.put(Path::parse(alloc, file)?, Vec::new(alloc))?;
    }
    Ok(tree)
}

fn try_path(rt: &impl Abort, alloc: Global, path: &Path, wanted: &str) -> Result<(), Fail> {
    let text = path.text(alloc)?;
    assert!(rt; text.as_str() == wanted, "{text}");
    Ok(())
}

#[test]
fn paths_are_told_in_path_order(rt: HostRuntime) -> Result<(), Fail> {
    let alloc = rt.alloc();
    let mut tree = new_tree(alloc)?;
    tree.del(&Path::parse(alloc, "m/x/y/z.rb")?)?;
    let paths = tree.staged().paths(alloc)?;
    assert_eq!(&rt; paths.len(), PATHS.len());
    for place in 0..paths.len() {
        try_path(&rt, alloc, &paths[place], PATHS[place])?;
    }
    assert!(&rt; tree.mounted().paths(alloc)?.is_empty());
    Ok(())
}
