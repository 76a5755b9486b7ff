//! A path of half a million components, and many files of one directory.
use std::alloc::{AllocError, Global};
use std::test::Fail;
use zw_path::Path;
use zw_tree::StagedTree;

fn deep_text(alloc: Global, depth: u32) -> Result<String, AllocError> {
    let mut text = String::new(alloc);
    for _ in 0..depth {
        text.push_str("a/")?;
    }
    text.push_str("x.rb")?;
    Ok(text)
}

#[test]
fn a_path_may_have_half_a_million_components(rt: HostRuntime) -> Result<(), Fail> {
    let text = deep_text(rt.alloc(), 500_000)?;
    let path = Path::parse(rt.alloc(), text.as_str())?;
    let mut tree = StagedTree::new(rt.alloc(), Vec::new(rt.alloc()));
    tree.put(path.copy(rt.alloc())?, b"x".to_vec(rt.alloc())?)?;
    assert!(rt; tree.staged().text(&path) == Some(b"x".as_slice()));
    let told = tree.mount()?.paths.len();
    assert!(rt; told == 1 && tree.mounted().text(&path) == Some(b"x".as_slice()));
    assert!(rt; !tree.admits(&path));
    tree.del(&path)?;
    assert!(rt; tree.staged().text(&path).is_none() && tree.admits(&path));
    Ok(())
}

#[test]
fn files_are_put_from_the_last_to_the_first(rt: HostRuntime) -> Result<(), Fail> {
    let mut tree = StagedTree::new(rt.alloc(), Vec::new(rt.alloc()));
    for k in 0..20_000u32 {
        let text = format!(in rt.alloc(); "m/c{:06}.rb", 20_000 - k)?;
        tree.put(
            Path::parse(rt.alloc(), text.as_str())?,
            Vec::new(rt.alloc()),
        )?;
    }
    let told = tree.mount()?.paths.len();
    assert!(rt; told == 20_000, "{told} paths");
    Ok(())
}
