//! Edits and why they are refused.
use std::alloc::Global;
use std::process::Abort;
use std::test::Fail;
use zw_path::Path;
use zw_tree::{EditFault, StagedTree, TreeFault};

/// A put or a deletion.
#[derive(Clone, Copy)]
enum Kind {
    Put,
    Del,
}

/// The edits one after another, and why each is refused.
const EDITS: &[(Kind, &str, Option<TreeFault>)] = &[
    (Kind::Put, "m/user.rb", None),
    (Kind::Put, "m/user.rb", None),
    (Kind::Put, "zw.rb", Some(TreeFault::Fixed)),
    (Kind::Put, "zw.txt", Some(TreeFault::Fixed)),
    (Kind::Del, "zw.txt", Some(TreeFault::Fixed)),
    (Kind::Put, "m/user.txt", Some(TreeFault::NotRuby)),
    (Kind::Put, "m/.a.rb", Some(TreeFault::NotRuby)),
    (Kind::Put, ".m/a.rb", Some(TreeFault::NotRuby)),
    (Kind::Put, "m/user.rb/.a.rb", Some(TreeFault::NotRuby)),
    (Kind::Put, "m/user.rb/a.rb", Some(TreeFault::InTheWay)),
    (Kind::Put, "m/d.rb/a.rb", None),
    (Kind::Put, "m/d.rb", Some(TreeFault::InTheWay)),
    (Kind::Del, "m/d.rb", Some(TreeFault::Missing)),
    (Kind::Del, "m/other.rb", Some(TreeFault::Missing)),
    (Kind::Del, "m/user.txt", Some(TreeFault::NotRuby)),
    (Kind::Del, "m/d.rb/a.rb", None),
    (Kind::Put, "m/d.rb", None),
    (Kind::Del, "m/user.rb", None),
    (Kind::Del, "m/user.rb", Some(TreeFault::Missing)),
    (Kind::Put, "m/user.rb/a.rb", None),
];

fn new_tree(alloc: Global) -> Result<StagedTree, Fail> {
    let mut fixed = Vec::new(alloc);
    fixed.push(Path::parse(alloc, "zw.rb")?)?;
    fixed.push(Path::parse(alloc, "zw.txt")?)?;
    Ok(StagedTree::new(alloc, fixed))
}

fn edit(alloc: Global, tree: &mut StagedTree, kind: Kind, text: &str) -> Result<(), EditFault> {
    let Ok(path) = Path::parse(alloc, text) else {
        return Err(EditFault::Memory);
    };
    match kind {
        Kind::Put => tree.put(path, text.as_bytes().to_vec(alloc)?),
        Kind::Del => tree.del(&path),
    }
}

fn try_edit(
    rt: &impl Abort,
    alloc: Global,
    tree: &mut StagedTree,
    row: &(Kind, &str, Option<TreeFault>),
) -> Result<(), Fail> {
    match (edit(alloc, tree, row.0, row.1), row.2) {
        (Ok(()), None) => Ok(()),
        (Err(EditFault::Refused(fault)), Some(expected)) => {
            assert!(rt; fault == expected, "at {}", row.1);
            Ok(())
        }
        _ => {
            assert!(rt; false, "at {}", row.1);
            Ok(())
        }
    }
}

#[test]
fn edits_are_refused_for_the_first_reason(rt: HostRuntime) -> Result<(), Fail> {
    let mut tree = new_tree(rt.alloc())?;
    for row in EDITS {
        try_edit(&rt, rt.alloc(), &mut tree, row)?;
    }
    Ok(())
}

/// The size of a file, and whether it is put.
const SIZES: &[(usize, bool)] = &[(0, true), (1_048_576, true), (1_048_577, false)];

fn try_size(rt: &impl Abort, alloc: Global, row: &(usize, bool)) -> Result<(), Fail> {
    let mut tree = new_tree(alloc)?;
    let bytes = Vec::from_elem(alloc, b'x', row.0)?;
    match tree.put(Path::parse(alloc, "m/a.rb")?, bytes) {
        Ok(()) => assert!(rt; row.1, "at {}", row.0),
        Err(fault) => {
            let is_large = matches!(fault, EditFault::Refused(TreeFault::TooLarge));
            assert!(rt; is_large && !row.1, "at {}", row.0)
        }
    }
    Ok(())
}

#[test]
fn a_file_has_a_mebibyte_at_most(rt: HostRuntime) -> Result<(), Fail> {
    for row in SIZES {
        try_size(&rt, rt.alloc(), row)?;
    }
    Ok(())
}

/// A listed path, and whether it is taken where the tree has m/a.rb and m/d.rb/b.rb.
const LISTED: &[(&str, bool)] = &[
    ("m/b.rb", true),
    ("m/a.rb", false),
    ("m/a.rb/c.rb", false),
    ("m/d.rb", false),
    ("m/d.rb/c.rb", true),
    ("m/d.rb/b.rb/c.rb", false),
    ("zw.rb", false),
    ("zw.rb/a.rb", true),
    ("m/.b.rb", false),
    (".m/b.rb", false),
    ("m/b.txt", false),
];

#[test]
fn listed_paths_are_taken(rt: HostRuntime) -> Result<(), Fail> {
    let mut tree = new_tree(rt.alloc())?;
    for text in ["m/a.rb", "m/d.rb/b.rb"] {
        try_edit(&rt, rt.alloc(), &mut tree, &(Kind::Put, text, None))?;
    }
    for (text, is_taken) in LISTED {
        let path = Path::parse(rt.alloc(), text)?;
        assert!(rt; tree.admits(&path) == *is_taken, "at {text}");
    }
    Ok(())
}
