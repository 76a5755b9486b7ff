//! The visible files of a small tree.
ghost use Rattle.zw_scan.specs.ClaimSeen.{IsNamed};

use std::alloc::Global;
use std::process::Abort;
use std::test::Fail;
use zw_inflect::{Inflector, Layout, Overrides, Root};
use zw_layout::are_namespaces_named;
use zw_names::{CPath, Names};
use zw_path::{Path, Pattern};
use zw_scan::{Claim, seen_files};

/// The files of the tree, in path order.
const PATHS: &[&str] = &[
    "m/1st.rb",
    "m/a/x.rb",
    "m/b.rb",
    "m/b/c.rb",
    "n/b.rb",
    "n/integer.rb",
    "q/a.rb",
];

/// The rows: a file, and the constant path or the wrong name.
const ROWS: &[(&str, &str)] = &[
    ("m/1st.rb", "wrong 1st in m/1st.rb"),
    ("m/b.rb", "B"),
    ("m/b/c.rb", "B::C"),
    ("n/b.rb", "B"),
    ("n/integer.rb", "Integer"),
];

fn root(alloc: Global, path: &str) -> Result<Root, Fail> {
    Ok(Root {
        path: Path::parse(alloc, path)?,
        namespace: CPath::object(alloc),
    })
}

/// Roots `m` and `n`, where `m/a/**` is ignored.
fn layout(alloc: Global) -> Result<Layout, Fail> {
    let mut roots = Vec::new(alloc);
    roots.push(root(alloc, "m")?)?;
    roots.push(root(alloc, "n")?)?;
    let mut ignore = Vec::new(alloc);
    ignore.push(Pattern::parse(alloc, "m/a/**")?)?;
    Ok(Layout {
        roots,
        ignore,
        collapse: Vec::new(alloc),
        no_eager: Vec::new(alloc),
        inflector: Inflector::Default(Overrides::new(alloc)),
    })
}

fn paths(alloc: Global) -> Result<Vec<Path>, Fail> {
    let mut paths = Vec::new(alloc);
    for text in PATHS {
        paths.push(Path::parse(alloc, text)?)?;
    }
    Ok(paths)
}

fn shown(alloc: Global, names: &Names, file: &Claim) -> Result<String, Fail>
    requires { IsNamed names.now file.now }
{
    match &file.expected {
        Ok(path) => Ok(path.text(alloc, names)?),
        Err(wrong) => {
            let place = wrong.path.text(alloc)?;
            Ok(format!(in alloc; "wrong {} in {place}", wrong.name)?)
        }
    }
}

fn try_row(
    rt: &impl Abort,
    alloc: Global,
    names: &Names,
    file: &Claim,
    row: (&str, &str),
) -> Result<(), Fail>
    requires { IsNamed names.now file.now }
{
    let (path, told) = row;
    assert!(rt;
        file.path.text(alloc)?.as_str() == path,
        "in place of {path}"
    );
    assert!(rt; shown(alloc, names, file)?.as_str() == told, "at {path}");
    Ok(())
}

#[test]
fn visible_files_have_rows(rt: HostRuntime) -> Result<(), Fail> {
    let alloc = rt.alloc();
    let mut names = Names::new(alloc)?;
    let layout = layout(alloc)?;
    assert!(rt; are_namespaces_named(&layout, &names));
    let files = seen_files(alloc, &layout, &mut names, &paths(alloc)?)?;
    assert_eq!(rt; files.len(), ROWS.len());
    for place in 0..files.len() {
        try_row(&rt, alloc, &names, &files[place], ROWS[place])?;
    }
    Ok(())
}
