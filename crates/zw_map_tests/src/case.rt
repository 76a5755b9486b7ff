//! A tree and a layout, and what is told of them.
use std::alloc::{AllocError, Global};
use std::test::Fail;
use zw_inflect::{Inflector, Layout, Overrides, Root};
use zw_names::{CPath, Names};
use zw_path::{Path, Pattern};
use zw_tree::StagedTree;

/// A tree and a layout, and the lines that are wanted. A root is a path and a namespace.
#[derive(Clone, Copy)]
pub(crate) struct Case {
    pub(crate) roots: &'static [(&'static str, &'static str)],
    pub(crate) ignore: &'static [&'static str],
    pub(crate) collapse: &'static [&'static str],
    pub(crate) inflect: &'static [(&'static str, &'static str)],
    /// The main file of a gem, or nothing.
    pub(crate) gem: &'static str,
    pub(crate) files: &'static [&'static str],
    /// Modules of boot.
    pub(crate) boot: &'static [&'static str],
    /// A key, its file or `dir`, and its directories.
    pub(crate) map: &'static [&'static str],
    pub(crate) shadows: &'static [&'static str],
    /// The children of `Object`.
    pub(crate) children: &'static [&'static str],
    /// Namespaces, and the path up to the first wrong name directly below each.
    pub(crate) wrong: &'static [(&'static str, &'static str)],
    /// Paths, and what a file there is expected to define.
    pub(crate) expect: &'static [(&'static str, &'static str)],
}

/// One root and nothing else.
pub(crate) const PLAIN: Case = Case {
    roots: &[("m", "Object")],
    ignore: &[],
    collapse: &[],
    inflect: &[],
    gem: "",
    files: &[],
    boot: &[],
    map: &[],
    shadows: &[],
    children: &[],
    wrong: &[],
    expect: &[],
};

fn roots(alloc: Global, names: &mut Names, case: &Case) -> Result<Vec<Root>, Fail> {
    let mut roots = Vec::new(alloc);
    for (path, namespace) in case.roots {
        roots.push(Root {
            path: Path::parse(alloc, path)?,
            namespace: CPath::parse(alloc, names, namespace)?,
        })?;
    }
    Ok(roots)
}

fn patterns(alloc: Global, texts: &[&str]) -> Result<Vec<Pattern>, Fail> {
    let mut patterns = Vec::new(alloc);
    for text in texts {
        patterns.push(Pattern::parse(alloc, text)?)?;
    }
    Ok(patterns)
}

fn overrides(alloc: Global, case: &Case) -> Result<Overrides, AllocError> {
    let mut overrides = Overrides::new(alloc);
    for (base, name) in case.inflect {
        overrides.insert(alloc, base, name)?;
    }
    Ok(overrides)
}

fn inflector(alloc: Global, case: &Case) -> Result<Inflector, Fail> {
    let overrides = overrides(alloc, case)?;
    if case.gem.is_empty() {
        Ok(Inflector::Default(overrides))
    } else {
        Ok(Inflector::Gem(overrides, Path::parse(alloc, case.gem)?))
    }
}

pub(crate) fn layout(alloc: Global, names: &mut Names, case: &Case) -> Result<Layout, Fail> {
    Ok(Layout {
        roots: roots(alloc, names, case)?,
        ignore: patterns(alloc, case.ignore)?,
        collapse: patterns(alloc, case.collapse)?,
        no_eager: Vec::new(alloc),
        inflector: inflector(alloc, case)?,
    })
}

/// A tree with these files, each of no bytes, put in this order.
pub(crate) fn tree(alloc: Global, files: &[&str]) -> Result<StagedTree, Fail> {
    let mut tree = StagedTree::new(alloc, Vec::new(alloc));
    for file in files {
        tree.put(Path::parse(alloc, file)?, Vec::new(alloc))?;
    }
    Ok(tree)
}

/// The paths of the modules of boot.
pub(crate) fn boot(
    alloc: Global,
    names: &mut Names,
    case: &Case,
) -> Result<Vec<(CPath, bool)>, Fail> {
    let mut boot = Vec::new(alloc);
    for text in case.boot {
        boot.push((CPath::parse(alloc, names, text)?, true))?;
    }
    Ok(boot)
}
