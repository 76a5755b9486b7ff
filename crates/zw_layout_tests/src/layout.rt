//! The layout of the tests: three roots, one of them nested, and patterns of each kind.
use std::alloc::Global;
use std::test::Fail;
use zw_inflect::{Inflector, Layout, Overrides, Root};
use zw_names::{CPath, Names};
use zw_path::{Path, Pattern};

/// The directories and namespaces of the roots.
const ROOTS: &[(&str, &str)] = &[
    ("m", "Object"),
    ("m/app/concerns", "Object"),
    ("n", "Admin::Api"),
];

const IGNORE: &[&str] = &["m/tasks", "**/*_test.rb", "n/**/old"];

const COLLAPSE: &[&str] = &[
    "m/booking/actions",
    "m/*/shared",
    "**/inner",
    "m/flat.rb",
    "n",
];

const NO_EAGER: &[&str] = &["m/lazy"];

fn roots(alloc: Global, names: &mut Names) -> Result<Vec<Root>, Fail> {
    let mut roots = Vec::new(alloc);
    for (path, namespace) in ROOTS {
        roots.push(Root {
            path: Path::parse(alloc, path)?,
            namespace: CPath::parse(alloc, names, namespace)?,
        })?;
    }
    Ok(roots)
}

fn patterns(alloc: Global, texts: &[&str]) -> Result<Vec<Pattern>, Fail> {
    let mut patterns = Vec::new(alloc);
    for text in texts {
        patterns.push(Pattern::parse(alloc, text)?)?;
    }
    Ok(patterns)
}

fn inflector(alloc: Global) -> Result<Inflector, Fail> {
    let mut overrides = Overrides::new(alloc);
    overrides.insert(alloc, "xml", "XML")?;
    Ok(Inflector::Default(overrides))
}

pub(crate) fn layout(alloc: Global, names: &mut Names) -> Result<Layout, Fail> {
    Ok(Layout {
        roots: roots(alloc, names)?,
        ignore: patterns(alloc, IGNORE)?,
        collapse: patterns(alloc, COLLAPSE)?,
        no_eager: patterns(alloc, NO_EAGER)?,
        inflector: inflector(alloc)?,
    })
}
