//! Bases, with the names that the rules give them, written by hand; a text that is no name is shown after `wrong`.
use std::alloc::Global;
use std::process::Abort;
use std::test::Fail;
use zw_inflect::{InflectFault, Inflector, Layout, Overrides, Root};
use zw_names::CPath;
use zw_path::{Path, Pattern};

const PLAIN: [(&str, &str); 68] = [
    // Parts.
    ("user", "User"),
    ("users_controller", "UsersController"),
    ("html_parser", "HtmlParser"),
    ("bar_xml", "BarXml"),
    ("booking", "Booking"),
    ("create", "Create"),
    ("my_gem", "MyGem"),
    ("a_b_c", "ABC"),
    ("version", "Version"),
    ("end", "End"),
    ("x", "X"),
    // Empty parts.
    ("", "wrong "),
    ("_", "wrong "),
    ("__", "wrong "),
    ("a__b", "AB"),
    ("_a", "A"),
    ("a_", "A"),
    ("__a__b__", "AB"),
    // Capitals.
    ("HTML", "Html"),
    ("HTML_parser", "HtmlParser"),
    ("hTML", "Html"),
    ("Foo", "Foo"),
    ("fooBar", "Foobar"),
    ("fOO_bAR", "FooBar"),
    ("_A_B", "AB"),
    ("zZ", "Zz"),
    ("ZA", "Za"),
    // Digits.
    ("a1", "A1"),
    ("a_1", "A1"),
    ("a1b", "A1b"),
    ("a_1b", "A1b"),
    ("v1_2", "V12"),
    ("1a", "wrong 1a"),
    ("1", "wrong 1"),
    ("_1", "wrong 1"),
    ("9_a", "wrong 9A"),
    // Characters that no name has.
    ("foo-bar", "wrong Foo-bar"),
    ("foo bar", "wrong Foo bar"),
    ("foo.bar", "wrong Foo.bar"),
    ("foo?", "wrong Foo?"),
    ("-", "wrong -"),
    ("@a", "wrong @a"),
    ("a\u{0}", "wrong A\u{0}"),
    ("a\u{a0}b", "wrong A\u{a0}b"),
    ("a🦀", "wrong A🦀"),
    ("a`", "wrong A`"),
    ("a{", "wrong A{"),
    ("[a", "wrong [a"),
    // Several bytes a character: letters past ASCII stay as they are, and begin no name.
    ("é", "wrong é"),
    ("aé", "Aé"),
    ("a_é", "Aé"),
    ("é_a", "wrong éA"),
    ("É", "wrong É"),
    ("aÉ", "AÉ"),
    ("aÄB", "AÄb"),
    ("äB_ö", "wrong äbö"),
    ("ß", "wrong ß"),
    ("aß", "Aß"),
    ("日本", "wrong 日本"),
    ("a日本", "A日本"),
    ("a_日_B", "A日B"),
    ("α", "wrong α"),
    ("Ａ", "wrong Ａ"),
    ("a\u{301}", "A\u{301}"),
    ("a\u{b7}", "A\u{b7}"),
    ("a\u{663}", "A\u{663}"),
    ("𐐨", "wrong 𐐨"),
    ("a𐐨", "A𐐨"),
];

// With the overrides below.
const OVERRIDDEN: [(&str, &str); 16] = [
    ("xml", "XML"),
    ("bar_xml", "BarXml"),
    ("xml_bar", "XmlBar"),
    ("xmlx", "Xmlx"),
    ("xm", "Xm"),
    ("XML", "Xml"),
    ("_xml", "Xml"),
    ("html_parser", "HTMLParser"),
    ("my_html_parser", "MyHtmlParser"),
    ("html", "Html"),
    ("parser", "Parser"),
    ("lower", "wrong lower"),
    ("étage", "wrong Étage"),
    ("étages", "wrong étages"),
    ("two words", "TwoWords"),
    ("version", "Release"),
];

// A path, its base, and its name in the gem with the main file `lib/my_gem.rb` and those overrides.
const GEM: [(&str, &str, &str); 15] = [
    ("lib/my_gem.rb", "my_gem", "MyGem"),
    ("lib/my_gem/version.rb", "version", "VERSION"),
    ("lib/my_gem/x/version.rb", "version", "Release"),
    ("lib/version.rb", "version", "Release"),
    ("my_gem/version.rb", "version", "Release"),
    ("lib/other/version.rb", "version", "Release"),
    ("lib/my_gem/my_gem/version.rb", "version", "Release"),
    ("a/lib/my_gem/version.rb", "version", "Release"),
    ("lib/my_gem.rb/version.rb", "version", "Release"),
    ("lib/my_gem/version", "version", "Release"),
    ("lib/my_gem/version.rb", "version.rb", "wrong Version.rb"),
    ("lib/my_gem/versions.rb", "versions", "Versions"),
    ("lib/my_gem/Version.rb", "Version", "Version"),
    ("lib/my_gem/xml.rb", "xml", "XML"),
    ("lib/my_gem/bar_xml.rb", "bar_xml", "BarXml"),
];

fn overrides(alloc: Global) -> Result<Overrides, Fail> {
    let mut overrides = Overrides::new(alloc);
    for (base, name) in [
        ("xml", "Xml"),
        ("html_parser", "HTMLParser"),
        ("lower", "lower"),
        ("étage", "Étage"),
        ("two words", "TwoWords"),
        ("xml", "XML"),
        ("version", "Release"),
    ] {
        overrides.insert(alloc, base, name)?;
    }
    Ok(overrides)
}

fn agrees(
    rt: &impl Abort,
    alloc: Global,
    inflector: &Inflector,
    path: &Path,
    row: (&str, &str),
) -> Result<(), Fail> {
    let (base, shown) = row;
    match inflector.camelize(alloc, base, path) {
        Ok(name) => assert!(rt; name.as_str() == shown, "{base:?} gives {name:?}"),
        Err(InflectFault::Refused(wrong)) => {
            let told = format!(in alloc; "wrong {}", wrong.0)?;
            assert!(rt; told.as_str() == shown, "{base:?} gives {told:?}");
        }
        Err(InflectFault::Memory) => return Err(std::alloc::AllocError.into()),
    }
    Ok(())
}

fn all_agree(
    rt: &impl Abort,
    alloc: Global,
    inflector: &Inflector,
    rows: &[(&str, &str)],
) -> Result<(), Fail> {
    let path = Path::parse(alloc, "m/a.rb")?;
    for row in rows {
        agrees(rt, alloc, inflector, &path, *row)?;
    }
    Ok(())
}

fn all_agree_in_gem(
    rt: &impl Abort,
    alloc: Global,
    gem: &Inflector,
    rows: &[(&str, &str, &str)],
) -> Result<(), Fail> {
    for (path, base, shown) in rows {
        let path = Path::parse(alloc, path)?;
        agrees(rt, alloc, gem, &path, (base, shown))?;
    }
    Ok(())
}

fn agrees_by_default(rt: &impl Abort, alloc: Global) -> Result<(), Fail> {
    let inflector = Inflector::Default(overrides(alloc)?);
    all_agree(rt, alloc, &inflector, &OVERRIDDEN)
}

fn agrees_in_gem(rt: &impl Abort, alloc: Global) -> Result<(), Fail> {
    let main = Path::parse(alloc, "lib/my_gem.rb")?;
    let inflector = Inflector::Gem(overrides(alloc)?, main);
    all_agree_in_gem(rt, alloc, &inflector, &GEM)
}

#[test]
fn bases_are_camelized(rt: HostRuntime) -> Result<(), Fail> {
    let plain = Inflector::Default(Overrides::new(rt.alloc()));
    all_agree(&rt, rt.alloc(), &plain, &PLAIN)?;
    agrees_by_default(&rt, rt.alloc())?;
    agrees_in_gem(&rt, rt.alloc())?;
    Ok(())
}

// ---- copies

fn roots(alloc: Global) -> Result<Vec<Root>, Fail> {
    let mut roots = Vec::new(alloc);
    roots.push(Root {
        path: Path::parse(alloc, "m")?,
        namespace: CPath::object(alloc),
    })?;
    Ok(roots)
}

fn patterns(alloc: Global) -> Result<Vec<Pattern>, Fail> {
    let mut patterns = Vec::new(alloc);
    patterns.push(Pattern::parse(alloc, "m/a/**")?)?;
    Ok(patterns)
}

fn layout(alloc: Global) -> Result<Layout, Fail> {
    Ok(Layout {
        roots: roots(alloc)?,
        ignore: patterns(alloc)?,
        collapse: Vec::new(alloc),
        no_eager: Vec::new(alloc),
        inflector: Inflector::Default(overrides(alloc)?),
    })
}

#[test]
fn a_layout_is_copied(rt: HostRuntime) -> Result<(), Fail> {
    let copy = layout(rt.alloc())?.copy(rt.alloc())?;
    assert_eq!(rt; copy.roots.len(), 1);
    assert_eq!(rt; copy.ignore.len(), 1);
    all_agree(&rt, rt.alloc(), &copy.inflector, &OVERRIDDEN)
}
