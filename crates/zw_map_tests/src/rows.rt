//! Small trees and what is told of them.
ghost use Rattle.zw_scan.specs.IsScan.{IsScanNamed};

use crate::case::{Case, PLAIN, boot, layout, tree};
use crate::shown::{child_line, expected_line, key_line, shadow_line, wrong_line};
use std::alloc::Global;
use std::process::Abort;
use std::test::Fail;
use zw_inflect::Layout;
use zw_layout::are_namespaces_named;
use zw_map::{are_boot_named, expected, keys, shadows};
use zw_names::{CPath, Names};
use zw_path::Path;
use zw_scan::Scan;

const CASES: &[Case] = &[
    // A module of a file that has a directory.
    Case {
        files: &["m/hotel.rb", "m/hotel/pricing.rb"],
        map: &[
            "Hotel m/hotel.rb m/hotel",
            "Hotel::Pricing m/hotel/pricing.rb",
        ],
        children: &["Hotel m/hotel.rb | m/hotel |"],
        ..PLAIN
    },
    // A namespace of two roots that no file defines.
    Case {
        roots: &[("m", "Object"), ("n", "Object")],
        files: &["m/admin/user.rb", "n/admin/role.rb"],
        map: &[
            "Admin dir m/admin n/admin",
            "Admin::Role n/admin/role.rb",
            "Admin::User m/admin/user.rb",
        ],
        children: &["Admin | m/admin n/admin |"],
        ..PLAIN
    },
    // A file of a later root wins over a directory of an earlier one.
    Case {
        roots: &[("m", "Object"), ("n", "Object")],
        files: &["m/hotel/room.rb", "n/hotel.rb"],
        map: &["Hotel n/hotel.rb m/hotel", "Hotel::Room m/hotel/room.rb"],
        children: &["Hotel n/hotel.rb | m/hotel |"],
        ..PLAIN
    },
    // The first of two files wins, by root order before path order.
    Case {
        roots: &[("n", "Object"), ("m", "Object")],
        files: &["m/user.rb", "n/user.rb"],
        map: &["User n/user.rb"],
        shadows: &["m/user.rb by n/user.rb"],
        children: &["User n/user.rb | | m/user.rb"],
        ..PLAIN
    },
    // A nested root is no namespace of the outer one.
    Case {
        roots: &[("app/models", "Object"), ("app/models/concerns", "Object")],
        files: &["app/models/concerns/taggable.rb", "app/models/post.rb"],
        map: &[
            "Post app/models/post.rb",
            "Taggable app/models/concerns/taggable.rb",
        ],
        children: &[
            "Post app/models/post.rb | |",
            "Taggable app/models/concerns/taggable.rb | |",
        ],
        ..PLAIN
    },
    // Collapsed directories add no name, and overrides are for whole bases.
    Case {
        collapse: &["m/booking/actions"],
        inflect: &[("xml", "XML"), ("html_parser", "HTMLParser")],
        files: &[
            "m/booking/actions/create.rb",
            "m/xml.rb",
            "m/bar_xml.rb",
            "m/html_parser.rb",
        ],
        map: &[
            "BarXml m/bar_xml.rb",
            "Booking dir m/booking",
            "Booking::Create m/booking/actions/create.rb",
            "HTMLParser m/html_parser.rb",
            "XML m/xml.rb",
        ],
        children: &[
            "BarXml m/bar_xml.rb | |",
            "Booking | m/booking |",
            "HTMLParser m/html_parser.rb | |",
            "XML m/xml.rb | |",
        ],
        expect: &[
            ("m/booking/actions/create.rb", "Booking::Create"),
            ("m/xml.rb", "XML"),
            ("m/bar_xml.rb", "BarXml"),
            ("m/html_parser.rb", "HTMLParser"),
        ],
        ..PLAIN
    },
    // A wrong name has no key, and leaves the others as they are.
    Case {
        files: &["m/1st.rb", "m/admin/1st.rb", "m/admin/user.rb"],
        map: &["Admin dir m/admin", "Admin::User m/admin/user.rb"],
        children: &["Admin | m/admin |"],
        wrong: &[
            ("Object", "m/1st.rb"),
            ("Admin", "m/admin/1st.rb"),
            ("Admin::User", "none"),
        ],
        expect: &[("m/1st.rb", "wrong 1st"), ("m/admin/1st.rb", "wrong 1st")],
        ..PLAIN
    },
    // The first wrong name in root order, and then in path order, files and directories alike. A root without files is
    // not refused. What stands in a directory with a wrong name stands in no namespace.
    Case {
        roots: &[
            ("o", "Object"),
            ("n", "Object"),
            ("m", "Object"),
            ("k", "Admin"),
        ],
        collapse: &["m/admin/parts"],
        files: &[
            "k/4th.rb",
            "m/1st.rb",
            "m/admin/parts/3rd.rb",
            "m/admin/user.rb",
            "n/2nd/x.rb",
            "n/3rd.rb",
        ],
        map: &["Admin dir m/admin", "Admin::User m/admin/user.rb"],
        children: &["Admin | m/admin |"],
        wrong: &[
            ("Object", "n/2nd"),
            ("Admin", "m/admin/parts/3rd.rb"),
            ("Admin::User", "none"),
        ],
        expect: &[("n/2nd/x.rb", "wrong 2nd")],
        ..PLAIN
    },
    // The version file of a gem.
    Case {
        roots: &[("lib", "Object")],
        gem: "lib/my_gem.rb",
        files: &[
            "lib/my_gem.rb",
            "lib/my_gem/version.rb",
            "lib/my_gem/x/version.rb",
        ],
        map: &[
            "MyGem lib/my_gem.rb lib/my_gem",
            "MyGem::VERSION lib/my_gem/version.rb",
            "MyGem::X dir lib/my_gem/x",
            "MyGem::X::Version lib/my_gem/x/version.rb",
        ],
        children: &["MyGem lib/my_gem.rb | lib/my_gem |"],
        expect: &[
            ("lib/my_gem.rb", "MyGem"),
            ("lib/my_gem/version.rb", "MyGem::VERSION"),
            ("lib/my_gem/x/version.rb", "MyGem::X::Version"),
            ("lib/none.rb", "none"),
        ],
        ..PLAIN
    },
    // An ignored file shadows nothing, and what boot defines is left out, its children not.
    Case {
        roots: &[("m", "Object"), ("n", "Object")],
        ignore: &["m/a/**"],
        boot: &["Integer"],
        files: &[
            "m/a/x.rb",
            "m/b.rb",
            "n/a/x.rb",
            "n/b.rb",
            "n/integer.rb",
            "n/integer/c.rb",
        ],
        map: &[
            "A dir n/a",
            "A::X n/a/x.rb",
            "B m/b.rb",
            "Integer::C n/integer/c.rb",
        ],
        shadows: &["n/b.rb by m/b.rb", "n/integer.rb defined"],
        children: &[
            "A | n/a |",
            "B m/b.rb | | n/b.rb",
            "Integer n/integer.rb | n/integer |",
        ],
        expect: &[("m/a/x.rb", "none"), ("n/integer.rb", "Integer")],
        ..PLAIN
    },
    // A root below a namespace. A namespace precedes its children.
    Case {
        roots: &[("m", "Object"), ("n", "Admin::Api")],
        files: &["m/admin2.rb", "m/admin/b.rb", "n/a.rb"],
        map: &[
            "Admin dir m/admin",
            "Admin::Api::A n/a.rb",
            "Admin::B m/admin/b.rb",
            "Admin2 m/admin2.rb",
        ],
        children: &["Admin | m/admin |", "Admin2 m/admin2.rb | |"],
        ..PLAIN
    },
];

fn try_keys(
    rt: &impl Abort,
    alloc: Global,
    scan: &Scan,
    boot: &[(CPath, bool)],
    names: &Names,
    case: &Case,
) -> Result<(), Fail>
    requires { IsScanNamed names.now scan.now }
{
    assert!(rt; are_boot_named(boot, names));
    let rows = keys(alloc, scan, boot, names)?;
    assert_eq!(rt; rows.len(), case.map.len());
    for place in 0..rows.len() {
        let line = key_line(alloc, names, &rows[place])?;
        assert!(rt; line.as_str() == case.map[place], "{line}");
    }
    Ok(())
}

fn try_shadows(
    rt: &impl Abort,
    alloc: Global,
    scan: &Scan,
    boot: &[(CPath, bool)],
    names: &Names,
    case: &Case,
) -> Result<(), Fail>
    requires { IsScanNamed names.now scan.now }
{
    assert!(rt; are_boot_named(boot, names));
    let rows = shadows(alloc, scan, boot, names)?;
    assert_eq!(rt; rows.len(), case.shadows.len());
    for place in 0..rows.len() {
        let line = shadow_line(alloc, &rows[place])?;
        assert!(rt; line.as_str() == case.shadows[place], "{line}");
    }
    Ok(())
}

fn try_children(
    rt: &impl Abort,
    alloc: Global,
    scan: &Scan,
    names: &Names,
    case: &Case,
) -> Result<(), Fail> {
    let rows = scan.children(alloc, &CPath::object(alloc))?.rows;
    assert_eq!(rt; rows.len(), case.children.len());
    for place in 0..rows.len() {
        assert!(rt; rows[place].name.0 < names.len());
        let line = child_line(alloc, names.text(rows[place].name), &rows[place])?;
        assert!(rt; line.as_str() == case.children[place], "{line}");
    }
    Ok(())
}

fn try_wrong(
    rt: &impl Abort,
    alloc: Global,
    scan: &Scan,
    names: &mut Names,
    row: (&str, &str),
) -> Result<(), Fail> {
    let namespace = CPath::parse(alloc, names, row.0)?;
    let line = wrong_line(alloc, scan.children(alloc, &namespace)?.wrong)?;
    assert!(rt; line.as_str() == row.1, "{line}");
    Ok(())
}

fn try_expected(
    rt: &impl Abort,
    alloc: Global,
    layout: &Layout,
    scan: &Scan,
    names: &mut Names,
    row: (&str, &str),
) -> Result<(), Fail> {
    let path = Path::parse(alloc, row.0)?;
    assert!(rt; are_namespaces_named(layout, names));
    let answer = expected(alloc, layout, scan, &path, names);
    let line = expected_line(alloc, names, answer)?;
    assert!(rt; line.as_str() == row.1, "{line}");
    Ok(())
}

fn try_case(rt: &impl Abort, alloc: Global, case: &Case) -> Result<(), Fail> {
    let mut names = Names::new(alloc)?;
    let layout = layout(alloc, &mut names, case)?;
    let boot = boot(alloc, &mut names, case)?;
    let tree = tree(alloc, case.files)?;
    assert!(rt; are_namespaces_named(&layout, &names));
    let scan = Scan::mount(alloc, &layout, tree.staged(), &mut names)?;
    try_keys(rt, alloc, &scan, &boot, &names, case)?;
    try_shadows(rt, alloc, &scan, &boot, &names, case)?;
    try_children(rt, alloc, &scan, &names, case)?;
    for row in case.wrong {
        try_wrong(rt, alloc, &scan, &mut names, *row)?;
    }
    for row in case.expect {
        try_expected(rt, alloc, &layout, &scan, &mut names, *row)?;
    }
    Ok(())
}

#[test]
fn small_trees_have_their_maps(rt: HostRuntime) -> Result<(), Fail> {
    for case in CASES {
        try_case(&rt, rt.alloc(), case)?;
    }
    Ok(())
}

#[test]
fn visible_files_are_told(rt: HostRuntime) -> Result<(), Fail> {
    let alloc = rt.alloc();
    let mut names = Names::new(alloc)?;
    let layout = layout(alloc, &mut names, &PLAIN)?;
    let tree = tree(alloc, &["m/a/b.rb", "n/b.rb"])?;
    assert!(&rt; are_namespaces_named(&layout, &names));
    let scan = Scan::mount(alloc, &layout, tree.staged(), &mut names)?;
    assert!(&rt; scan.visible(&Path::parse(alloc, "m/a/b.rb")?));
    assert!(&rt; !scan.visible(&Path::parse(alloc, "m/a")?));
    assert!(&rt; !scan.visible(&Path::parse(alloc, "n/b.rb")?));
    Ok(())
}

/// Directories, and how many visible files stand below each in the tree of the test below.
const COUNTS: &[(&str, usize)] = &[
    ("m", 3),
    ("m/a", 2),
    ("m/a/c", 1),
    ("m/a/c/d.rb", 0),
    ("m/e", 0),
    ("m/g", 0),
    ("n", 0),
];

#[test]
fn files_below_a_directory_are_counted(rt: HostRuntime) -> Result<(), Fail> {
    let alloc = rt.alloc();
    let mut names = Names::new(alloc)?;
    let layout = layout(
        alloc,
        &mut names,
        &Case {
            ignore: &["m/g"],
            ..PLAIN
        },
    )?;
    let files = ["m/a/b.rb", "m/a/c/d.rb", "m/e.rb", "m/g/h.rb", "n/f.rb"];
    let tree = tree(alloc, &files)?;
    assert!(&rt; are_namespaces_named(&layout, &names));
    let scan = Scan::mount(alloc, &layout, tree.staged(), &mut names)?;
    for (text, count) in COUNTS {
        let directory = Path::parse(alloc, text)?;
        assert!(&rt; scan.files_below(&directory) == *count, "at {text}");
    }
    Ok(())
}
