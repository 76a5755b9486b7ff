//! Whole sessions over layouts: what files are expected to define, maps and shadowed files.
use std::alloc::Global;
use std::process::Abort;
use std::test::Fail;
use zw_io::{MemFolder, MemSink, MemSource};
use zw_top::{Status, run};

/// A configuration, the paths of a tree, a stream and what it writes.
type Row = (
    &'static str,
    &'static [&'static str],
    &'static str,
    &'static str,
);

const ROWS: &[Row] = &[
    // A collapsed directory, and the inflector's own names.
    (
        "collapse = [\"m/booking/actions\"]\n[inflect]\nxml = \"XML\"\nhtml_parser = \"HTMLParser\"\n\
         [[root]]\npath = \"m\"\n",
        &[
            "m/booking/actions/create.rb",
            "m/xml.rb",
            "m/bar_xml.rb",
            "m/html_parser.rb",
        ],
        "expect m/booking/actions/create.rb\nexpect m/xml.rb\nexpect m/bar_xml.rb\nexpect m/html_parser.rb\n",
        "- Booking::Create\n- XML\n- BarXml\n- HTMLParser\n",
    ),
    // The inflector of a gem.
    (
        "gem = \"lib/my_gem.rb\"\n[[root]]\npath = \"lib\"\n",
        &[
            "lib/my_gem.rb",
            "lib/my_gem/version.rb",
            "lib/my_gem/x/version.rb",
        ],
        "expect lib/my_gem.rb\nexpect lib/my_gem/version.rb\nexpect lib/my_gem/x/version.rb\nexpect lib/none.rb\n",
        "- MyGem\n- MyGem::VERSION\n- MyGem::X::Version\n- none\n",
    ),
    // The same constant from two roots.
    (
        "[[root]]\npath = \"m\"\n[[root]]\npath = \"n\"\n",
        &["m/user.rb", "n/user.rb"],
        "shadows\n",
        "- n/user.rb shadowed by m/user.rb\n",
    ),
    // A namespace whose file lies below a later root than its directory.
    (
        "[[root]]\npath = \"m\"\n[[root]]\npath = \"n\"\n",
        &["m/hotel/room.rb", "n/hotel.rb"],
        "map\n",
        "- Hotel file n/hotel.rb\n- Hotel::Room file m/hotel/room.rb\n",
    ),
    // A root below a root.
    (
        "[[root]]\npath = \"app/models\"\n[[root]]\npath = \"app/models/concerns\"\n",
        &["app/models/concerns/taggable.rb", "app/models/post.rb"],
        "map\n",
        "- Post file app/models/post.rb\n- Taggable file app/models/concerns/taggable.rb\n",
    ),
    // A pattern that ignores, and a constant that boot defines.
    (
        "ignore = [\"m/a/**\"]\n[[root]]\npath = \"m\"\n[[root]]\npath = \"n\"\n",
        &["m/a/x.rb", "m/b.rb", "n/b.rb", "n/integer.rb"],
        "map\nshadows\nexpect m/a/x.rb\n",
        "- B file m/b.rb\n- n/b.rb shadowed by m/b.rb\n\
         - n/integer.rb ignored, Integer is already defined\n- none\n",
    ),
    // A directory alone, one with a wrong name, and a file with a wrong name.
    (
        "[[root]]\npath = \"m\"\n",
        &["m/admin/user.rb", "m/b-c/x.rb", "m/1st.rb"],
        "map\nexpect m/1st.rb\nexpect m/b-c/x.rb\nshadows\nrun 1\n",
        "- Admin dir\n- Admin::User file m/admin/user.rb\n\
         ! Zeitwerk::NameError: wrong constant name 1st inferred from m/1st.rb\n\
         ! Zeitwerk::NameError: wrong constant name B-c inferred from m/b-c\n? not built\n",
    ),
    // Files below core classes: a module of that very name may hold more, and Object's own constant is none.
    (
        "[[root]]\npath = \"m\"\n[[root]]\npath = \"n\"\nnamespace = \"Zeitwerk\"\n",
        &[
            "m/integer/big.rb",
            "m/object.rb",
            "m/object/a.rb",
            "n/error.rb",
            "n/loader.rb",
        ],
        "map\nshadows\n",
        "- Integer::Big file m/integer/big.rb\n- Zeitwerk::Loader file n/loader.rb\n\
         - m/object/a.rb ignored, Object is already defined\n\
         - m/object.rb ignored, Object is already defined\n\
         - n/error.rb ignored, Zeitwerk::Error is already defined\n",
    ),
    // No root, and so nothing.
    ("", &["m/a.rb"], "map\nshadows\nexpect m/a.rb\n", "- none\n"),
];

fn folder_of(alloc: Global, row: Row) -> Result<MemFolder, Fail> {
    let mut files = Vec::new(alloc);
    files.push((
        String::from_str(alloc, "zw.toml")?,
        row.0.as_bytes().to_vec(alloc)?,
    ))?;
    for path in row.1 {
        files.push((String::from_str(alloc, path)?, Vec::new(alloc)))?;
    }
    Ok(MemFolder::new(files, Vec::new(alloc)))
}

fn try_row(rt: &impl Abort, alloc: Global, row: Row) -> Result<(), Fail> {
    let mut words = Vec::new(alloc);
    words.push(String::from_str(alloc, "zw.toml")?)?;
    let mut folder = folder_of(alloc, row)?;
    let mut source = MemSource::new(row.2.as_bytes().to_vec(alloc)?, 4096, Vec::new(alloc));
    let mut sink = MemSink::new(alloc, 4096, Vec::new(alloc));
    let status = run(alloc, &words, &mut folder, &mut source, &mut sink);
    let stream = row.2;
    assert!(rt; status == Status::Done, "status at {stream:?}");
    assert!(rt; sink.taken() == row.3.as_bytes(), "output at {stream:?}");
    Ok(())
}

#[test]
fn rows(rt: HostRuntime) -> Result<(), Fail> {
    for row in ROWS {
        try_row(&rt, rt.alloc(), *row)?;
    }
    Ok(())
}
