//! Sessions over trees made by hand.
use std::alloc::Global;
use std::process::Abort;
use std::test::Fail;
use zw_path::Path;
use zw_thin::{File, NotBuilt, Session, SessionFault};

/// Files in path order.
type Files = &'static [(&'static str, &'static str)];

const TREE: Files = &[
    ("m/bus.rb", "class Vehicle\ndef self.wheels\n6\nend\nend\n"),
    (
        "m/car.rb",
        "class Vehicle\n\tdef self.wheels\n4\nend\nend\n",
    ),
    (
        "m/twice.rb",
        "class Twice\ndef self.x\n1\nend\ndef self.x\n2\nend\nend\n",
    ),
    (
        "m/user.rb",
        "class User\n  def self.size\n    40\n  end\nend\n",
    ),
];

fn files_of(alloc: Global, files: Files) -> Result<Vec<File<'static>>, Fail> {
    let mut all = Vec::new(alloc);
    for (path, text) in files {
        let path = Path::parse(alloc, path)?;
        let text = text.as_bytes();
        all.push(File { path, text })?;
    }
    Ok(all)
}

/// Expressions in their order, and the lines that they answer, where they are built so far.
const EXPRESSIONS: &[(&str, Option<&str>)] = &[
    ("7", Some("= 7")),
    ("User", Some("= User")),
    ("User.size", Some("= 40")),
    (
        "User.age",
        Some("! NoMethodError: undefined method 'age' for class User"),
    ),
    (
        "Vehicle",
        Some("! NameError: uninitialized constant Vehicle"),
    ),
    (
        "Car",
        Some("! Zeitwerk::NameError: expected file m/car.rb to define constant Car, but didn't"),
    ),
    ("Car", Some("! NameError: uninitialized constant Car")),
    ("Vehicle", Some("= Vehicle")),
    ("Vehicle.wheels", Some("= 4")),
    (
        "Bus.x",
        Some("! Zeitwerk::NameError: expected file m/bus.rb to define constant Bus, but didn't"),
    ),
    ("Vehicle.wheels", Some("= 6")),
    ("Twice.x", Some("= 2")),
    ("User.name", None),
    ("user", None),
    ("1_000", None),
    ("07", None),
    (" User", None),
    ("User.", None),
];

#[test]
fn expressions_are_answered(rt: HostRuntime) -> Result<(), Fail> {
    let root = Path::parse(rt.alloc(), "m")?;
    let files = files_of(rt.alloc(), TREE)?;
    let mut session = Session::new(rt.alloc(), &root, &files)?;
    for (expression, expected) in EXPRESSIONS {
        let line = session.run(rt.alloc(), expression.as_bytes())?;
        assert!(rt; line.as_deref() == *expected, "at {expression}");
    }
    Ok(())
}

/// Files, and the path of the first that is not carried out.
const REFUSED: &[(Files, &str)] = &[
    (
        &[("m/a/b.rb", "class B\nend\n"), ("m/c.rb", "class C\nend\n")],
        "m/a/b.rb",
    ),
    (&[("m/User.rb", "class User\nend\n")], "m/User.rb"),
    (&[("m/integer.rb", "class Number\nend\n")], "m/integer.rb"),
    (
        &[
            ("m/a__b.rb", "class AB\nend\n"),
            ("m/a_b.rb", "class AB\nend\n"),
        ],
        "m/a_b.rb",
    ),
    (
        &[("m/b.rb", "class B\nend\n"), ("m/c.rb", "class B\nend\n")],
        "m/c.rb",
    ),
    (&[("m/user.rb", "class User\nend")], "m/user.rb"),
    (
        &[("m/bar.rb", "class Foo\nend\n"), ("m/fOO.rb", "")],
        "m/bar.rb",
    ),
    (
        &[("m/bar.rb", "class Foo\nend\n"), ("m/fOOé.rb", "")],
        "m/fOOé.rb",
    ),
    (
        &[("m/bar.rb", "class Foo\nend\n"), ("m/c/foo.rb", "")],
        "m/c/foo.rb",
    ),
];

#[test]
fn trees_are_refused(rt: HostRuntime) -> Result<(), Fail> {
    let root = Path::parse(rt.alloc(), "m")?;
    for (files, at) in REFUSED {
        let files = files_of(rt.alloc(), files)?;
        match Session::new(rt.alloc(), &root, &files) {
            Err(SessionFault::Refused(NotBuilt(path))) => {
                assert!(rt; path.text(rt.alloc())?.as_str() == *at, "at {at}");
            }
            _ => return Err(Fail::new(at)),
        }
    }
    Ok(())
}
