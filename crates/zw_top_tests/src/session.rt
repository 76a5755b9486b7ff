//! Whole sessions over objects in memory.
use crate::large::{CLASS, Comment, FULL, Large};
use std::alloc::Global;
use std::process::Abort;
use std::test::Fail;
use zw_io::{MemFolder, MemSink, MemSource};
use zw_top::{Status, run};

const CONFIGURATION: &str = "reloading = true\n[[root]]\npath = \"m\"\n";

const USER: &str = "class User\ndef self.size\n40\nend\nend\n";

#[derive(Clone, Copy)]
struct Row {
    words: &'static str,
    configuration: &'static str,
    path: &'static str,
    text: &'static str,
    stream: &'static str,
    piece: usize,
    folder_fails: u64,
    source_fails: u64,
    sink_fails: u64,
    output: &'static str,
    status: Status,
}

const PLAIN: Row = Row {
    words: "zw.toml",
    configuration: CONFIGURATION,
    path: "m/user.rb",
    text: USER,
    stream: "run User.size\n",
    piece: 4096,
    folder_fails: 0,
    source_fails: 0,
    sink_fails: 0,
    output: "= 40\n",
    status: Status::Done,
};

fn fails(alloc: Global, at: u64) -> Result<Vec<u64>, Fail> {
    let mut all = Vec::new(alloc);
    if at > 0 {
        all.push(at)?;
    }
    Ok(all)
}

fn words_of(alloc: Global, text: &str) -> Result<Vec<String>, Fail> {
    let mut words = Vec::new(alloc);
    for word in text.split(' ') {
        if !word.is_empty() {
            words.push(String::from_str(alloc, word)?)?;
        }
    }
    Ok(words)
}

fn folder_in(alloc: Global, pairs: &[(&str, &str)]) -> Result<MemFolder, Fail> {
    let mut files = Vec::new(alloc);
    for (path, text) in pairs {
        let bytes = text.as_bytes().to_vec(alloc)?;
        files.push((String::from_str(alloc, path)?, bytes))?;
    }
    Ok(MemFolder::new(files, Vec::new(alloc)))
}

// The file under the path, and the configuration where it has a text.
fn folder_of(alloc: Global, row: &Row) -> Result<MemFolder, Fail> {
    let mut files = Vec::new(alloc);
    if !row.configuration.is_empty() {
        let bytes = row.configuration.as_bytes().to_vec(alloc)?;
        files.push((String::from_str(alloc, "zw.toml")?, bytes))?;
    }
    if !row.path.is_empty() {
        let bytes = row.text.as_bytes().to_vec(alloc)?;
        files.push((String::from_str(alloc, row.path)?, bytes))?;
    }
    Ok(MemFolder::new(files, fails(alloc, row.folder_fails)?))
}

fn try_row(rt: &impl Abort, alloc: Global, row: &Row) -> Result<(), Fail> {
    assert!(rt; row.piece > 0);
    let words = words_of(alloc, row.words)?;
    let mut folder = folder_of(alloc, row)?;
    let bytes = row.stream.as_bytes().to_vec(alloc)?;
    let mut source = MemSource::new(bytes, row.piece, fails(alloc, row.source_fails)?);
    let mut sink = MemSink::new(alloc, row.piece, fails(alloc, row.sink_fails)?);
    let status = run(alloc, &words, &mut folder, &mut source, &mut sink);
    let stream = row.stream;
    assert!(rt; status == row.status, "status at {stream:?}");
    assert!(rt;
        sink.taken() == row.output.as_bytes(),
        "output at {stream:?}"
    );
    Ok(())
}

// The first run, and the folder with no file and an empty stream, in pieces of several sizes.
#[test]
fn first_runs(rt: HostRuntime) -> Result<(), Fail> {
    for piece in [1, 2, 6, 4096] {
        try_row(&rt, rt.alloc(), &Row { piece, ..PLAIN })?;
        let empty = Row {
            path: "",
            stream: "",
            output: "",
            piece,
            ..PLAIN
        };
        try_row(&rt, rt.alloc(), &empty)?;
    }
    Ok(())
}

// Each call of the folder, of the source and of the sink fails in turn.
#[test]
fn failing_calls(rt: HostRuntime) -> Result<(), Fail> {
    for at in [1, 2, 3, 4, 5] {
        let row = Row {
            folder_fails: at,
            output: "",
            status: Status::FolderFault,
            ..PLAIN
        };
        try_row(&rt, rt.alloc(), &row)?;
    }
    let source = [(1, ""), (2, "= 40\n")];
    for (at, output) in source {
        let row = Row {
            source_fails: at,
            output,
            status: Status::ReadFault,
            ..PLAIN
        };
        try_row(&rt, rt.alloc(), &row)?;
    }
    let sink = [(1, ""), (2, "= "), (3, "= 40")];
    for (at, output) in sink {
        let row = Row {
            piece: 2,
            sink_fails: at,
            output,
            status: Status::WriteFault,
            ..PLAIN
        };
        try_row(&rt, rt.alloc(), &row)?;
    }
    Ok(())
}

// The stream ends within a line, and a read fails there: what stood whole is answered.
#[test]
fn read_faults(rt: HostRuntime) -> Result<(), Fail> {
    let row = Row {
        stream: "run User.size\nrun User.size\n",
        piece: 14,
        source_fails: 2,
        output: "= 40\n",
        status: Status::ReadFault,
        ..PLAIN
    };
    let later = Row {
        piece: 10,
        source_fails: 3,
        ..row
    };
    for row in [row, later] {
        try_row(&rt, rt.alloc(), &row)?;
    }
    // The stream of two lines in pieces of six bytes, of which the second fails.
    let pieces = Row {
        stream: "run 1\nrun 2\n",
        piece: 6,
        source_fails: 2,
        output: "= 1\n",
        status: Status::ReadFault,
        ..PLAIN
    };
    try_row(&rt, rt.alloc(), &pieces)?;
    let front = Row {
        stream: "run 1",
        piece: 2,
        sink_fails: 2,
        output: "= ",
        status: Status::WriteFault,
        ..PLAIN
    };
    try_row(&rt, rt.alloc(), &front)
}

#[test]
fn answers(rt: HostRuntime) -> Result<(), Fail> {
    let rows = [
        (
            "run User.size\nrun 7\nrun User\nrun User.age\nrun Car\nmap\n",
            "= 40\n= 7\n= User\n! NoMethodError: undefined method 'age' for class User\n\
             ! NameError: uninitialized constant Car\n- User file m/user.rb\n",
        ),
        ("run 1\nend\nrun 2\n", "= 1\n"),
        ("end \nrun 2\n", ""),
        ("end 1\nrun 2\n", "? bad argument\n= 2\n"),
        ("\n \t\n\r\nrun User.size\r\n", "= 40\n"),
        ("# run 1\nrun User.size", "= 40\n"),
        (
            "frob\nrun User.name\nrun\n Run\n",
            "? unknown command\n? not built\n? not built\n? unknown command\n",
        ),
        (
            "run  User.size\nrun User.size \n",
            "? not built\n? not built\n",
        ),
        // The lines of `put` and `runs` are taken, whatever they hold.
        (
            "put m/a.rb 1\nrun 1\nreload\nrun 2\n",
            "? not built\n? not built\n= 2\n",
        ),
        ("put m/a.rb 2\nrun 1\n", "? input ended\n"),
        (
            "del m/user.rb\neager\neager_dir m\neager_ns User\nload m/user.rb\ncheck\nrun User.size\n",
            "? not built\n? not built\n? not built\n? not built\n? not built\n? not built\n= 40\n",
        ),
        ("runs 2\nUser\n.size\nrun 3\n", "? not built\n= 3\n"),
        ("runs 1\nUser.size\nrun 3\n", "= 40\n= 3\n"),
        (
            "map 1\nexpect\nshadows \neager_ns user\n",
            "? bad argument\n? bad argument\n? bad argument\n",
        ),
    ];
    for (stream, output) in rows {
        try_row(
            &rt,
            rt.alloc(),
            &Row {
                stream,
                output,
                ..PLAIN
            },
        )?;
    }
    Ok(())
}

// A file that defines another class: its use fails once, and then its constant is absent.
#[test]
fn other_class(rt: HostRuntime) -> Result<(), Fail> {
    let row = Row {
        path: "m/car.rb",
        text: "class Vehicle\ndef self.wheels\n4\nend\nend\n",
        stream: "run Car\nrun Car\nrun Vehicle.wheels\nrun Vehicle\n",
        output: "! Zeitwerk::NameError: expected file m/car.rb to define constant Car, but didn't\n\
                 ! NameError: uninitialized constant Car\n= 4\n= Vehicle\n",
        ..PLAIN
    };
    try_row(&rt, rt.alloc(), &row)
}

// Lines that are too long or not UTF-8.
#[test]
fn bad_lines(rt: HostRuntime) -> Result<(), Fail> {
    let alloc = rt.alloc();
    let mut bytes = vec![in alloc; b'x'; 1_048_577]?;
    bytes.extend_from_slice(b"\n#".as_slice())?;
    bytes.extend_from_slice(&vec![in alloc; b'x'; 1_048_577]?)?;
    bytes.extend_from_slice(b"\n\xff\nrun 1\n".as_slice())?;
    bytes.extend_from_slice(&vec![in alloc; b' '; 1_048_576]?)?;
    bytes.extend_from_slice(b"\n".as_slice())?;
    bytes.extend_from_slice(&vec![in alloc; b' '; 1_048_577]?)?;
    let words = words_of(alloc, PLAIN.words)?;
    let mut folder = folder_of(alloc, &PLAIN)?;
    let mut source = MemSource::new(bytes, 4096, Vec::new(alloc));
    let mut sink = MemSink::new(alloc, 4096, Vec::new(alloc));
    let status = run(alloc, &words, &mut folder, &mut source, &mut sink);
    assert!(rt; status == Status::Done);
    let output = "? line too long\n? not UTF-8\n= 1\n? line too long\n";
    assert!(rt; sink.taken() == output.as_bytes());
    Ok(())
}

#[test]
fn refusals(rt: HostRuntime) -> Result<(), Fail> {
    let usage = "usage: zw [--budget N] [--log] [--steps] [--eager] CONFIG\n";
    for words in [
        "",
        "zw.toml zw.toml",
        "../zw.toml",
        "/zw.toml",
        "--help",
        "--budget 0 zw.toml",
        "--log --log zw.toml",
    ] {
        let row = Row {
            words,
            output: usage,
            status: Status::Usage,
            ..PLAIN
        };
        try_row(&rt, rt.alloc(), &row)?;
    }
    // Flags and options, which are not built so far; a configuration that is missing comes first.
    for (words, output) in [
        ("--log zw.toml", "config: not built\n"),
        ("zw.toml --steps", "config: not built\n"),
        ("--eager -- zw.toml", "config: not built\n"),
        ("--budget=100000 zw.toml", "config: not built\n"),
        ("--log none.toml", "config: missing\n"),
    ] {
        let row = Row {
            words,
            output,
            status: Status::Config,
            ..PLAIN
        };
        try_row(&rt, rt.alloc(), &row)?;
    }
    Ok(())
}

/// Configurations that are refused, with their lines; what is not built so far is told last.
const REFUSED: [(&str, &str); 13] = [
    ("", "config: missing\n"),
    ("reloading\n", "config: not TOML\n"),
    ("rootz = 1\n", "config: unknown key rootz\n"),
    (
        "[[root]]\npath = \"../m\"\n",
        "config: bad path root.path\n",
    ),
    ("[[root]]\npath = \"\"\n", "config: bad path root.path\n"),
    (
        "[[root]]\npath = \"m\"\n[[root]]\npath = \"m\"\n",
        "config: double root m\n",
    ),
    (
        "[[callback]]\non = \"setup\"\ntarget = \"A\"\nrun = \"1\"\n",
        "config: wrong kind callback.target\n",
    ),
    (
        "ignore = []\nboot = \"../b.rb\"\n",
        "config: bad path boot\n",
    ),
    ("eager = false\n", "config: not built\n"),
    (
        "boot = \"boot.rb\"\n[[root]]\npath = \"m\"\nnamespace = \"Nope\"\n",
        "config: not built\n",
    ),
    (
        "[[root]]\npath = \"m\"\nnamespace = \"Nope\"\n",
        "config: namespace Nope\n",
    ),
    (
        "[[root]]\npath = \"m\"\nnamespace = \"Zeitwerk::Error\"\n\
         [[root]]\npath = \"n\"\nnamespace = \"Object::Integer\"\n",
        "config: namespace Object::Integer\n",
    ),
    (
        "[[root]]\npath = \"n\"\nnamespace = \"Integer::Error\"\n\
         [[root]]\npath = \"m\"\nnamespace = \"Nope\"\n",
        "config: namespace Integer::Error\n",
    ),
];

#[test]
fn refused_configurations(rt: HostRuntime) -> Result<(), Fail> {
    for (configuration, output) in REFUSED {
        let row = Row {
            configuration,
            output,
            status: Status::Config,
            ..PLAIN
        };
        try_row(&rt, rt.alloc(), &row)?;
    }
    // Flags are not built either, and are told after what the configuration has.
    let flags = Row {
        words: "--log zw.toml",
        configuration: "rootz = 1\n",
        output: "config: unknown key rootz\n",
        status: Status::Config,
        ..PLAIN
    };
    try_row(&rt, rt.alloc(), &flags)
}

// A configuration as TOML allows it to be written. Without a root no file is visible.
#[test]
fn accepted_configurations(rt: HostRuntime) -> Result<(), Fail> {
    let configurations = [
        ("[[root]]\npath = \"m\"", "= 40\n"),
        ("reloading = false\n[[root]]\npath = \"m\"\n", "= 40\n"),
        (
            "# roots\nroot = [{ path = 'm' }]\nreloading = true\n",
            "= 40\n",
        ),
        ("\"root\" = [\n { path = \"\\u006d\" }, # m\n]\n", "= 40\n"),
        (
            "[[root]]\npath = \"n\"\n",
            "! NameError: uninitialized constant User\n",
        ),
        (
            "reloading = true\n",
            "! NameError: uninitialized constant User\n",
        ),
        ("# none\n", "! NameError: uninitialized constant User\n"),
        ("root = []\n", "! NameError: uninitialized constant User\n"),
        (
            "ignore = [\"m\"]\n[[root]]\npath = \"m\"\n",
            "! NameError: uninitialized constant User\n",
        ),
        // Files are visible, and the configuration is not the first path's.
        ("ignore = []\n[[root]]\npath = \"m\"\n", "? not built\n"),
        (
            "[[root]]\npath = \"m\"\nnamespace = \"Object\"\n",
            "? not built\n",
        ),
        (
            "[[root]]\npath = \"m\"\n[[root]]\npath = \"n\"\n",
            "? not built\n",
        ),
        (
            "[[root]]\npath = \"m\"\nnamespace = \"Zeitwerk::Error\"\n",
            "? not built\n",
        ),
    ];
    for (configuration, output) in configurations {
        let row = Row {
            configuration,
            output,
            ..PLAIN
        };
        try_row(&rt, rt.alloc(), &row)?;
    }
    Ok(())
}

// Trees with a file that the first path does not carry out.
#[test]
fn files_that_are_not_built(rt: HostRuntime) -> Result<(), Fail> {
    let files = [
        ("m/a/user.rb", USER),
        ("m/User.rb", USER),
        ("m/string.rb", "class String\nend\n"),
        ("m/user.rb", "class User\nend"),
        ("m/user.rb", "class User\ndef self.size\n040\nend\nend\n"),
    ];
    for (path, text) in files {
        let row = Row {
            path,
            text,
            output: "? not built\n",
            ..PLAIN
        };
        try_row(&rt, rt.alloc(), &row)?;
    }
    Ok(())
}

// A root of several components, and a file below it.
#[test]
fn deep_root(rt: HostRuntime) -> Result<(), Fail> {
    let row = Row {
        configuration: "[[root]]\npath = \"app/models ü\"\n",
        path: "app/models ü/user.rb",
        ..PLAIN
    };
    try_row(&rt, rt.alloc(), &row)
}

// A file defines what another visible file expects, though the base name of that one is not plain.
#[test]
fn expected_elsewhere(rt: HostRuntime) -> Result<(), Fail> {
    let alloc = rt.alloc();
    let mut folder = folder_in(
        alloc,
        &[
            ("zw.toml", CONFIGURATION),
            ("m/bar.rb", "class Foo\nend\n"),
            ("m/fOO.rb", "class Foo\nend\n"),
        ],
    )?;
    let words = words_of(alloc, PLAIN.words)?;
    let mut source = MemSource::new(b"run 1\n".to_vec(alloc)?, 4096, Vec::new(alloc));
    let mut sink = MemSink::new(alloc, 4096, Vec::new(alloc));
    let status = run(alloc, &words, &mut folder, &mut source, &mut sink);
    assert!(rt; status == Status::Done);
    assert!(rt; sink.taken() == b"? not built\n".as_slice());
    Ok(())
}

// Where no allocation fails, all is written. Where one is made to fail, want of memory or the fake sink's own fault is
// told, and what was written is a front.
#[test]
fn memory(rt: HostRuntime) -> Result<(), Fail> {
    let alloc = rt.alloc();
    let words = words_of(alloc, PLAIN.words)?;
    let mut folder = folder_of(alloc, &PLAIN)?;
    let bytes = b"run User.size\nrun User\nrun 7\nrun Car\n".to_vec(alloc)?;
    let mut source = MemSource::new(bytes, 6, Vec::new(alloc));
    let mut sink = MemSink::new(alloc, 2, Vec::new(alloc));
    let status = run(alloc, &words, &mut folder, &mut source, &mut sink);
    let output = b"= 40\n= User\n= 7\n! NameError: uninitialized constant Car\n".as_slice();
    if status == Status::Done {
        assert!(rt; sink.taken() == output);
    } else {
        assert!(rt; status == Status::Memory || status == Status::WriteFault);
        assert!(rt; output.starts_with(sink.taken()));
    }
    Ok(())
}

fn try_large(
    rt: &impl Abort,
    alloc: Global,
    mut folder: Large,
    stream: usize,
    output: &str,
) -> Result<(), Fail> {
    let words = words_of(alloc, PLAIN.words)?;
    let mut source = Comment { left: stream };
    let mut sink = MemSink::new(alloc, 4096, Vec::new(alloc));
    let status = run(alloc, &words, &mut folder, &mut source, &mut sink);
    let wanted = if output.is_empty() {
        Status::Done
    } else {
        Status::Limit
    };
    assert!(rt; status == wanted, "status at {output:?}");
    assert!(rt; sink.taken() == output.as_bytes(), "output at {output:?}");
    Ok(())
}

fn large(others: usize, classes: usize, each: usize, last: usize) -> Large {
    Large {
        others,
        directory: b'm',
        classes,
        each,
        last,
        listed: 0,
    }
}

// A stream at its limit, and one byte past it.
#[test]
fn stream_limit(rt: HostRuntime) -> Result<(), Fail> {
    let limit: usize = 1 << 30;
    try_large(&rt, rt.alloc(), large(0, 0, 0, 0), limit, "")?;
    try_large(
        &rt,
        rt.alloc(),
        large(0, 0, 0, 0),
        limit + 1,
        "limit: stream\n",
    )
}

// A folder at each of its limits, and one past it. The listing's comes before those of the tree, and that of the files
// before those of bytes; files outside the root count among them.
#[test]
fn folder_limits(rt: HostRuntime) -> Result<(), Fail> {
    let folders = [
        (1_000_000, 0, 0, 0, ""),
        (1_000_001, 0, 0, 0, "limit: listing\n"),
        (1_000_000, 1, 0, FULL + 1, "limit: listing\n"),
        (0, 1, 0, FULL, ""),
        (0, 1, 0, FULL + 1, "limit: file m/a000000.rb\n"),
        (0, 256, FULL, FULL, ""),
        (0, 257, FULL, 1, "limit: tree\n"),
        (0, 100_000, CLASS, CLASS, ""),
        (0, 100_001, CLASS, CLASS, "limit: files\n"),
        (0, 100_001, CLASS, FULL + 1, "limit: files\n"),
    ];
    for (others, classes, each, last, output) in folders {
        let folder = large(others, classes, each, last);
        try_large(&rt, rt.alloc(), folder, 0, output)?;
    }
    let outside = Large {
        directory: b'n',
        ..large(0, 100_001, CLASS, CLASS)
    };
    try_large(&rt, rt.alloc(), outside, 0, "limit: files\n")?;
    Ok(())
}
