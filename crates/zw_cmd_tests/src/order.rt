//! Of several refusals the first is told.
use crate::told::{bytes_of, reads, told};
use std::alloc::Global;
use std::process::Abort;
use std::test::Fail;
use zw_cmd::BadReason;
use zw_io::MemSource;

#[test]
fn the_first_refusal_is_told(rt: HostRuntime) -> Result<(), Fail> {
    let rows = [
        // Not UTF-8 before unknown, a bad argument and the end of input.
        ("frob ~\n", "? not UTF-8|"),
        ("put ~ x\nmap\n", "? not UTF-8|map|"),
        ("put ~ 1\nmap\n", "? not UTF-8|map|"),
        ("put a~ 9", "? not UTF-8|"),
        // Unknown before a bad argument; a bad argument before the end of input.
        ("puts /m x\n", "? unknown command|"),
        ("put /m 9\nmap\n", "? bad argument|map|"),
        ("runs 0", "? bad argument|"),
        // A line of `runs` that is not UTF-8 before the end of input; all lines are taken.
        ("runs 2\n~\nx\nmap\n", "? not UTF-8|map|"),
        ("runs 3\nx\n~\n", "? not UTF-8|"),
        ("runs 9\n~", "? not UTF-8|"),
    ];
    for (stream, wanted) in rows {
        reads(&rt, rt.alloc(), stream, wanted)?;
    }
    Ok(())
}

#[test]
fn refusals_print_their_lines(rt: HostRuntime) -> Result<(), Fail> {
    let rows = [
        (BadReason::LineTooLong, "? line too long"),
        (BadReason::NotUtf8, "? not UTF-8"),
        (BadReason::Unknown, "? unknown command"),
        (BadReason::BadArgument, "? bad argument"),
        (BadReason::InputEnded, "? input ended"),
    ];
    for (reason, wanted) in rows {
        let text = format!(in rt.alloc(); "{reason}")?;
        assert!(rt; text.as_str() == wanted && reason.text() == wanted);
    }
    Ok(())
}

/// How many bytes a line may have.
const MOST: usize = 1_048_576;

/// A stream of a text, so many times a byte, and a text; and what it is read as.
#[derive(Clone, Copy)]
struct Long {
    before: &'static str,
    byte: u8,
    count: usize,
    after: &'static str,
    wanted: &'static str,
}

fn stream_of(alloc: Global, row: Long) -> Result<Vec<u8>, Fail> {
    let mut bytes = bytes_of(alloc, row.before)?;
    for _ in 0..row.count {
        bytes.push(row.byte)?;
    }
    let more = bytes_of(alloc, row.after)?;
    bytes.extend_from_slice(&more)?;
    Ok(bytes)
}

// A line of so many bytes, and the command `map`.
const fn line(byte: u8, count: usize, wanted: &'static str) -> Long {
    Long {
        before: "",
        byte,
        count,
        after: "\nmap\n",
        wanted,
    }
}

fn try_long(rt: &impl Abort, alloc: Global, row: Long) -> Result<(), Fail> {
    let bytes = stream_of(alloc, row)?;
    let mut source = MemSource::new(bytes, 4096, Vec::new(alloc));
    let (text, fault) = told(rt, alloc, &mut source)?;
    assert!(rt;
        text.as_str() == row.wanted,
        "at {:?} and {:?}",
        row.before,
        row.after
    );
    assert!(rt; fault == None, "at {:?} and {:?}", row.before, row.after);
    Ok(())
}

#[test]
fn a_line_that_is_too_long_comes_first(rt: HostRuntime) -> Result<(), Fail> {
    let rows = [
        // Blank as long as a line may be, and too long with one byte more, a CR too.
        line(b' ', MOST, "map|"),
        line(b' ', MOST + 1, "? line too long|map|"),
        Long {
            after: "\r\nmap\n",
            ..line(b' ', MOST, "? line too long|map|")
        },
        line(b'#', MOST + 1, "map|"),
        // Too long before not UTF-8, unknown and a bad argument.
        line(255, MOST + 1, "? line too long|map|"),
        line(b'x', MOST, "? unknown command|map|"),
        Long {
            before: "put a",
            ..line(b'1', MOST, "? line too long|map|")
        },
    ];
    for row in rows {
        try_long(&rt, rt.alloc(), row)?;
    }
    Ok(())
}

// A line of `runs` before one that is not UTF-8, and before the end of input.
#[test]
fn a_line_of_runs_that_is_too_long_comes_first(rt: HostRuntime) -> Result<(), Fail> {
    let rows = [
        Long {
            before: "runs 2\n~\n",
            ..line(b'1', MOST + 1, "? line too long|map|")
        },
        Long {
            before: "runs 9\n",
            ..line(b'1', MOST + 1, "? line too long|")
        },
        Long {
            before: "runs 1\n",
            after: "\r\nmap\n",
            ..line(b'1', MOST, "? line too long|map|")
        },
    ];
    for row in rows {
        try_long(&rt, rt.alloc(), row)?;
    }
    Ok(())
}
