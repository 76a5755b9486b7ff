//! Line ends, blank lines, comments, and the lines that belong to a command.
use crate::told::reads;
use std::test::Fail;

#[test]
fn one_cr_is_dropped_but_in_put(rt: HostRuntime) -> Result<(), Fail> {
    let rows = [
        ("map\r\n", "map|"),
        ("map\r", "map|"),
        ("map\r\r\n", "? unknown command|"),
        ("run 1\r\r\n", "run=1\r|"),
        ("run a\rb\r\n", "run=a\rb|"),
        ("put a 2\r\nx\r\n\r\nmap\r\n", "put/a=x\r\n\r\n|map|"),
        ("runs 2\r\nx\r\ny\r\r\nmap\r\n", "run=x\ny\r|map|"),
    ];
    for (stream, wanted) in rows {
        reads(&rt, rt.alloc(), stream, wanted)?;
    }
    Ok(())
}

#[test]
fn blank_lines_and_comments_are_skipped(rt: HostRuntime) -> Result<(), Fail> {
    let rows = [
        ("", ""),
        ("\n\n\n", ""),
        ("\n \t \n\r\nmap\n", "map|"),
        ("# one\n#\nmap\n", "map|"),
        ("#~\nmap\n", "map|"),
        ("#", ""),
        (" # two\n", "? unknown command|"),
        (" \n  \n \r\nmap", "map|"),
        // What begins a line of `put` or of `runs` skips nothing.
        ("put a 3\n# one\n\n \nmap\n", "put/a=# one\n\n \n|map|"),
        ("runs 2\n# one\n\nmap\n", "run=# one\n|map|"),
    ];
    for (stream, wanted) in rows {
        reads(&rt, rt.alloc(), stream, wanted)?;
    }
    Ok(())
}

#[test]
fn lines_that_belong_to_a_command_are_taken(rt: HostRuntime) -> Result<(), Fail> {
    let rows = [
        ("put a 2\nend\nend\nmap\n", "put/a=end\nend\n|map|"),
        ("put a 1\nx", "put/a=x\n|"),
        ("put a 2\nx", "? input ended|"),
        ("put a 2\nx\n", "? input ended|"),
        ("put a 1\n", "? input ended|"),
        ("put a 0", "put/a=|"),
        ("put a 1\n\n", "put/a=\n|"),
        ("put a 1\n~\n", "put/a=~\n|"),
        ("runs 3\na\n\nb\nmap\n", "run=a\n\nb|map|"),
        ("runs 1\nx", "run=x|"),
        ("runs 2\nx\n", "? input ended|"),
        ("runs 1\n", "? input ended|"),
    ];
    for (stream, wanted) in rows {
        reads(&rt, rt.alloc(), stream, wanted)?;
    }
    Ok(())
}
