//! Reads that fail.
use crate::told::told;
use std::test::Fail;
use zw_io::{LinesFault, MemSource};

#[test]
fn a_failed_read_is_told_and_no_command_in_its_place(rt: HostRuntime) -> Result<(), Fail> {
    // The stream, the piece, the call that fails, and what is read before.
    let rows = [
        ("map\ncheck\n", 4, 1, "", true),
        ("map\ncheck\n", 4, 2, "map|", true),
        ("map\ncheck\n", 10, 2, "map|check|", true),
        ("map\ncheck", 10, 2, "map|", true),
        ("map", 3, 2, "", true),
        // The lines of a command are not all there.
        ("put a 2\nx\ny\nmap\n", 10, 2, "", true),
        ("put a 2\nx\ny\nmap\n", 12, 2, "put/a=x\ny\n|", true),
        ("runs 2\nx\ny\n", 9, 2, "", true),
        ("runs 1\n~\n", 7, 2, "", true),
        // A refusal that asks for no lines is told first.
        ("put /m 2\nx\n", 9, 2, "? bad argument|", true),
        // No call comes after the end of input, or after `end`.
        ("map\n", 4, 3, "map|", false),
        ("end\nmap\n", 4, 2, "", false),
    ];
    for (stream, piece, at, wanted, fails) in rows {
        let mut calls = Vec::new(rt.alloc());
        calls.push(at)?;
        let bytes = stream.as_bytes().to_vec(rt.alloc())?;
        let mut source = MemSource::new(bytes, piece, calls);
        let (text, fault) = told(&rt, rt.alloc(), &mut source)?;
        assert!(rt;
            text.as_str() == wanted,
            "at {stream:?} in pieces of {piece}: {text:?}"
        );
        let wanted_fault = if fails {
            Some(LinesFault::ReadFault)
        } else {
            None
        };
        assert!(rt; fault == wanted_fault, "at {stream:?} in pieces of {piece}");
    }
    Ok(())
}
