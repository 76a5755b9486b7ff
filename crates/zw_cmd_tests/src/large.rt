//! Streams that are large.
use crate::told::told;
use std::test::Fail;
use zw_cmd::{Command, Got, next_command};
use zw_io::{Lines, MemSource};

#[test]
fn a_million_blank_lines_end(rt: HostRuntime) -> Result<(), Fail> {
    let mut bytes = Vec::new(rt.alloc());
    for _ in 0..1_000_000 {
        bytes.push(b'\n')?;
    }
    bytes.extend_from_slice(b"map\n")?;
    let mut source = MemSource::new(bytes, 4096, Vec::new(rt.alloc()));
    let (text, fault) = told(&rt, rt.alloc(), &mut source)?;
    assert!(rt; text.as_str() == "map|" && fault == None);
    Ok(())
}

// How many bytes a file has that is put.
fn file_size(got: &Got) -> usize {
    match got {
        Got::Command(Command::Put(_, bytes)) => bytes.len(),
        _ => 0,
    }
}

#[test]
fn a_file_of_a_million_lines_is_taken_whole(rt: HostRuntime) -> Result<(), Fail> {
    let mut bytes = Vec::new(rt.alloc());
    bytes.extend_from_slice(b"put m/a.rb 1000000\n")?;
    for _ in 0..1_000_000 {
        bytes.extend_from_slice(b"12\n")?;
    }
    let mut source = MemSource::new(bytes, 4096, Vec::new(rt.alloc()));
    let mut lines = Lines::new(&mut source);
    match next_command(rt.alloc(), &mut lines) {
        Ok(got) => assert!(rt; file_size(&got) == 3_000_000),
        Err(_) => assert!(rt; false, "no file"),
    }
    Ok(())
}

#[test]
fn a_million_lines_that_are_missing_are_told(rt: HostRuntime) -> Result<(), Fail> {
    let mut bytes = Vec::new(rt.alloc());
    bytes.extend_from_slice(b"put m/a.rb 1000000")?;
    let mut source = MemSource::new(bytes, 4096, Vec::new(rt.alloc()));
    let (text, fault) = told(&rt, rt.alloc(), &mut source)?;
    assert!(rt; text.as_str() == "? input ended|" && fault == None);
    Ok(())
}
