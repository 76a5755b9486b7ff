//! What a stream is read as, told as a text: each command, refusal or end with a bar behind it. In streams and in what
//! is told `~` stands for the byte 0xFF, which no UTF-8 has.
use std::alloc::{AllocError, Global};
use std::process::Abort;
use std::test::Fail;
use zw_cmd::{Command, Got, next_command};
use zw_io::{Lines, LinesFault, MemSource, Source};
use zw_path::Path;

fn with_path(into: &mut String, word: &str, path: &Path) -> Result<(), AllocError> {
    into.push_str(word)?;
    for component in path.components() {
        into.push('/')?;
        into.push_str(component)?;
    }
    Ok(())
}

fn with_bytes(into: &mut String, bytes: &[u8]) -> Result<(), AllocError> {
    into.push('=')?;
    for byte in bytes {
        if *byte == 255 {
            into.push('~')?;
        } else {
            into.push(*byte as char)?;
        }
    }
    Ok(())
}

fn with_command(into: &mut String, command: &Command) -> Result<(), AllocError> {
    match command {
        Command::Put(path, bytes) => {
            with_path(into, "put", path)?;
            with_bytes(into, bytes)
        }
        Command::Del(path) => with_path(into, "del", path),
        Command::Run(text) => {
            into.push_str("run=")?;
            into.push_str(text)
        }
        Command::Reload => into.push_str("reload"),
        Command::Eager => into.push_str("eager"),
        Command::EagerDir(path) => with_path(into, "eager_dir", path),
        Command::EagerNs(text) => {
            into.push_str("eager_ns=")?;
            into.push_str(text)
        }
        Command::Load(path) => with_path(into, "load", path),
        Command::Expect(path) => with_path(into, "expect", path),
        Command::Map => into.push_str("map"),
        Command::Shadows => into.push_str("shadows"),
        Command::Check => into.push_str("check"),
    }
}

/// All that is read of a source up to the end, and the fault that cut it short.
pub fn told<S: Source>(
    rt: &impl Abort,
    alloc: Global,
    source: &mut S,
) -> Result<(String, Option<LinesFault>), Fail> {
    let mut lines = Lines::new(source);
    let mut text = String::new(alloc);
    for _ in 0..9 {
        match next_command(alloc, &mut lines) {
            Ok(Got::Command(command)) => with_command(&mut text, &command)?,
            Ok(Got::Bad(reason)) => text.push_str(reason.text())?,
            Ok(Got::End) => return Ok((text, None)),
            Err(fault) => {
                let again = next_command(alloc, &mut lines);
                assert!(rt; matches!(again, Err(_)));
                return Ok((text, Some(fault)));
            }
        }
        text.push('|')?;
    }
    assert!(rt; false, "more commands than were put in");
    Ok((text, None))
}

/// The bytes of a stream, with 0xFF in place of `~`.
pub fn bytes_of(alloc: Global, stream: &str) -> Result<Vec<u8>, AllocError> {
    let mut bytes = Vec::new(alloc);
    for byte in stream.as_bytes() {
        bytes.push(if *byte == b'~' { 255 } else { *byte })?;
    }
    Ok(bytes)
}

/// Reads a stream in pieces of several sizes, one byte among them.
pub fn reads(rt: &impl Abort, alloc: Global, stream: &str, wanted: &str) -> Result<(), Fail> {
    for piece in [1, 7, 4096] {
        let bytes = bytes_of(alloc, stream)?;
        let mut source = MemSource::new(bytes, piece, Vec::new(alloc));
        let (text, fault) = told(rt, alloc, &mut source)?;
        assert!(rt;
            text.as_str() == wanted,
            "at {stream:?} in pieces of {piece}: {text:?}"
        );
        assert!(rt; fault == None, "at {stream:?} in pieces of {piece}");
    }
    Ok(())
}
