//! The program `zw`: its words, the working folder, standard input and standard output, handed to `zw_top::run`, which
//! does all that it does. It promises nothing of its own; the exit status is the number of the answer.
#![tactic(auto)]

use std::alloc::{AllocError, Global};
use std::io;
use std::io::ErrorKind;
use std::process::ExitCode;
use zw_io::{RealFolder, RealSink, RealSource};
use zw_top::{Status, run};

// The words after the program's name; none where one of them is not UTF-8, so that the usage line is printed.
fn words_of(rt: &HostRuntime, alloc: Global) -> Result<Vec<String>, AllocError> {
    match std::env::args(rt) {
        Ok(words) => words.skip(1).collect(alloc),
        Err(error) if error.kind() == ErrorKind::OutOfMemory => Err(AllocError),
        Err(_) => Ok(Vec::new(alloc)),
    }
}

fn session(rt: HostRuntime) -> Result<Status, AllocError> {
    let alloc = rt.alloc();
    let words = words_of(&rt, alloc)?;
    let mut folder = RealFolder::new(rt.clone()?);
    let mut source = RealSource::new(rt.reader());
    let mut sink = RealSink::new(io::writer(&rt));
    Ok(run(alloc, &words, &mut folder, &mut source, &mut sink))
}

fn main(rt: HostRuntime) -> ExitCode {
    let status = session(rt).unwrap_or(Status::Memory);
    ExitCode::from(status as u8)
}
