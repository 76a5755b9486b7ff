// The process's own input, output and folder. They tell no contents.
ghost use Rattle.std.specs.Prelude.{◌≡◌, Err, None};
ghost use Rattle.zw_def.specs.Told.{Rose};
ghost use Rattle.zw_io.specs.FolderAnswers.{CountsFail};

use crate::folder::set_path;
use crate::{Fail, Failed, Folder, Sink, Source};
use std::alloc::Global;
use std::fs::DirEntry;
use std::io::{ErrorKind, Read, Write};
use std::rt::Files;
use std::{fs, io};

/// A reader as a source.
#[derive(Drop)]
pub struct RealSource<R> {
    reader: R,
    faults: u64,
}

impl<R> RealSource<R> {
    /// The source that reads from this reader.
    pub fn new(reader: R) -> RealSource<R>
        ensures faults { result.faults ≡ 0 }
    {
        RealSource { reader, faults: 0 }
    }
}

impl<R: Read> Source for RealSource<R> {
    ghost left = { λ _. None };

    ghost faults = { λ s. s.faults };

    fn read(&mut self, into: &mut [u8]) -> Result<usize, Failed> {
        match self.reader.read(into) {
            Ok(n) => Ok(n),
            Err(_) => {
                self.faults = self.faults.saturating_add(1);
                Err(Failed)
            }
        }
    }
}

/// A writer as a sink. A writer that takes nothing of some bytes is a fault.
#[derive(Drop)]
pub struct RealSink<W> {
    writer: W,
    faults: u64,
}

impl<W> RealSink<W> {
    /// The sink that writes to this writer.
    pub fn new(writer: W) -> RealSink<W>
        ensures faults { result.faults ≡ 0 }
    {
        RealSink { writer, faults: 0 }
    }
}

impl<W: Write> Sink for RealSink<W> {
    ghost taken = { λ _. None };

    ghost faults = { λ s. s.faults };

    fn write(&mut self, from: &[u8]) -> Result<usize, Failed> {
        match self.writer.write(from) {
            Ok(n) if n > 0 || from.is_empty() => Ok(n),
            _ => {
                self.faults = self.faults.saturating_add(1);
                Err(Failed)
            }
        }
    }
}

// What a directory holds that is to be listed: a regular file, or a directory to go into.
#[derive(Drop)]
struct Entry {
    path: String,
    is_directory: bool,
}

/// The working folder. It lists its regular files, each directory in byte order of the names, so that a run is the same
/// on every machine. It goes into no directory whose name begins with a dot, and follows no link to a directory. A name
/// that is not UTF-8 is a fault. After an `Err` the listing does not go on.
#[derive(Drop)]
pub struct RealFolder<R: Files> {
    rt: R,
    // The last of these comes first.
    pending: Vec<Entry>,
    is_begun: bool,
    is_broken: bool,
    faults: u64,
}

// What stands at the front of what is still to be listed.
enum Step {
    File,
    Directory,
    End,
}

impl<R: Files + AllocGlobal + Clone + Drop> RealFolder<R> {
    /// The working folder of the process, of which nothing is listed yet.
    pub fn new(rt: R) -> RealFolder<R>
        ensures faults { result.faults ≡ 0 }
    {
        let pending = Vec::new(rt.alloc());
        RealFolder {
            rt,
            pending,
            is_begun: false,
            is_broken: false,
            faults: 0,
        }
    }

    fn failed(&mut self) -> Fail
        ensures fail { result ≡ Fail.Failed }
        ensures rose { Rose self.old.faults self.new.faults }
    {
        self.faults = self.faults.saturating_add(1);
        Fail::Failed
    }

    // Counts an error of the system, and none where memory ran out.
    fn fault(&mut self, error: &io::Error) -> Fail
        ensures { CountsFail {T = Unit {0}} (Err result) self.old.faults self.new.faults }
    {
        if error.kind() == ErrorKind::OutOfMemory {
            Fail::Memory
        } else {
            self.failed()
        }
    }

    // Goes into a directory: what it holds comes next.
    fn enter(&mut self, directory: &str) -> Result<(), Fail>
        ensures { CountsFail result self.old.faults self.new.faults }
    {
        match entries_of(&self.rt, directory) {
            Ok(mut entries) => self.pending.append(&mut entries).map_err(|_| Fail::Memory),
            Err(error) => Err(self.fault(&error)),
        }
    }

    // Goes one entry further.
    fn step(&mut self, into: &mut Vec<u8>) -> Result<Step, Fail>
        ensures { CountsFail result self.old.faults self.new.faults }
    {
        let Some(entry) = self.pending.pop() else {
            return Ok(Step::End);
        };
        if entry.is_directory {
            self.enter(entry.path.as_str())?;
            return Ok(Step::Directory);
        }
        set_path(into, entry.path.as_str())?;
        Ok(Step::File)
    }

    // Lists the next file.
    fn advance(&mut self, into: &mut Vec<u8>) -> Result<bool, Fail>
        ensures { CountsFail result self.old.faults self.new.faults }
    {
        if !self.is_begun {
            self.is_begun = true;
            self.enter(".")?;
        }
        'entries: for _ in 0..u64::MAX {
            match self.step(into)? {
                Step::Directory => {}
                Step::File => return Ok(true),
                Step::End => return Ok(false),
            }
        }
        Err(self.failed())
    }
}

impl<R: Files + AllocGlobal + Clone + Drop> Folder for RealFolder<R> {
    ghost listing = { λ _. None };

    ghost faults = { λ s. s.faults };

    fn next_path(&mut self, into: &mut Vec<u8>) -> Result<bool, Fail> {
        if self.is_broken {
            return Err(self.failed());
        }
        let listed = self.advance(into);
        self.is_broken = listed.is_err();
        listed
    }

    fn read(&mut self, path: &str, most: usize, into: &mut Vec<u8>) -> Result<bool, Fail> {
        match read_front(&self.rt, path, most, into) {
            Ok(()) => Ok(true),
            Err(error) if is_absent(error.kind()) => Ok(false),
            Err(error) => Err(self.fault(&error)),
        }
    }
}

// The entry of a directory, where it is to be listed.
fn listed<R: Files>(alloc: Global, entry: &DirEntry<R, Global>) -> io::Result<Option<Entry>> {
    let kind = entry.file_type()?;
    let is_directory = kind.is_dir() && !entry.file_name().starts_with('.');
    if !is_directory && !kind.is_file() {
        return Ok(None);
    }
    let path = entry.path();
    let text = path.as_str();
    let path = String::from_str(alloc, text.strip_prefix("./").unwrap_or(text))?;
    Ok(Some(Entry { path, is_directory }))
}

// What a directory holds, the last name first.
fn entries_of<R: Files + AllocGlobal + Clone + Drop>(
    rt: &R,
    directory: &str,
) -> io::Result<Vec<Entry>> {
    let alloc = rt.alloc();
    let mut entries = Vec::new(alloc);
    for entry in fs::read_dir(rt, directory)? {
        if let Some(entry) = listed(alloc, &entry?)? {
            entries.push(entry)?;
        }
    }
    entries.sort_by(|a, b| b.path.cmp(&a.path))?;
    Ok(entries)
}

// Appends at most so many bytes of the front of a file.
fn read_front<R: Files>(rt: &R, path: &str, most: usize, into: &mut Vec<u8>) -> io::Result<()> {
    let file = fs::open(rt, path)?;
    file.take(most as u64).read_to_end(into)?;
    Ok(())
}

// There is no file under the path: nothing is there, or a directory, or the path leads through a file.
fn is_absent(kind: ErrorKind) -> bool {
    matches!(
        kind,
        ErrorKind::NotFound | ErrorKind::IsADirectory | ErrorKind::NotADirectory
    )
}
