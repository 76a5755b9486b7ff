//! A source and a folder for tests at the limits, which make what they hold as they go.
use std::alloc::AllocError;
use zw_io::{Fail, Failed, Folder, Source};

/// How many bytes a file may have, as a test sees it.
pub const FULL: usize = 1_048_576;

/// How many bytes the least class file has.
pub const CLASS: usize = 14;

const CONFIGURATION: &str = "[[root]]\npath = \"m\"\n";

/// A source of so many bytes `#`, which are one comment.
#[derive(Drop)]
pub struct Comment {
    pub left: usize,
}

impl Source for Comment {
    ghost use Rattle.std.specs.Prelude.{None};

    ghost left = { λ _. None };

    ghost faults = { λ _. 0 };

    fn read(&mut self, into: &mut [u8]) -> Result<usize, Failed> {
        let n = into.len().min(self.left);
        into[..n].fill(b'#');
        self.left -= n;
        Ok(n)
    }
}

/// A folder whose root is `m`. It still lists `others` files that are no Ruby files, and then, of `classes` files from
/// `a000000.rb` on in the directory of this one letter, those past the `listed` ones. Each of them has `each` bytes,
/// and the last one `last`.
#[derive(Drop)]
pub struct Large {
    pub others: usize,
    pub directory: u8,
    pub classes: usize,
    pub each: usize,
    pub last: usize,
    pub listed: usize,
}

fn path_of(directory: u8, n: usize) -> [u8; 12] {
    let mut path = *b"m/a000000.rb";
    path[0] = directory;
    let mut left = n;
    for byte in path[3..9].iter_mut().rev() {
        *byte = b'0' + (left % 10) as u8;
        left /= 10;
    }
    path
}

const BLANKS: [u8; 1024] = [b' '; 1024];

fn write_blanks(into: &mut Vec<u8>, n: usize) -> Result<(), AllocError> {
    for _ in 0..n / 1024 {
        into.extend_from_slice(BLANKS.as_slice())?;
    }
    into.extend_from_slice(&BLANKS[..n % 1024])
}

// A class file of so many bytes, or the front of one.
fn write_class(into: &mut Vec<u8>, size: usize) -> Result<(), AllocError> {
    let end = into.len().saturating_add(size);
    into.extend_from_slice(b"class Zed\n".as_slice())?;
    write_blanks(into, size.saturating_sub(CLASS))?;
    into.extend_from_slice(b"end\n".as_slice())?;
    into.truncate(end);
    Ok(())
}

impl Folder for Large {
    ghost use Rattle.std.specs.Prelude.{None};

    ghost listing = { λ _. None };

    ghost faults = { λ _. 0 };

    fn next_path(&mut self, into: &mut Vec<u8>) -> Result<bool, Fail> {
        into.clear();
        let written = if self.others > 0 {
            self.others -= 1;
            into.extend_from_slice(b"x".as_slice())
        } else if self.listed < self.classes {
            let place = self.listed;
            self.listed += 1;
            into.extend_from_slice(&path_of(self.directory, place))
        } else {
            return Ok(false);
        };
        match written {
            Ok(()) => Ok(true),
            Err(_) => Err(Fail::Memory),
        }
    }

    fn read(&mut self, path: &str, most: usize, into: &mut Vec<u8>) -> Result<bool, Fail> {
        let last = path_of(self.directory, self.classes.saturating_sub(1));
        let written = if path == "zw.toml" {
            into.extend_from_slice(CONFIGURATION.as_bytes())
        } else if path.as_bytes() == last.as_slice() {
            write_class(into, self.last.min(most))
        } else {
            write_class(into, self.each.min(most))
        };
        match written {
            Ok(()) => Ok(true),
            Err(_) => Err(Fail::Memory),
        }
    }
}
