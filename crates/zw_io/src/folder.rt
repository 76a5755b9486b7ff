// Where files come from.
ghost use Rattle.std.specs.Prelude.{◌≡◌, ℕ, Option, IfOk, IfSome, IsTrue, option_map};
ghost use Rattle.zw_def.specs.Folder.{Listing, bytes_at};
ghost use Rattle.zw_io.specs.FolderAnswers.{ListsIfTold, FindsIfTold, AppendsMost, CountsFail, SetsPath, pairs};

/// Why a call of a folder gives nothing: the folder failed and counted it, or memory ran out.
#[derive(Clone, Copy, Debug, PartialEq, Eq)]
pub enum Fail {
    Failed,
    Memory,
}

/// Files under their paths, and the listing of these.
pub trait Folder {
    ghost use Rattle.zw_def.specs.Folder.{Listing};

    /// The files and the place in their listing, where the folder tells them.
    ghost listing: { Self → Option Listing };

    /// How many calls have failed. It never falls.
    ghost faults: { Self → ℕ };

    /// Puts the next listed path in place of what `into` held. False is the listing's end.
    fn next_path(&mut self, into: &mut Vec<u8>) -> Result<bool, Fail>
        ensures lists { ListsIfTold result (listing self.old) into.new.items (listing self.new) }
        ensures cause { CountsFail result (faults self.old) (faults self.new) };

    /// Appends at most so many bytes of the front of a file. False says that there is none.
    fn read(&mut self, path: &str, most: usize, into: &mut Vec<u8>) -> Result<bool, Fail>
        ensures found { IfOk result (λ there.
            FindsIfTold there most path.now (listing self.old) into.old.items into.new.items) }
        ensures same { listing self.new ≡ listing self.old }
        ensures cause { CountsFail result (faults self.old) (faults self.new) };
}

/// Files in memory. It fails at the calls numbered in `fails`, from 1, where the calls of all methods are numbered
/// together.
#[derive(Drop)]
pub struct MemFolder {
    files: Vec<(String, Vec<u8>)>,
    place: usize,
    fails: Vec<u64>,
    calls: u64,
    faults: u64,
}

impl MemFolder {
    ghost use Rattle.std.specs.Prelude.{◌≡◌};
    ghost use Rattle.zw_io.specs.Fakes.{folder_listing, folder_faults};
    ghost use Rattle.zw_io.specs.FolderAnswers.{CountsFail, pairs};

    /// A folder of these files, each under its path, of which none is listed yet.
    pub fn new(files: Vec<(String, Vec<u8>)>, fails: Vec<u64>) -> MemFolder
        ensures files { (folder_listing result).files ≡ pairs files.items }
        ensures place { (folder_listing result).place ≡ 0 }
        ensures faults { folder_faults result ≡ 0 }
    {
        MemFolder {
            files,
            place: 0,
            fails,
            calls: 0,
            faults: 0,
        }
    }

    // Counts a call, which may be one that fails.
    fn start(&mut self) -> Result<(), Fail>
        ensures listing { folder_listing self.new ≡ folder_listing self.old }
        ensures files { self.new.files ≡ self.old.files }
        ensures place { self.new.place ≡ self.old.place }
        ensures counts { CountsFail result (folder_faults self.old) (folder_faults self.new) }
    {
        self.calls = self.calls.saturating_add(1);
        if self.fails.contains(&self.calls) {
            self.faults = self.faults.saturating_add(1);
            return Err(Fail::Failed);
        }
        Ok(())
    }
}

// The bytes of the first file with this path.
fn bytes_of<'a>(files: &'a [(String, Vec<u8>)], path: &str) -> Option<&'a [u8]>
    ensures { option_map (λ b. b.now) result ≡ bytes_at path.now (pairs files.now) }
{
    for file in files {
        if file.0.as_str() == path {
            return Some(file.1.as_slice());
        }
    }
    None
}

// Appends the first `most` of the bytes.
fn append(into: &mut Vec<u8>, bytes: &[u8], most: usize) -> Result<(), Fail>
    ensures { AppendsMost result most into.old.items bytes.now into.new.items }
{
    let n = bytes.len().min(most);
    into.extend_from_slice(&bytes[..n])
        .map_err(|_| Fail::Memory)
}

/// Puts a path in place of what was held.
pub(crate) fn set_path(into: &mut Vec<u8>, path: &str) -> Result<(), Fail>
    ensures { SetsPath result path.now into.new.items }
{
    into.clear();
    into.extend_from_slice(path.as_bytes())
        .map_err(|_| Fail::Memory)
}

impl Folder for MemFolder {
    ghost use Rattle.std.specs.Prelude.{Some};
    ghost use Rattle.zw_io.specs.Fakes.{folder_listing, folder_faults};

    ghost listing = { λ s. Some (folder_listing s) };

    ghost faults = { folder_faults };

    fn next_path(&mut self, into: &mut Vec<u8>) -> Result<bool, Fail> {
        self.start()?;
        let Some(file) = self.files.get(self.place) else {
            return Ok(false);
        };
        set_path(into, file.0.as_str())?;
        self.place += 1;
        Ok(true)
    }

    fn read(&mut self, path: &str, most: usize, into: &mut Vec<u8>) -> Result<bool, Fail> {
        self.start()?;
        let Some(bytes) = bytes_of(self.files.as_slice(), path) else {
            return Ok(false);
        };
        append(into, bytes, most)?;
        Ok(true)
    }
}
