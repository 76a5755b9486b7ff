//! The tree that is taken from a folder's listing.
ghost use Rattle.std.specs.Prelude.{◌≡◌, ◌+◌, ◌∷◌, List, ℕ, Option, true, IfOk, IfSome, take, []};
ghost use Rattle.zw_def.specs.Path as paths;
ghost use Rattle.zw_def.specs.Tree.{admits};
ghost use Rattle.zw_def_thin.specs.Limit.{most_file_bytes};
ghost use Rattle.zw_def_thin.specs.Mount.{taken_text, grown, grown_by, with_text, with_listed, mounted, tree_of};
ghost use Rattle.zw_tree.specs.StageSeen.{stage_of};
ghost use Rattle.zw_top.specs.Refusal.{Gives, KeepsFolder, CountsStart};
ghost use Rattle.zw_top.specs.Reading.{IsFront, file_seen, texts_seen};
ghost use Rattle.zw_top.specs.Start.{GivesTree};

use crate::configuration::{path_from, read_file};
use crate::limits;
use crate::listing::listing_of;
use crate::refusal::{Refusal, StartFault, refused};
use std::alloc::{AllocError, Global};
use std::marker::Model;
use zw_base::Fault;
use zw_io::Folder;
use zw_path::Path;
use zw_tree::{EditFault, StagedTree};

/// The tree that is taken from a listing so far, with its files and bytes counted.
#[derive(Drop)]
struct Mounting {
    tree: StagedTree,
    files: usize,
    size: u64,
}

impl Model for Mounting {
    ghost use Rattle.std.specs.Prelude.{◌≡◌, length};
    ghost use Rattle.zw_def.specs.Tree.{size_of};
    ghost use Rattle.zw_tree.specs.Stage.{Stage};

    ghost Value = { Stage };

    ghost view = { λ m. m.tree };

    ghost invariant = { λ m. (m.files ≡ length m.tree.staged) × (m.size ≡ size_of m.tree.staged) };
}

impl Mounting {
    /// A tree without files.
    fn new(alloc: Global, fixed: Path) -> Result<Mounting, AllocError>
        ensures { IfOk result (λ mounting. mounting ≡ stage_of (fixed ∷ []) [] [] []) }
    {
        let mut paths = Vec::new(alloc);
        paths.push(fixed)?;
        Ok(Mounting {
            tree: StagedTree::new(alloc, paths),
            files: 0,
            size: 0,
        })
    }

    /// The path that a listed text tells, where it is taken into the tree so far.
    fn taken_path(&self, alloc: Global, text: &str) -> Result<Option<Path>, AllocError>
        ensures told { (fixed : paths.Path) → self.now.fixed ≡ fixed ∷ [] →
            IfOk result (λ path. path ≡ taken_text fixed self.now.staged text.now) }
        ensures taken { IfOk result (λ path. IfSome path (λ p. admits self.now.fixed self.now.staged p ≡ true)) }
    {
        let Some(path) = path_from(alloc, text)? else {
            return Ok(None);
        };
        if self.tree.admits(&path) {
            Ok(Some(path))
        } else {
            Ok(None)
        }
    }

    /// Puts a file that is taken into the tree, where it is within the limits.
    fn grow(&mut self, path: Path, bytes: Vec<u8>) -> Result<(), StartFault>
        requires { admits self.old.fixed self.old.staged path ≡ true }
        ensures gives { (text : List ℕ) → bytes.items ≡ take (most_file_bytes + 1) text →
            GivesTree result self.new.staged (grown self.old.staged path text) }
        ensures fixed { self.new.fixed ≡ self.old.fixed }
        ensures kept { KeepsFolder result }
    {
        if self.files >= limits::files() {
            return Err(refused(Refusal::ManyFiles));
        }
        if bytes.len() > limits::file_bytes() {
            return Err(refused(Refusal::LargeFile(path)));
        }
        let size = self.size.saturating_add(bytes.len() as u64);
        if size > limits::tree_bytes() {
            return Err(refused(Refusal::LargeTree));
        }
        match self.tree.put(path, bytes) {
            Ok(()) => {
                self.files += 1;
                self.size = size;
                Ok(())
            }
            Err(EditFault::Refused(_)) => unreachable!(),
            Err(EditFault::Memory) => Err(Fault::Memory),
        }
    }

    fn grow_by(&mut self, path: Path, file: Option<Vec<u8>>) -> Result<(), StartFault>
        requires { admits self.old.fixed self.old.staged path ≡ true }
        ensures gives { (text : Option (List ℕ)) → IsFront (file_seen file) text →
            GivesTree result self.new.staged (grown_by self.old.staged path text) }
        ensures fixed { self.new.fixed ≡ self.old.fixed }
        ensures kept { KeepsFolder result }
    {
        match file {
            None => Ok(()),
            Some(bytes) => self.grow(path, bytes),
        }
    }
}

// Takes one more listed path into the tree, or passes it over.
fn take_text<F: Folder>(
    alloc: Global,
    folder: &mut F,
    tree: &mut Mounting,
    text: &str,
) -> Result<(), StartFault>
    ensures told { (fixed : paths.Path) → tree.old.fixed ≡ fixed ∷ [] → IfSome (F.listing folder.old) (λ l.
        GivesTree result tree.new.staged (with_text fixed l.files tree.old.staged text.now)) }
    ensures fixed { tree.new.fixed ≡ tree.old.fixed }
    ensures same { F.listing folder.new ≡ F.listing folder.old }
    ensures cause { CountsStart result (F.faults folder.old) (F.faults folder.new) }
{
    let Some(path) = tree.taken_path(alloc, text)? else {
        return Ok(());
    };
    let file = read_file(alloc, folder, text)?;
    tree.grow_by(path, file)
}

fn take_listed<F: Folder>(
    alloc: Global,
    folder: &mut F,
    tree: &mut Mounting,
    bytes: &[u8],
) -> Result<(), StartFault>
    ensures told { (fixed : paths.Path) → tree.old.fixed ≡ fixed ∷ [] → IfSome (F.listing folder.old) (λ l.
        GivesTree result tree.new.staged (with_listed fixed l.files tree.old.staged bytes.now)) }
    ensures fixed { tree.new.fixed ≡ tree.old.fixed }
    ensures same { F.listing folder.new ≡ F.listing folder.old }
    ensures cause { CountsStart result (F.faults folder.old) (F.faults folder.new) }
{
    match std::str::from_utf8(bytes) {
        Err(_) => Ok(()),
        Ok(text) => take_text(alloc, folder, tree, text),
    }
}

// The tree of the listed paths.
fn mount<F: Folder>(
    alloc: Global,
    folder: &mut F,
    fixed: &Path,
    listing: &[Vec<u8>],
) -> Result<StagedTree, StartFault>
    ensures told { IfSome (F.listing folder.old) (λ l.
        Gives (λ tree. tree.staged) result (mounted fixed.now l.files [] (texts_seen listing.now))) }
    ensures cause { CountsStart result (F.faults folder.old) (F.faults folder.new) }
{
    let mut mounting = Mounting::new(alloc, fixed.copy(alloc)?)?;
    'paths: for bytes in listing {
        match take_listed(alloc, folder, &mut mounting, bytes) {
            Ok(()) => {}
            Err(fault) => return Err(fault),
        }
    }
    Ok(mounting.tree)
}

/// The tree of the paths that are still to be listed. It is staged.
pub(crate) fn tree_in<F: Folder>(
    alloc: Global,
    folder: &mut F,
    fixed: &Path,
) -> Result<StagedTree, StartFault>
    ensures told { IfSome (F.listing folder.old) (λ l. Gives (λ tree. tree.staged) result (tree_of fixed.now l)) }
    ensures cause { CountsStart result (F.faults folder.old) (F.faults folder.new) }
{
    let listing = listing_of(alloc, folder)?;
    mount(alloc, folder, fixed, &listing)
}
