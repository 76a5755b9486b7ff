//! A tree that is edited, and the tree that is mounted.
ghost use Rattle.std.specs.Prelude.{◌≡◌, ℕ, List, ◌+◌, ◌<◌, ◌≤◌, ◌^◌, ◌||◌, nat_lt, [], length, not, Some, None, true, is_some, IfOk, OnOk, OnErr, if◌then◌else◌};
ghost use Rattle.std.specs.List.{list_any};
ghost use Rattle.zw_def.specs.Path.{same_path};
ghost use Rattle.zw_def.specs.Tree.{admits, is_ruby_path, size_of};
ghost use Rattle.zw_base.specs.Fault.{IfRefused};
ghost use Rattle.zw_tree.specs.Text.{text_at};
ghost use Rattle.zw_tree.specs.Edit.{is_blocked, tree_with};
ghost use Rattle.zw_tree.specs.Stage.{AgreeBut, AgreeOn, AreSame, IsPartOf, IsRising, IsStage, LacksAll, del_refusal, del_stage, Grows, max_file, max_files, max_tree, path_refusal, put_refusal, put_stage, touches};
ghost use Rattle.zw_tree.specs.StageSeen.{stage_of};
ghost use Rattle.zw_tree.specs.declared.fault.TreeFault.TheVariants.{Fixed, NotRuby, InTheWay, Missing, TooLarge};

use crate::fault::{EditFault, TreeFault};
use crate::ruby::is_ruby;
use crate::shared::Shared;
use crate::tree::Tree;
use std::alloc::{AllocError, Global};
use std::marker::Model;
use std::mem;
use zw_path::Path;

/// The staged tree, which edits change, the mounted one, and the paths that were edited since the last mount. Bytes
/// are shared by both trees.
#[derive(Drop)]
pub struct StagedTree {
    alloc: Global,
    fixed: Vec<Path>,
    staged: Tree,
    mounted: Tree,
    touched: Vec<Path>,
    files: usize,
    size: usize,
}

impl Model for StagedTree {
    ghost use Rattle.std.specs.Prelude.{◌≡◌, length};
    ghost use Rattle.zw_def.specs.Tree.{size_of};
    ghost use Rattle.zw_tree.specs.Stage.{Stage, IsStage};
    ghost use Rattle.zw_tree.specs.StageSeen.{stage_of};

    ghost Value = { Stage };

    ghost view = { λ s. stage_of s.fixed.items s.staged s.mounted s.touched.items };

    ghost invariant = { λ s.
        IsStage (stage_of s.fixed.items s.staged s.mounted s.touched.items)
        × (s.files ≡ length s.staged) × (s.size ≡ size_of s.staged) };
}

/// The paths that were put or taken out since the last mount, in path order, each once.
#[derive(Drop)]
pub struct Touched {
    pub paths: Vec<Path>,
}

/// The files that a tree may have.
#[tactic(auto, unfolding(crate::specs::Stage::max_files))]
fn most_files() -> usize
    ensures { result ≡ max_files }
{
    100_000
}

/// The bytes that one file may have.
#[tactic(auto, unfolding(crate::specs::Stage::max_file))]
fn most_file_bytes() -> usize
    ensures { result ≡ max_file }
{
    1_048_576
}

/// The bytes that the files of a tree may have together.
#[tactic(auto, unfolding(crate::specs::Stage::max_tree))]
fn most_tree_bytes() -> usize
    ensures { result ≡ max_tree }
{
    268_435_456
}

/// Whether a limit is passed by a tree of so many files, of which one has so many bytes, and all together so many.
fn is_too_large(files: usize, size: usize, all: usize) -> bool
    ensures { result ≡ (nat_lt max_files files || nat_lt max_file size || nat_lt max_tree all) }
{
    files > most_files() || size > most_file_bytes() || all > most_tree_bytes()
}

/// Takes the files at these paths out of the tree.
fn take_out(alloc: Global, tree: &mut Tree, paths: &[Path]) -> Result<(), AllocError>
    ensures kept { AgreeBut paths.now tree.new tree.old }
    ensures gone { OnOk result (LacksAll paths.now tree.new) }
{
    for path in paths {
        tree.del(alloc, path)?;
    }
    Ok(())
}

/// Puts those files of the staged tree that have these paths into a part of it.
fn put_in(alloc: Global, tree: &mut Tree, staged: &Tree, paths: &[Path]) -> Result<(), AllocError>
    requires part { IsPartOf tree.old staged.now }
    ensures kept { AgreeBut paths.now tree.new tree.old }
    ensures same { OnOk result (AgreeOn paths.now tree.new staged.now) }
{
    staged.is_tree();
    for path in paths {
        if let Some(bytes) = staged.bytes(path) {
            tree.put(alloc, path, bytes.share()?)?;
        }
    }
    Ok(())
}

impl StagedTree {
    /// Two trees without files. No edit may name a fixed path.
    pub fn new(alloc: Global, fixed: Vec<Path>) -> StagedTree
        ensures { result ≡ stage_of fixed.items [] [] [] }
    {
        StagedTree {
            alloc,
            fixed,
            staged: Tree::new(alloc),
            mounted: Tree::new(alloc),
            touched: Vec::new(alloc),
            files: 0,
            size: 0,
        }
    }

    /// The tree that edits change.
    pub fn staged(&self) -> &Tree
        ensures { result.now ≡ self.now.staged }
    {
        &self.staged
    }

    /// The tree that was staged when `mount` was last called, or one without files.
    pub fn mounted(&self) -> &Tree
        ensures { result.now ≡ self.now.mounted }
    {
        &self.mounted
    }

    /// Whether a listed path is taken: it is one of a Ruby file and not fixed, it is no file and no directory of the
    /// staged tree, and it stands below no file. Takes no memory.
    pub fn admits(&self, path: &Path) -> bool
        ensures { result ≡ admits self.now.fixed self.now.staged path.now }
    {
        is_ruby(path) && !self.is_fixed(path) && !self.staged.is_in_the_way(path)
    }

    fn is_fixed(&self, path: &Path) -> bool
        ensures { result ≡ list_any (same_path path.now) self.now.fixed }
    {
        self.fixed.iter().any(|fixed| path == fixed)
    }

    /// Why no edit may name the path.
    fn refusal(&self, path: &Path) -> Option<TreeFault>
        ensures { result ≡ path_refusal self.now path.now }
    {
        if self.is_fixed(path) {
            Some(TreeFault::Fixed)
        } else if !is_ruby(path) {
            Some(TreeFault::NotRuby)
        } else {
            None
        }
    }

    /// How many files and bytes the staged tree has after a put, or why nothing is put.
    #[tactic(auto, unfolding(crate::specs::Stage::max_files, crate::specs::Stage::max_tree))]
    fn grown(&self, path: &Path, size: usize) -> Result<(usize, usize), TreeFault>
        requires { size < 2 ^ 63 }
        ensures { Grows self.now path.now size result }
    {
        if let Some(fault) = self.refusal(path) {
            return Err(fault);
        }
        let Some((old_files, old_size)) = self.staged.held(path) else {
            return Err(TreeFault::InTheWay);
        };
        self.staged.is_tree();
        let files = self.files - old_files + 1;
        let all = self.size - old_size + size;
        if is_too_large(files, size, all) {
            return Err(TreeFault::TooLarge);
        }
        Ok((files, all))
    }

    /// Puts the bytes at the path of the staged tree, over a file that is there.
    pub fn put(&mut self, path: Path, bytes: Vec<u8>) -> Result<(), EditFault>
        ensures refused { IfRefused result (λ fault. put_refusal self.old path bytes.items ≡ Some fault) }
        ensures cause { OnOk result (put_refusal self.old path bytes.items ≡ None) }
        ensures ok { OnOk result (self.new ≡ put_stage self.old path bytes.items) }
        ensures err { OnErr result (self.new ≡ self.old) }
    {
        let (files, size) = match self.grown(&path, bytes.len()) {
            Ok(grown) => grown,
            Err(fault) => return Err(EditFault::Refused(fault)),
        };
        let bytes = Shared::new(self.alloc, bytes)?;
        self.touched.reserve(1)?;
        self.staged.put(self.alloc, &path, bytes)?;
        self.touched.push_reserved(path);
        self.files = files;
        self.size = size;
        Ok(())
    }

    /// Takes the file at the path out of the staged tree.
    pub fn del(&mut self, path: &Path) -> Result<(), EditFault>
        ensures refused { IfRefused result (λ fault. del_refusal self.old path.now ≡ Some fault) }
        ensures cause { OnOk result (del_refusal self.old path.now ≡ None) }
        ensures ok { OnOk result (self.new ≡ del_stage self.old path.now) }
        ensures err { OnErr result (self.new ≡ self.old) }
    {
        if let Some(fault) = self.refusal(path) {
            return Err(EditFault::Refused(fault));
        }
        let Some(bytes) = self.staged.text(path) else {
            return Err(EditFault::Refused(TreeFault::Missing));
        };
        self.staged.is_tree();
        let size = self.size - bytes.len();
        let noted = path.copy(self.alloc)?;
        self.touched.reserve(1)?;
        self.staged.del(self.alloc, path)?;
        self.touched.push_reserved(noted);
        self.files -= 1;
        self.size = size;
        Ok(())
    }

    /// Makes the staged tree the mounted one, and tells the paths that were edited since the last mount. After want of
    /// memory the staged tree and these paths stay, some of them may be carried over, and a later call carries the rest.
    pub fn mount(&mut self) -> Result<Touched, AllocError>
        ensures staged { self.new.staged ≡ self.old.staged }
        ensures fixed { self.new.fixed ≡ self.old.fixed }
        ensures mounted { OnOk result (self.new.mounted ≡ self.old.staged) }
        ensures none { OnOk result (self.new.touched ≡ []) }
        ensures touched { OnErr result (self.new.touched ≡ self.old.touched) }
        ensures kept { AgreeBut self.old.touched self.new.mounted self.old.mounted }
        ensures paths { IfOk result (λ t. AreSame t.paths.items self.old.touched) }
        ensures rising { IfOk result (λ t. IsRising t.paths.items) }
    {
        take_out(self.alloc, &mut self.mounted, self.touched.as_slice())?;
        put_in(
            self.alloc,
            &mut self.mounted,
            &self.staged,
            self.touched.as_slice(),
        )?;
        self.mounted.is_tree();
        self.staged.is_tree();
        let touched = mem::replace(&mut self.touched, Vec::new(self.alloc));
        Ok(Touched {
            paths: distinct(touched),
        })
    }
}

/// The paths in path order, each once.
fn distinct(mut paths: Vec<Path>) -> Vec<Path>
    ensures same { AreSame result.items paths.items }
    ensures rising { IsRising result.items }
{
    paths.sort_unstable();
    paths.dedup();
    paths
}
