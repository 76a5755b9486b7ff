//! Keys: the constants that the visible files of a tree are expected to define.
ghost use Rattle.std.specs.Prelude.{◌≡◌, ◌<◌, IfOk, IfSome, OnOk, option_map, length, position, string_bytes};
ghost use Rattle.std.specs.Str.{bytes_eq};
ghost use Rattle.zw_def.specs.Names.{OnlyGrows};
ghost use Rattle.zw_def_thin.specs.Map.{is_directly_below, expected_name};
ghost use Rattle.zw_thin.specs.File.{file_seen};
ghost use Rattle.zw_thin.specs.ClassFile.{ClassNamed};
ghost use Rattle.zw_thin.specs.Key.{idle_seen, keys_seen, KeysNamed, NewKeyNamed};
ghost use Rattle.zw_thin.specs.Held.{idle_file, without_file};
ghost use Rattle.zw_thin.specs.Start.{with_names, visible_names, TellsMayDefine, ReadsKey, Adds, TakesIn};

use crate::class_file::{self, ClassFile};
use crate::file::File;
use crate::inflector::camelize;
use crate::words::Words;
use indexmap::IndexMap;
use std::alloc::{AllocError, Global};
use zw_base::is_plain_word;
use zw_names::{Name, Names, is_constant};
use zw_path::Path;

/// A file that was not evaluated yet.
#[derive(Drop)]
pub(crate) struct IdleFile {
    pub(crate) path: Path,
    pub(crate) class: ClassFile,
}

/// The constants that files are expected to define, each with its file until this is evaluated, in the order of the
/// files.
pub(crate) type Keys = IndexMap<Name, Option<IdleFile>>;

/// A key that is to be taken in.
#[derive(Drop)]
struct Key {
    name: Name,
    file: IdleFile,
}

/// Whether a path is the root's components and one more.
fn is_directly_below(root: &Path, path: &Path) -> bool
    ensures { result ≡ is_directly_below root.now path.now }
{
    path.is_below(root) && path.components().len() == root.components().len() + 1
}

/// The constant that a file is expected to define, where it stands directly below the root and its base name gives one.
fn expected_name(alloc: Global, root: &Path, file: &File<'_>) -> Result<Option<String>, AllocError>
    ensures { IfOk result (λ name. option_map string_bytes name ≡ expected_name root.now (file_seen file.now)) }
{
    if !is_directly_below(root, &file.path) {
        return Ok(None);
    }
    let name = camelize(alloc, file.path.base())?;
    if is_constant(&name) {
        Ok(Some(name))
    } else {
        Ok(None)
    }
}

/// Makes the names of the constants that the visible files are expected to define, in the order of the files.
pub(crate) fn make_names(
    alloc: Global,
    names: &mut Names,
    root: &Path,
    files: &[File<'_>],
) -> Result<(), AllocError>
    ensures { OnOk result (names.new ≡ with_names names.old (visible_names root.now files.now)) }
{
    for file in files {
        if !file.path.is_below(root) {
            continue;
        }
        if let Some(name) = expected_name(alloc, root, file)? {
            names.intern(&name)?;
        }
    }
    Ok(())
}

/// Whether the class is the one that is expected, or one that no file is expected to define. So many names, which were
/// made first, are those of constants that files are expected to define.
fn may_define(names: &Names, expected: usize, name: Name, class: &ClassFile) -> bool
    requires name { name.0 < length names.now }
    requires class { ClassNamed names.now class.now }
    ensures { TellsMayDefine expected names.now name class.now result }
{
    names.are_distinct();
    class.name == name || class.name.0 >= expected
}

/// The key of a visible file, if the file is carried out so far, where so many names are those of constants that files
/// are expected to define.
fn read(
    alloc: Global,
    words: &Words,
    names: &mut Names,
    expected: usize,
    root: &Path,
    file: &File<'_>,
) -> Result<Option<Key>, AllocError>
    ensures told { IfOk result (ReadsKey expected root.now file.now names.old names.new) }
    ensures named { IfOk result (λ key. IfSome key (NewKeyNamed names.new)) }
    ensures grows { OnlyGrows names.old names.new }
{
    if !is_plain_word(file.path.base().as_bytes()) {
        return Ok(None);
    }
    let Some(name) = expected_name(alloc, root, file)? else {
        return Ok(None);
    };
    if words.is_core(&name) {
        return Ok(None);
    }
    let name = names.intern(&name)?;
    let Some(class) = class_file::read(alloc, words, names, file.text)? else {
        return Ok(None);
    };
    if !may_define(names, expected, name, &class) {
        return Ok(None);
    }
    let path = file.path.copy(alloc)?;
    let file = IdleFile { path, class };
    Ok(Some(Key { name, file }))
}

/// Adds a key, unless there is one of its name.
fn add(names: &Names, keys: &mut Keys, key: Key) -> Result<bool, AllocError>
    requires keys { KeysNamed names.now keys.old.entries }
    requires key { NewKeyNamed names.now key }
    ensures told { IfOk result (Adds names.now key keys.old.entries keys.new.entries) }
    ensures named { OnOk result (KeysNamed names.now keys.new.entries) }
{
    names.are_distinct();
    if keys.contains_key(&key.name) {
        return Ok(false);
    }
    keys.insert(key.name, Some(key.file))?;
    Ok(true)
}

/// Takes in the key of a visible file, if the file is carried out so far and no earlier one has its name. So many
/// names, which were made first, are those of constants that files are expected to define.
pub(crate) fn take_in(
    alloc: Global,
    words: &Words,
    names: &mut Names,
    expected: usize,
    root: &Path,
    keys: &mut Keys,
    file: &File<'_>,
) -> Result<bool, AllocError>
    requires named { KeysNamed names.old keys.old.entries }
    ensures taken { IfOk result (TakesIn expected names.old root.now file.now
        (keys_seen names.old keys.old.entries) (keys_seen names.new keys.new.entries)) }
    ensures named { OnOk result (KeysNamed names.new keys.new.entries) }
    ensures grows { OnlyGrows names.old names.new }
{
    match read(alloc, words, names, expected, root, file)? {
        None => Ok(false),
        Some(key) => add(names, keys, key),
    }
}

fn place_of(names: &Names, keys: &Keys, name: &str) -> Option<usize>
    requires { KeysNamed names.now keys.now.entries }
    ensures { result ≡ position (λ k. bytes_eq k.name name.now) (keys_seen names.now keys.now.entries) }
{
    let name = names.find(name)?;
    keys.get_index_of(&name)
}

/// Takes the file of a name's key out of it, where it was not evaluated yet.
pub(crate) fn take_file(names: &Names, keys: &mut Keys, name: &str) -> Option<IdleFile>
    requires { KeysNamed names.now keys.old.entries }
    ensures taken { option_map (idle_seen names.now) result
        ≡ idle_file name.now (keys_seen names.now keys.old.entries) }
    ensures left { keys_seen names.now keys.new.entries
        ≡ without_file name.now (keys_seen names.now keys.old.entries) }
    ensures taken_named { IfSome result (λ f. ClassNamed names.now f.class) }
    ensures left_named { KeysNamed names.now keys.new.entries }
{
    let place = place_of(names, keys, name)?;
    keys[place].take()
}
