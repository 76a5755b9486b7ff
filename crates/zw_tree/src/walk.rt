//! The walk through a directory, from file to file.
ghost use Rattle.std.specs.Prelude.{◌≡◌, IfOk, map, string_bytes};
ghost use Rattle.zw_def.specs.Path.{path_text};
ghost use Rattle.zw_def.specs.Visible.{keys_of};
ghost use Rattle.zw_path.specs.Shape.{IsPath};
ghost use Rattle.zw_tree.specs.Row.{told};
ghost use Rattle.zw_tree.specs.Strict.{ArePaths};

use crate::folder::{Folder, Node};
use std::alloc::{AllocError, Global};
use zw_path::Path;

/// The components with `/` between them.
fn joined(alloc: Global, components: &[&str]) -> Result<String, AllocError>
    requires { IsPath (map (λ c. c.now) components.now) }
    ensures { IfOk result (λ text. string_bytes text ≡ path_text (map (λ c. c.now) components.now)) }
{
    let mut text = String::from_str(alloc, components[0])?;
    for place in 1..components.len() {
        text.push('/')?;
        text.push_str(components[place])?;
    }
    Ok(text)
}

/// The path of these components.
fn path_of(alloc: Global, components: &[&str]) -> Result<Path, AllocError>
    requires { IsPath (map (λ c. c.now) components.now) }
    ensures { IfOk result (λ path. path ≡ map (λ c. c.now) components.now) }
{
    let text = joined(alloc, components)?;
    match Path::parse(alloc, text.as_str()) {
        Ok(path) => Ok(path),
        Err(_) => Err(AllocError),
    }
}

impl Folder {
    /// The paths of the files below this directory, in path order. What is left of each directory on the way down is
    /// kept, so that no stack is taken for a level.
    pub(crate) fn paths(&self, alloc: Global) -> Result<Vec<Path>, AllocError>
        requires { ArePaths (told self.now) }
        ensures { IfOk result (λ paths. paths.items ≡ keys_of (told self.now)) }
    {
        let mut paths = Vec::new(alloc);
        let mut above = Vec::new(alloc);
        let mut names = Vec::new(alloc);
        let mut here = self.entries();
        'walk: loop {
            let Some((entry, rest)) = here.split_first() else {
                let Some(rest) = above.pop() else {
                    return Ok(paths);
                };
                names.pop();
                here = rest;
                continue;
            };
            names.push(entry.name.as_str())?;
            match &entry.node {
                Node::File(_) => {
                    paths.push(path_of(alloc, names.as_slice())?)?;
                    names.pop();
                    here = rest;
                }
                Node::Directory(folder) => {
                    above.push(rest)?;
                    here = folder.entries();
                }
            }
        }
    }
}
