//! The inflector.
ghost use Rattle.std.specs.Prelude.{◌≡◌, IfOk, Ok, map, string_bytes};
ghost use Rattle.zw_def.specs.Inflector as spec;
ghost use Rattle.zw_def.specs.Path.{same_path};
ghost use Rattle.zw_def.specs.Base.{without_rb};
ghost use Rattle.zw_inflect.specs.Gem.{is_gem_directory};
ghost use Rattle.zw_inflect.specs.Inflector.{inflector_seen, Camelizes};

use crate::overrides::Overrides;
use crate::parts::camelize;
use std::alloc::{AllocError, Global};
use thiserror::Error;
use zw_base::Fault;
use zw_names::is_constant;
use zw_path::Path;

/// How names of constants are made from names of files (Zeitwerk README, "Inflection").
#[derive(Drop)]
pub enum Inflector {
    /// An override, or else the parts of the base, each capitalized.
    Default(Overrides),
    /// The same but for `version.rb` of the gem with this main file, which is `VERSION`.
    Gem(Overrides, Path),
}

/// The text that the inflector makes of a base is no name of a constant.
#[derive(Debug, Drop, Error)]
#[error("wrong name {0}")]
pub struct WrongName(pub String);

/// Why no name is made.
pub type InflectFault = Fault<WrongName>;

const RUBY_ENDING: &str = ".rb";

const VERSION_BASE: &str = "version";

const VERSION_FILE: &str = "version.rb";

const VERSION_NAME: &str = "VERSION";

// ---- the gem's version file

fn stem(name: &str) -> &str
    ensures { result.now ≡ without_rb name.now }
{
    match name.strip_suffix(RUBY_ENDING) {
        Some(stem) => stem,
        None => name,
    }
}

// Whether the components are those of the directory that has the name of the gem's main file.
fn is_gem_directory(main: &[String], directory: &[String]) -> bool
    ensures { result ≡ is_gem_directory (map string_bytes main.now) (map string_bytes directory.now) }
{
    let Some((file, above)) = main.split_last() else {
        return false;
    };
    let Some((name, others)) = directory.split_last() else {
        return false;
    };
    name.as_str() == stem(file) && others == above
}

fn is_version_file(main: &[String], path: &[String]) -> bool
    ensures { result ≡ same_path (map string_bytes path.now) (spec.version_file (map string_bytes main.now)) }
{
    let Some((file, directory)) = path.split_last() else {
        return main.is_empty();
    };
    file.as_str() == VERSION_FILE && is_gem_directory(main, directory)
}

// ---- names

fn inflect(alloc: Global, overrides: &Overrides, base: &str) -> Result<String, AllocError>
    ensures { IfOk result (λ name. string_bytes name ≡ spec.inflected_by overrides.now base.now) }
{
    match overrides.name_of(base) {
        Some(name) => String::from_str(alloc, name),
        None => camelize(alloc, base),
    }
}

impl Inflector {
    // The text that the inflector makes of a base, be it a name or not.
    fn text(&self, alloc: Global, base: &str, path: &[String]) -> Result<String, AllocError>
        ensures { IfOk result (λ name.
            string_bytes name ≡ spec.inflected (inflector_seen self.now) base.now (map string_bytes path.now)) }
    {
        match self {
            Inflector::Default(overrides) => inflect(alloc, overrides, base),
            Inflector::Gem(overrides, main) => {
                if base == VERSION_BASE && is_version_file(main.components(), path) {
                    String::from_str(alloc, VERSION_NAME)
                } else {
                    inflect(alloc, overrides, base)
                }
            }
        }
    }

    /// The name of a constant that the base of a path's last component gives; of a file that is the component without
    /// its `.rb`.
    pub fn camelize(&self, alloc: Global, base: &str, path: &Path) -> Result<String, InflectFault>
        ensures { Camelizes result (spec.constant_inflected (inflector_seen self.now) base.now path.now) }
    {
        self.camelize_at(alloc, base, path.components())
    }

    /// The same of the path of these components.
    pub fn camelize_at(
        &self,
        alloc: Global,
        base: &str,
        path: &[String],
    ) -> Result<String, InflectFault>
        ensures { Camelizes result (
            spec.constant_inflected (inflector_seen self.now) base.now (map string_bytes path.now)) }
    {
        let name = self.text(alloc, base, path)?;
        if is_constant(&name) {
            Ok(name)
        } else {
            Err(InflectFault::Refused(WrongName(name)))
        }
    }

    /// The same inflector.
    pub fn copy(&self, alloc: Global) -> Result<Inflector, AllocError>
        ensures { IfOk result (λ copy. inflector_seen copy ≡ inflector_seen self.now) }
    {
        Ok(match self {
            Inflector::Default(overrides) => Inflector::Default(overrides.copy()?),
            Inflector::Gem(overrides, main) => Inflector::Gem(overrides.copy()?, main.copy(alloc)?),
        })
    }
}
