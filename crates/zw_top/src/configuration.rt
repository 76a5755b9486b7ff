//! The configuration: its file, and what is carried out of it.
ghost use Rattle.std.specs.Prelude.{◌≡◌, ℕ, List, Option, None, Err, IfOk, IfErr, IfSome, if◌then◌else◌, map};
ghost use Rattle.toml.specs.View.{items_view, table_view, view};
ghost use Rattle.zw_def.specs.Text.{Text};
ghost use Rattle.zw_def.specs.Path as paths;
ghost use Rattle.zw_def.specs.Path.{path_of};
ghost use Rattle.zw_inflect.specs.Layout.{layout_seen, root_seen};
ghost use Rattle.zw_config.specs.Config.{IsNamed, config_seen};
ghost use Rattle.zw_def_thin.specs.Mount.{configuration_by, configuration_text};
ghost use Rattle.zw_def_thin.specs.Root as defined;
ghost use Rattle.zw_def_thin.specs.Session.{plan_at};
ghost use Rattle.zw_io.specs.FolderAnswers.{CountsFail};
ghost use Rattle.zw_top.specs.Refusal.{Gives, KeepsFolder, CountsStart};
ghost use Rattle.zw_top.specs.Start.{IsPlanNamed, plan_seen};
ghost use Rattle.zw_top.specs.Reading.{IsOuter, IsFront, ReadsFile, file_seen};

use crate::limits;
use crate::refusal::{Refusal, StartFault, Stop, refused};
use std::alloc::{AllocError, Global};
use toml::{Table, Value};
use zw_base::Fault;
use zw_config::{Config, ReadFault, has_only, read_table, table_of, value_at};
use zw_inflect::{Layout, Root};
use zw_io::{Fail, Folder};
use zw_names::Names;
use zw_path::{Path, PathFault};

/// The path that a text tells, if it tells one.
pub(crate) fn path_from(alloc: Global, text: &str) -> Result<Option<Path>, AllocError>
    ensures { IfOk result (λ path. path ≡ path_of text.now) }
{
    match Path::parse(alloc, text) {
        Ok(path) => Ok(Some(path)),
        Err(PathFault::Refused(_)) => Ok(None),
        Err(PathFault::Memory) => Err(AllocError),
    }
}

/// What a call of the folder that gave nothing is to the start.
pub(crate) fn fault_of(fail: Fail) -> StartFault
    ensures outer { IsOuter result }
    ensures cause { (before : ℕ) (after : ℕ) →
        CountsFail {T = Unit {0}} (Err fail) before after → CountsStart {X = Unit {0}} (Err result) before after }
{
    match fail {
        Fail::Failed => Fault::Refused(Stop::FolderFault),
        Fail::Memory => Fault::Memory,
    }
}

/// The file's bytes, of which no more are read than tell that it is too large.
pub(crate) fn read_file<F: Folder>(
    alloc: Global,
    folder: &mut F,
    path: &str,
) -> Result<Option<Vec<u8>>, StartFault>
    ensures found { IfOk result (λ file. ReadsFile (F.listing folder.old) path.now (file_seen file)) }
    ensures outer { IfErr result IsOuter }
    ensures same { F.listing folder.new ≡ F.listing folder.old }
    ensures cause { CountsStart result (F.faults folder.old) (F.faults folder.new) }
{
    let mut bytes = Vec::new(alloc);
    match folder.read(path, limits::file_bytes() + 1, &mut bytes) {
        Ok(true) => Ok(Some(bytes)),
        Ok(false) => Ok(None),
        Err(fail) => Err(fault_of(fail)),
    }
}

// The configuration's bytes, where it is there and within the limit.
fn configuration_from(
    alloc: Global,
    path: &Path,
    file: Option<Vec<u8>>,
) -> Result<Vec<u8>, StartFault>
    ensures gives { (text : Option (List ℕ)) → IsFront (file_seen file) text →
        Gives (λ v. v.items) result (configuration_by path.now text) }
    ensures kept { KeepsFolder result }
{
    let Some(bytes) = file else {
        return Err(refused(Refusal::NoConfiguration));
    };
    if bytes.len() > limits::file_bytes() {
        let path = path.copy(alloc)?;
        return Err(refused(Refusal::LargeFile(path)));
    }
    Ok(bytes)
}

fn configuration_in<F: Folder>(
    alloc: Global,
    folder: &mut F,
    path: &Path,
) -> Result<Vec<u8>, StartFault>
    ensures told { IfSome (F.listing folder.old) (λ l.
        Gives (λ v. v.items) result (configuration_text path.now l.files)) }
    ensures same { F.listing folder.new ≡ F.listing folder.old }
    ensures cause { CountsStart result (F.faults folder.old) (F.faults folder.new) }
{
    let text = path.text(alloc)?;
    let file = read_file(alloc, folder, &text)?;
    configuration_from(alloc, path, file)
}

fn is_plain_root(value: &Value) -> bool
    ensures { result ≡ defined.is_plain_root (view value.now) }
{
    match value.as_table() {
        Some(table) => has_only(table, &["path"]),
        None => false,
    }
}

#[tactic(auto, using(crate::proofs::ConfigurationLemmas::one_root, crate::proofs::ConfigurationLemmas::more_roots))]
fn is_one_root(values: &[Value]) -> bool
    ensures { result ≡ defined.is_one_root (items_view values.now) }
{
    let Some((value, rest)) = values.split_first() else {
        return false;
    };
    if rest.is_empty() {
        is_plain_root(value)
    } else {
        false
    }
}

fn has_plain_root(value: &Value) -> bool
    ensures { result ≡ defined.has_plain_root (view value.now) }
{
    match value.as_array() {
        Some(values) => is_one_root(values.as_slice()),
        None => false,
    }
}

// Whether the configuration is one of the first path: one root with its path alone, and no other keys but `reloading`.
fn is_first_path(table: &Table) -> bool
    ensures { result ≡ defined.is_first_path (table_view table.now) }
{
    if !has_only(table, &["root", "reloading"]) {
        return false;
    }
    match value_at(table, "root") {
        Some(value) => has_plain_root(value),
        None => false,
    }
}

// Whether all that the configuration has is built so far.
fn is_built(table: &Table) -> bool
    ensures { result ≡ defined.is_built (table_view table.now) }
{
    has_only(
        table,
        &[
            "root",
            "reloading",
            "ignore",
            "collapse",
            "no_eager",
            "inflect",
            "gem",
        ],
    )
}

fn first_path(alloc: Global, roots: &[Root]) -> Result<Option<Path>, AllocError>
    ensures { (names : List Text) → IfOk result (λ path. path ≡ defined.first_path (map (root_seen names) roots.now)) }
{
    match roots.first() {
        Some(root) => Ok(Some(root.path.copy(alloc)?)),
        None => Ok(None),
    }
}

// The root, where the configuration is one of the first path.
fn plain_root(alloc: Global, table: &Table, layout: &Layout) -> Result<Option<Path>, AllocError>
    ensures { (names : List Text) → IfOk result (λ root. root ≡ (if defined.is_first_path (table_view table.now) then
        defined.first_path (layout_seen names layout.now).roots else None)) }
{
    if is_first_path(table) {
        first_path(alloc, &layout.roots)
    } else {
        Ok(None)
    }
}

/// What is carried out of a configuration.
#[derive(Drop)]
pub(crate) struct Plan {
    /// The names of the layout.
    pub(crate) names: Names,
    pub(crate) layout: Layout,
    /// The root, where the configuration is one of the first path.
    pub(crate) root: Option<Path>,
}

// The plan of an accepted configuration, where all that it has is built so far.
fn built_plan(
    alloc: Global,
    table: &Table,
    names: Names,
    config: Config,
) -> Result<Plan, StartFault>
    requires { IsNamed names config }
    ensures gives { (path : paths.Path) → Gives plan_seen result
        (defined.built_plan (table_view table.now) (config_seen path names config)) }
    ensures named { IfOk result IsPlanNamed }
    ensures kept { KeepsFolder result }
{
    if !is_built(table) {
        return Err(refused(Refusal::OtherConfiguration));
    }
    let Config { layout, .. } = config;
    let root = plain_root(alloc, table, &layout)?;
    Ok(Plan {
        names,
        layout,
        root,
    })
}

fn plan_in(alloc: Global, table: &Table) -> Result<Plan, StartFault>
    ensures gives { (path : paths.Path) → Gives plan_seen result (defined.plan_in path (table_view table.now)) }
    ensures named { IfOk result IsPlanNamed }
    ensures kept { KeepsFolder result }
{
    let mut names = Names::new(alloc)?;
    match read_table(alloc, table, &mut names) {
        Ok(config) => built_plan(alloc, table, names, config),
        Err(ReadFault::Refused(fault)) => Err(refused(Refusal::BadConfiguration(fault))),
        Err(ReadFault::Memory) => Err(Fault::Memory),
    }
}

fn plan_from(alloc: Global, bytes: &[u8]) -> Result<Plan, StartFault>
    ensures gives { (path : paths.Path) → Gives plan_seen result (defined.plan_from path bytes.now) }
    ensures named { IfOk result IsPlanNamed }
    ensures kept { KeepsFolder result }
{
    match table_of(alloc, bytes) {
        Ok(table) => plan_in(alloc, &table),
        Err(ReadFault::Refused(fault)) => Err(refused(Refusal::BadConfiguration(fault))),
        Err(ReadFault::Memory) => Err(Fault::Memory),
    }
}

/// What is carried out of the configuration at the path.
pub(crate) fn plan_at<F: Folder>(
    alloc: Global,
    folder: &mut F,
    path: &Path,
) -> Result<Plan, StartFault>
    ensures told { IfSome (F.listing folder.old) (λ l. Gives plan_seen result (plan_at path.now l)) }
    ensures named { IfOk result IsPlanNamed }
    ensures same { F.listing folder.new ≡ F.listing folder.old }
    ensures cause { CountsStart result (F.faults folder.old) (F.faults folder.new) }
{
    let text = configuration_in(alloc, folder, path)?;
    plan_from(alloc, &text)
}
