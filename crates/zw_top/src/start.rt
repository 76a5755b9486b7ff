//! The start of a session: configuration, listing, tree.
ghost use Rattle.std.specs.Prelude.{◌≡◌, IfOk, IfSome, map};
ghost use Rattle.zw_def_session.specs.Settings.{is_bare};
ghost use Rattle.zw_def_thin.specs.Root.{Plan as Defined};
ghost use Rattle.zw_def_thin.specs.Session.{console_of, session_in, with_bare_words, with_namespaces, world_below};
ghost use Rattle.zw_args.specs.Settings.{settings_seen};
ghost use Rattle.zw_thin.specs.File.{file_seen};
ghost use Rattle.zw_view.specs.View.{IsNamed, IsView};
ghost use Rattle.zw_top.specs.Refusal.{Gives, KeepsFolder, CountsStart};
ghost use Rattle.zw_top.specs.Session.{ConsoleStands, started_with};
ghost use Rattle.zw_top.specs.Start.{GivesSession, IsPlanNamed, plan_seen};

use crate::configuration::{Plan, plan_at};
use crate::mount::tree_in;
use crate::refusal::{Refusal, StartFault, refused};
use crate::session::Session;
use std::alloc::{AllocError, Global};
use zw_args::Settings;
use zw_io::Folder;
use zw_path::Path;
use zw_thin::{File, Session as Console, SessionFault};
use zw_tree::Tree;
use zw_view::View;

// The files of a tree.
fn files_of<'a>(alloc: Global, tree: &'a Tree) -> Result<Vec<File<'a>>, AllocError>
    ensures { IfOk result (λ files. map file_seen files.items ≡ tree.now) }
{
    tree.is_tree();
    let mut files = Vec::new(alloc);
    for path in tree.paths(alloc)? {
        if let Some(text) = tree.text(&path) {
            files.push(File { path, text })?;
        }
    }
    Ok(files)
}

// The first path's constants below a root, where it carries out each visible file.
fn console_below(
    alloc: Global,
    root: &Path,
    files: &[File<'_>],
) -> Result<Option<Console>, AllocError>
    ensures { IfOk result (ConsoleStands (world_below root.now (map file_seen files.now))) }
{
    match Console::new(alloc, root, files) {
        Ok(console) => Ok(Some(console)),
        Err(SessionFault::Refused(_)) => Ok(None),
        Err(SessionFault::Memory) => Err(AllocError),
    }
}

// The first path's constants, where that answers `run`.
fn console_of(
    alloc: Global,
    path: &Path,
    root: Option<Path>,
    view: &View,
    tree: &Tree,
) -> Result<Option<Console>, AllocError>
    ensures { (plan : Defined) → plan.root ≡ root → IsView plan.layout tree.now view.now →
        IfOk result (ConsoleStands (console_of path.now plan tree.now)) }
{
    if view.is_empty() {
        return console_below(alloc, path, &[]);
    }
    match root {
        Some(root) => console_below(alloc, &root, &files_of(alloc, tree)?),
        None => Ok(None),
    }
}

// The session over a tree, unless a root's namespace is missing.
fn session_over(alloc: Global, path: &Path, plan: Plan, tree: &Tree) -> Result<Session, StartFault>
    requires { IsPlanNamed plan }
    ensures gives { GivesSession result (with_namespaces path.now (plan_seen plan) tree.now) }
    ensures named { IfOk result (λ s. IsNamed s.view) }
    ensures kept { KeepsFolder result }
{
    let Plan {
        names,
        layout,
        root,
    } = plan;
    let view = View::new(alloc, names, layout, tree)?;
    if let Some(text) = view.stray_namespace(alloc)? {
        return Err(refused(Refusal::BadNamespace(text)));
    }
    let console = console_of(alloc, path, root, &view, tree)?;
    Ok(Session { view, console })
}

fn session_in<F: Folder>(
    alloc: Global,
    folder: &mut F,
    path: &Path,
    plan: Plan,
) -> Result<Session, StartFault>
    requires { IsPlanNamed plan }
    ensures told { IfSome (F.listing folder.old) (λ l. GivesSession result (session_in path.now l (plan_seen plan))) }
    ensures named { IfOk result (λ s. IsNamed s.view) }
    ensures cause { CountsStart result (F.faults folder.old) (F.faults folder.new) }
{
    let tree = tree_in(alloc, folder, path)?;
    session_over(alloc, path, plan, tree.staged())
}

// The plan, where the words have neither flags nor options.
fn bare_plan(settings: &Settings, plan: Plan) -> Result<Plan, StartFault>
    requires { IsPlanNamed plan }
    ensures gives { Gives plan_seen result (with_bare_words (is_bare (settings_seen settings.now)) (plan_seen plan)) }
    ensures named { IfOk result IsPlanNamed }
    ensures kept { KeepsFolder result }
{
    if settings.is_bare() {
        Ok(plan)
    } else {
        Err(refused(Refusal::OtherConfiguration))
    }
}

/// The session of settings and a folder.
pub(crate) fn start<F: Folder>(
    alloc: Global,
    folder: &mut F,
    settings: &Settings,
) -> Result<Session, StartFault>
    ensures told { IfSome (F.listing folder.old) (λ l.
        GivesSession result (started_with (settings_seen settings.now) l)) }
    ensures named { IfOk result (λ s. IsNamed s.view) }
    ensures cause { CountsStart result (F.faults folder.old) (F.faults folder.new) }
{
    let plan = plan_at(alloc, folder, &settings.config)?;
    let plan = bare_plan(settings, plan)?;
    session_in(alloc, folder, &settings.config, plan)
}
