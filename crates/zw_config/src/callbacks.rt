//! Callbacks (Zeitwerk README, "Callbacks").
ghost use Rattle.std.specs.Prelude.{◌≡◌, [], ◌∷◌, IfOk, IfSome, codes, map, option_map};
ghost use Rattle.std.specs.List.{All};
ghost use Rattle.toml.specs.View.{items_view, table_view, view};
ghost use Rattle.zw_def.specs.Names.{AreNamed, OnlyGrows, texts_of};
ghost use Rattle.zw_ast.specs.Named.{AreNames};
ghost use Rattle.zw_ast.specs.Node.{name_seen};
ghost use Rattle.zw_ast.specs.Program.{IsNamedProgram, program_seen};
ghost use Rattle.zw_hooks.specs.HookSeen.{hook_seen, moment_seen};
ghost use Rattle.zw_def_config.specs.Callback as spec;
ghost use Rattle.zw_def_config.specs.Key.{at};
ghost use Rattle.zw_def_config.specs.Value.{elements_after, optional, required};
ghost use Rattle.zw_config.specs.Callback.{IsNamed};
ghost use Rattle.zw_config.specs.Fault.{Gives};

use crate::fault::{ConfigFault, ReadFault, wrong_kind};
use crate::keys::{only_known, value_at};
use crate::value::{array_in, cpath_in, table_in, text_in};
use std::alloc::{AllocError, Global};
use toml::{Table, Value};
use zw_ast::Program;
use zw_hooks::{Hook, HookKind};
use zw_names::{CPath, Name, Names};
use zw_parser::{ParseFault, read_program};

// ---- when it runs

fn moment_of(word: &str) -> Option<HookKind>
    ensures { option_map moment_seen result ≡ spec.moment_of word.now }
{
    match word {
        "setup" => Some(HookKind::Setup),
        "load" => Some(HookKind::Load),
        "unload" => Some(HookKind::Unload),
        _ => None,
    }
}

fn moment_in(value: &Value) -> Result<HookKind, ReadFault>
    ensures { Gives moment_seen result (spec.moment_in (view value.now)) }
{
    let word = text_in("callback.on", value)?;
    match moment_of(word) {
        Some(on) => Ok(on),
        None => Err(wrong_kind("callback.on")),
    }
}

fn moment(table: &Table) -> Result<HookKind, ReadFault>
    ensures { Gives moment_seen result
        (required (codes "callback.on") spec.moment_in (at (codes "on") (table_view table.now))) }
{
    match value_at(table, "on") {
        Some(value) => moment_in(value),
        None => Err(wrong_kind("callback.on")),
    }
}

// ---- for which key it runs

// A callback of setup has no target.
fn target_in(
    alloc: Global,
    names: &mut Names,
    on: HookKind,
    value: &Value,
) -> Result<CPath, ReadFault>
    ensures told { Gives (texts_of names.new) result (spec.target_in (moment_seen on) (view value.now)) }
    ensures named { IfOk result (AreNamed names.new) }
    ensures grows { OnlyGrows names.old names.new }
{
    match on {
        HookKind::Setup => Err(wrong_kind("callback.target")),
        HookKind::Load => cpath_in(alloc, names, "callback.target", value),
        HookKind::Unload => cpath_in(alloc, names, "callback.target", value),
    }
}

fn target(
    alloc: Global,
    names: &mut Names,
    on: HookKind,
    table: &Table,
) -> Result<Option<CPath>, ReadFault>
    ensures told { Gives (option_map (texts_of names.new)) result
        (optional (spec.target_in (moment_seen on)) (at (codes "target") (table_view table.now))) }
    ensures named { IfOk result (λ target. IfSome target (AreNamed names.new)) }
    ensures grows { OnlyGrows names.old names.new }
{
    match value_at(table, "target") {
        None => Ok(None),
        Some(value) => Ok(Some(target_in(alloc, names, on, value)?)),
    }
}

// ---- what is evaluated

// The variables that a callback of a key knows.
fn known_words(alloc: Global, names: &mut Names) -> Result<Vec<Name>, AllocError>
    ensures told { IfOk result (λ known. map (name_seen names.new) known.items ≡ map codes ("cpath" ∷ "value" ∷ "path" ∷ [])) }
    ensures named { IfOk result (λ known. AreNames names.new known.items) }
    ensures grows { OnlyGrows names.old names.new }
{
    let cpath = names.intern("cpath")?;
    let value = names.intern("value")?;
    let path = names.intern("path")?;
    Vec::from_slice(alloc, &[cpath, value, path])
}

// The variables that are known where it begins.
fn known_at(alloc: Global, names: &mut Names, on: HookKind) -> Result<Vec<Name>, AllocError>
    ensures told { IfOk result (λ known. map (name_seen names.new) known.items ≡ spec.known_at (moment_seen on)) }
    ensures named { IfOk result (λ known. AreNames names.new known.items) }
    ensures grows { OnlyGrows names.old names.new }
{
    match on {
        HookKind::Setup => Ok(Vec::new(alloc)),
        HookKind::Load => known_words(alloc, names),
        HookKind::Unload => known_words(alloc, names),
    }
}

fn program_in(
    alloc: Global,
    names: &mut Names,
    on: HookKind,
    value: &Value,
) -> Result<Program, ReadFault>
    ensures told { Gives (program_seen names.new) result (spec.program_in (moment_seen on) (view value.now)) }
    ensures named { IfOk result (IsNamedProgram names.new) }
    ensures grows { OnlyGrows names.old names.new }
{
    let text = text_in("callback.run", value)?;
    let known = known_at(alloc, names, on)?;
    match read_program(alloc, text.as_bytes(), &known, names) {
        Ok(program) => Ok(program),
        Err(ParseFault::Refused(_)) => {
            Err(ReadFault::Refused(ConfigFault::BadRuby("callback.run")))
        }
        Err(ParseFault::Memory) => Err(ReadFault::Memory),
    }
}

fn program(
    alloc: Global,
    names: &mut Names,
    on: HookKind,
    table: &Table,
) -> Result<Program, ReadFault>
    ensures told { Gives (program_seen names.new) result
        (required (codes "callback.run") (spec.program_in (moment_seen on)) (at (codes "run") (table_view table.now))) }
    ensures named { IfOk result (IsNamedProgram names.new) }
    ensures grows { OnlyGrows names.old names.new }
{
    match value_at(table, "run") {
        Some(value) => program_in(alloc, names, on, value),
        None => Err(wrong_kind("callback.run")),
    }
}

// ---- callbacks

#[tactic(auto, unfolding(zw_def_config::specs::Callback::callback_of_table))]
fn callback_of_table(alloc: Global, names: &mut Names, table: &Table) -> Result<Hook, ReadFault>
    ensures told { Gives (hook_seen names.new) result (spec.callback_of_table (table_view table.now)) }
    ensures named { IfOk result (IsNamed names.new) }
    ensures grows { OnlyGrows names.old names.new }
{
    let on = moment(table)?;
    let target = target(alloc, names, on, table)?;
    let program = program(alloc, names, on, table)?;
    Ok(Hook {
        on,
        target,
        program,
    })
}

fn callback_in(alloc: Global, names: &mut Names, value: &Value) -> Result<Hook, ReadFault>
    ensures told { Gives (hook_seen names.new) result (spec.callback_in [] (view value.now)) }
    ensures named { IfOk result (IsNamed names.new) }
    ensures grows { OnlyGrows names.old names.new }
{
    let table = table_in("callback", value)?;
    only_known(alloc, "callback.", &["on", "target", "run"], table)?;
    callback_of_table(alloc, names, table)
}

fn callbacks_in(alloc: Global, names: &mut Names, values: &[Value]) -> Result<Vec<Hook>, ReadFault>
    ensures told { Gives (λ hs. map (hook_seen names.new) hs.items) result
        (elements_after spec.callback_in [] (items_view values.now)) }
    ensures named { IfOk result (λ hs. All (IsNamed names.new) hs.items) }
    ensures grows { OnlyGrows names.old names.new }
{
    let mut hooks = Vec::new(alloc);
    for value in values {
        let hook = callback_in(alloc, names, value)?;
        hooks.push(hook)?;
    }
    Ok(hooks)
}

/// The callbacks in the order of the configuration.
pub(crate) fn callbacks(
    alloc: Global,
    names: &mut Names,
    table: &Table,
) -> Result<Vec<Hook>, ReadFault>
    ensures told { Gives (λ hs. map (hook_seen names.new) hs.items) result (spec.callbacks (table_view table.now)) }
    ensures named { IfOk result (λ hs. All (IsNamed names.new) hs.items) }
    ensures grows { OnlyGrows names.old names.new }
{
    match value_at(table, "callback") {
        None => Ok(Vec::new(alloc)),
        Some(value) => callbacks_in(alloc, names, array_in("callback", value)?),
    }
}
