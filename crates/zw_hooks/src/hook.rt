//! One callback.
ghost use Rattle.std.specs.Prelude.{◌≡◌, List, map, option_map};
ghost use Rattle.std.specs.Str.{bytes_eq};
ghost use Rattle.zw_def.specs.Text.{Text};
ghost use Rattle.zw_def.specs.Names.{AreNamed, IsDistinct, texts_of};
ghost use Rattle.zw_def.specs.Nesting.{same_names};
ghost use Rattle.zw_def_world.specs.Callback.{same_moment};
ghost use Rattle.zw_hooks.specs.HookSeen.{IsTargetNamed, hook_seen, moment_seen};
ghost use Rattle.zw_hooks.specs.Runs.{runs_for, runs_for_any};

use zw_ast::Program;
use zw_names::{CPath, Name};

/// When a callback runs (Zeitwerk README, "Callbacks").
#[derive(Clone, Copy, Debug, PartialEq, Eq)]
pub enum HookKind {
    /// After each setup.
    Setup,
    /// After a key is loaded.
    Load,
    /// Before a key is unloaded.
    Unload,
}

/// A callback.
#[derive(Drop)]
pub struct Hook {
    /// When it runs.
    pub on: HookKind,
    /// The constant path for whose key it runs, or none where it runs for every key.
    pub target: Option<CPath>,
    /// What is evaluated, at top level.
    pub program: Program,
}

fn is_same(kind: HookKind, other: HookKind) -> bool
    ensures { result ≡ same_moment (moment_seen kind) (moment_seen other) }
{
    kind == other
}

fn have_same_numbers(names: &[Name], others: &[Name]) -> bool
    ensures { result ≡ bytes_eq (map (λ n. n.0) names.now) (map (λ n. n.0) others.now) }
{
    names == others
}

fn are_same(path: &CPath, other: &CPath) -> bool
    ensures { (names : List Text) → IsDistinct names → AreNamed names path.now → AreNamed names other.now →
        result ≡ same_names (texts_of names path.now) (texts_of names other.now) }
{
    have_same_numbers(other.names(), path.names())
}

impl Hook {
    /// Whether it runs then for the key of this path, and for no other.
    pub(crate) fn runs_for(&self, on: HookKind, path: &CPath) -> bool
        ensures { (names : List Text) → IsDistinct names → AreNamed names path.now → IsTargetNamed names self.now →
            result ≡ runs_for (moment_seen on) (texts_of names path.now) (hook_seen names self.now) }
    {
        match &self.target {
            Some(target) => is_same(self.on, on) && are_same(path, target),
            None => false,
        }
    }

    /// Whether it runs then for every key.
    pub(crate) fn runs_for_any(&self, on: HookKind) -> bool
        ensures { (names : List Text) → result ≡ runs_for_any (moment_seen on) (hook_seen names self.now) }
    {
        match &self.target {
            Some(_) => false,
            None => is_same(self.on, on),
        }
    }
}
