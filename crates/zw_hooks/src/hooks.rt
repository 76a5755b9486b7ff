//! Callbacks in the configuration's order.
ghost use Rattle.std.specs.Prelude.{◌≡◌, ◌++◌, List, [], ◌∷◌, IfOk, OnOk, Some, map, option_map, slice_get, if◌then◌else◌};
ghost use Rattle.std.specs.List.{filter};
ghost use Rattle.zw_def.specs.Text.{Text};
ghost use Rattle.zw_def.specs.Names.{AreNamed, IsDistinct, texts_of};
ghost use Rattle.zw_def_world.specs.Callback.{callbacks_for};
ghost use Rattle.zw_hooks.specs.HookSeen.{AreTargetsNamed, hooks_seen, moment_seen, seen_at};
ghost use Rattle.zw_hooks.specs.Runs.{runs_for, runs_for_any};

use crate::hook::{Hook, HookKind};
use std::alloc::{AllocError, Global};
use zw_names::CPath;

/// Callbacks, each at its place in the configuration.
#[derive(Drop)]
pub struct Hooks {
    pub all: Vec<Hook>,
}

fn push_if(places: &mut Vec<usize>, wanted: bool, place: usize) -> Result<(), AllocError>
    ensures { OnOk result (places.new.items ≡ places.old.items ++ (if wanted then place ∷ [] else [])) }
{
    if wanted {
        places.push(place)?;
    }
    Ok(())
}

impl Hooks {
    /// The callback at the place.
    pub fn at(&self, place: usize) -> Option<&Hook>
        ensures { option_map (λ h. h.now) result ≡ slice_get self.now.all.items place }
    {
        self.all.get(place)
    }

    /// Adds the places of those that run then for the key of this path, and for no other.
    fn push_own(
        &self,
        places: &mut Vec<usize>,
        on: HookKind,
        path: &CPath,
    ) -> Result<(), AllocError>
        ensures { OnOk result ((names : List Text) → IsDistinct names → AreNamed names path.now →
            AreTargetsNamed names self.now → map (seen_at names self.now) places.new.items
            ≡ map (seen_at names self.now) places.old.items
            ++ map (λ c. Some c) (filter (runs_for (moment_seen on) (texts_of names path.now)) (hooks_seen names self.now))) }
    {
        for place in 0..self.all.len() {
            let runs = self.all[place].runs_for(on, path);
            push_if(places, runs, place)?;
        }
        Ok(())
    }

    /// Adds the places of those that run then for every key.
    fn push_any(&self, places: &mut Vec<usize>, on: HookKind) -> Result<(), AllocError>
        ensures { OnOk result ((names : List Text) → map (seen_at names self.now) places.new.items
            ≡ map (seen_at names self.now) places.old.items
            ++ map (λ c. Some c) (filter (runs_for_any (moment_seen on)) (hooks_seen names self.now))) }
    {
        for place in 0..self.all.len() {
            let runs = self.all[place].runs_for_any(on);
            push_if(places, runs, place)?;
        }
        Ok(())
    }

    /// The places of the callbacks that run then for the key of the path: those for the path itself before those for any,
    /// each group in the configuration's order.
    pub fn for_key(
        &self,
        alloc: Global,
        on: HookKind,
        path: &CPath,
    ) -> Result<Vec<usize>, AllocError>
        ensures { IfOk result (λ places. (names : List Text) → IsDistinct names → AreNamed names path.now →
            AreTargetsNamed names self.now → map (seen_at names self.now) places.items
            ≡ map (λ c. Some c) (callbacks_for (moment_seen on) (texts_of names path.now) (hooks_seen names self.now))) }
    {
        let mut places = Vec::new(alloc);
        self.push_own(&mut places, on, path)?;
        self.push_any(&mut places, on)?;
        Ok(places)
    }
}
