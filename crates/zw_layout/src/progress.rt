//! How far patterns have come along a path: which fronts of each stand for the components so far. A step takes one
//! component, so a path is gone through once, and a walk down a tree takes a step for each name.
ghost use Rattle.std.specs.Prelude.{◌≡◌, ◌<◌, ◌≤◌, ◌+◌, ◌&&◌, ◌||◌, [], IfOk, if◌then◌else◌, length, map, string_bytes, take};
ghost use Rattle.zw_def.specs.Pattern.{is_double_star, matches_part};
ghost use Rattle.zw_layout.specs.Progress.{fronts_of, progress_of, some_whole, whole_front};

use std::alloc::{AllocError, Global};
use std::marker::Model;
use zw_path::{Pattern, matches_component};

/// The component of a pattern that stands for any number of components.
const ANY_COMPONENTS: &str = "**";

/// How far patterns have come along a path. A clause sees, for each pattern, which of its fronts stand for the path.
#[derive(Drop)]
pub struct Progress {
    patterns: Vec<Vec<bool>>,
}

impl Model for Progress {
    ghost use Rattle.std.specs.Prelude.{List, Bool, map};

    ghost Value = { List (List Bool) };

    ghost view = { λ p. map (λ fronts. fronts.items) p.patterns.items };
}

/// Whether a front stands for the components before the next one, without its last symbol and with it.
#[derive(Clone, Copy)]
struct Before {
    shorter: bool,
    same: bool,
}

/// Whether a front stands for no component, where the front without this last symbol does or does not.
fn stands_for_none(symbol: &str, shorter: bool) -> bool
    ensures { result ≡ (is_double_star symbol.now && shorter) }
{
    symbol == ANY_COMPONENTS && shorter
}

/// Whether a front stands for the next component too, where the front without this last symbol does or does not.
fn stands_for_next(symbol: &str, component: &str, shorter: bool, before: Before) -> bool
    ensures { result ≡ (if is_double_star symbol.now then shorter || before.same
        else before.shorter && matches_part symbol.now component.now) }
{
    if symbol == ANY_COMPONENTS {
        shorter || before.same
    } else {
        before.shorter && matches_component(symbol, component)
    }
}

/// Which fronts of a pattern stand for no component.
fn first_fronts(alloc: Global, pattern: &[String]) -> Result<Vec<bool>, AllocError>
    ensures { IfOk result (λ fronts. fronts.items ≡ fronts_of (map string_bytes pattern.now) []) }
{
    let mut fronts = Vec::new(alloc);
    let mut stands = true;
    fronts.push(stands)?;
    for symbol in pattern {
        stands = stands_for_none(symbol, stands);
        fronts.push(stands)?;
    }
    Ok(fronts)
}

/// Which fronts of a pattern stand for one component more.
fn next_fronts(
    alloc: Global,
    pattern: &[String],
    fronts: &[bool],
    components: &[String],
    depth: usize,
) -> Result<Vec<bool>, AllocError>
    requires within { depth < length components.now }
    requires here { fronts.now
        ≡ fronts_of (map string_bytes pattern.now) (take depth (map string_bytes components.now)) }
    ensures { IfOk result (λ next.
        next.items ≡ fronts_of (map string_bytes pattern.now) (take (depth + 1) (map string_bytes components.now))) }
{
    let component = components[depth].as_str();
    let mut next = Vec::new(alloc);
    let mut stands = false;
    next.push(stands)?;
    for place in 0..pattern.len() {
        let before = Before {
            shorter: fronts[place],
            same: fronts[place + 1],
        };
        stands = stands_for_next(&pattern[place], component, stands, before);
        next.push(stands)?;
    }
    Ok(next)
}

fn is_whole(fronts: &[bool]) -> bool
    ensures { result ≡ whole_front fronts.now }
{
    !fronts.is_empty() && fronts[fronts.len() - 1]
}

impl Progress {
    /// The patterns before the first component.
    pub fn new(alloc: Global, patterns: &[Pattern]) -> Result<Progress, AllocError>
        ensures { IfOk result (λ progress. progress ≡ progress_of patterns.now []) }
    {
        let mut first = Vec::new(alloc);
        for pattern in patterns {
            first.push(first_fronts(alloc, pattern.components())?)?;
        }
        Ok(Progress { patterns: first })
    }

    /// The patterns after so many components.
    pub fn along(
        alloc: Global,
        patterns: &[Pattern],
        components: &[String],
        depth: usize,
    ) -> Result<Progress, AllocError>
        requires { depth ≤ length components.now }
        ensures { IfOk result (λ progress.
            progress ≡ progress_of patterns.now (take depth (map string_bytes components.now))) }
    {
        let mut progress = Progress::new(alloc, patterns)?;
        for place in 0..depth {
            progress = progress.after(alloc, patterns, components, place)?;
        }
        Ok(progress)
    }

    /// The patterns one component further on, after so many.
    pub fn after(
        &self,
        alloc: Global,
        patterns: &[Pattern],
        components: &[String],
        depth: usize,
    ) -> Result<Progress, AllocError>
        requires within { depth < length components.now }
        requires here { self.now ≡ progress_of patterns.now (take depth (map string_bytes components.now)) }
        ensures { IfOk result (λ progress.
            progress ≡ progress_of patterns.now (take (depth + 1) (map string_bytes components.now))) }
    {
        let mut next = Vec::new(alloc);
        for place in 0..patterns.len() {
            let pattern = patterns[place].components();
            let fronts = self.patterns[place].as_slice();
            next.push(next_fronts(alloc, pattern, fronts, components, depth)?)?;
        }
        Ok(Progress { patterns: next })
    }

    /// Whether some pattern stands for the components so far.
    pub fn is_match(&self) -> bool
        ensures { result ≡ some_whole self.now }
    {
        for fronts in &self.patterns {
            if is_whole(fronts) {
                return true;
            }
        }
        false
    }
}
