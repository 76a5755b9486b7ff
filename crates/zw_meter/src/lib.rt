//! The meter of an evaluation, which counts the steps that are left and the levels entered, and a counter of visits
//! that takes no bytes. It stands on the standard library alone. It promises exact counts: when a step or a level is
//! refused, and what each call changes.
#![tactic(auto)]

ghost use Rattle.std.specs.Prelude.{◌≡◌, ◌+◌, ◌-◌, ◌<◌, ◌≤◌, ◌↔◌, IsTrue, if◌then◌else◌};
ghost use Rattle.zw_meter.specs.declared.TheConstants.{DEPTH};

mod steps;

pub use steps::Steps;

/// The levels that an evaluation may enter.
pub const DEPTH: u32 = 2_000;

/// The steps that are left, and the levels that were entered and not left.
#[derive(Clone, Copy, Debug, PartialEq, Eq)]
pub struct Meter {
    pub left: u64,
    pub depth: u32,
    pub ghost within: { depth ≤ DEPTH },
}

impl Meter {
    /// Pays `n` steps, where that many are left.
    pub fn tick(&mut self, n: u64) -> bool
        ensures answer { IsTrue result ↔ (n ≤ self.old.left) }
        ensures left { self.new.left ≡ (if result then self.old.left - n else self.old.left) }
        ensures depth { self.new.depth ≡ self.old.depth }
    {
        if self.left < n {
            return false;
        }
        self.left -= n;
        true
    }

    /// Enters a level, where there is one more.
    pub fn enter(&mut self) -> bool
        ensures answer { IsTrue result ↔ (self.old.depth < DEPTH) }
        ensures depth { self.new.depth ≡ (if result then self.old.depth + 1 else self.old.depth) }
        ensures left { self.new.left ≡ self.old.left }
    {
        if self.depth >= DEPTH {
            return false;
        }
        self.depth += 1;
        true
    }

    /// Leaves a level.
    pub fn leave(&mut self)
        requires { 0 < self.old.depth }
        ensures depth { self.new.depth ≡ self.old.depth - 1 }
        ensures left { self.new.left ≡ self.old.left }
    {
        self.depth -= 1;
    }
}
