//! Integers as they are written, without a sign.
ghost use Rattle.std.specs.Prelude.{◌≡◌, ◌≤◌, pos, neg_ℤ};
ghost use Rattle.zw_def_syntax.specs.Number.{greatest_integer};

use std::marker::Model;

/// An integer of at most 9223372036854775807, the greatest of 64 bits with its sign (ISO/IEC 30170, 8.7.6.2).
#[derive(Clone, Copy, Debug, Drop)]
pub struct Magnitude {
    value: u64,
}

impl Model for Magnitude {
    ghost use Rattle.std.specs.Prelude.{ℕ, ◌≤◌};
    ghost use Rattle.zw_def_syntax.specs.Number.{greatest_integer};

    ghost Value = { ℕ };

    ghost view = { λ m. m.value };

    ghost inverse = { λ n. record { value = n } };

    ghost invariant = { λ m. m.value ≤ greatest_integer };
}

impl Magnitude {
    pub(crate) fn new(value: u64) -> Magnitude
        requires { value ≤ greatest_integer }
        ensures { result ≡ value }
    {
        Magnitude { value }
    }

    /// The integer without a sign.
    #[tactic(auto, unfolding(zw_def_syntax::specs::Number::greatest_integer))]
    pub fn plain(self) -> i64
        ensures { result ≡ pos self }
    {
        self.value as i64
    }

    /// The integer with a minus before it.
    #[tactic(auto, unfolding(zw_def_syntax::specs::Number::greatest_integer))]
    pub fn negated(self) -> i64
        ensures { result ≡ neg_ℤ (pos self) }
    {
        -(self.value as i64)
    }
}
