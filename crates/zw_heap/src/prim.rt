//! Primitive methods, by their numbers.
ghost use Rattle.std.specs.Prelude.{◌≡◌, ◌<◌, ◌↔◌, IsNone, IfSome, None};
ghost use Rattle.zw_def_world.specs.Primitive.{primitive_at};

/// How many primitive methods there are.
const COUNT: usize = 116;

/// The number of a primitive method in the table of all of them, from 0 to 115 (ISO/IEC 30170, 15, for what they do).
#[derive(Clone, Copy, Debug, PartialEq, Eq)]
pub struct PrimId {
    number: usize,
    ghost in_range: { number < 116 },
}

impl PrimId {
    /// The method of a number, if there is one.
    pub fn at(number: usize) -> Option<PrimId>
        ensures none { IsNone result ↔ (primitive_at number ≡ None) }
        ensures number { IfSome result (λ prim. prim.number ≡ number) }
    {
        if number < COUNT {
            return Some(PrimId { number });
        }
        None
    }

    /// The number of the method.
    pub fn number(&self) -> usize
        ensures number { result ≡ self.now.number }
        ensures few { result < 116 }
    {
        self.number
    }
}
