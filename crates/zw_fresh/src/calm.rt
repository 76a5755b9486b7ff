//! The law of calm settings: plain programs answer alike where keys are loaded as they are asked for, and where they were
//! loaded before.

ghost use Rattle.std.specs.Prelude.{true};
ghost use Rattle.zw_fresh.specs.Alike.{Setting};
ghost use Rattle.zw_fresh.specs.Calm.{Handed, PlainIsAlike, PlainProgramsAreAlike};

/// A calm setting, and what has to be known of it: that methods are plain in its worlds, and that a load of a stated key
/// is owed where the key is done already.
pub trait Calm {
    ghost setting: { Setting true };

    ghost handed: { Handed setting };
}

/// Does nothing. Its contract is the law that from points alike in a calm setting plain programs come to ends alike.
pub fn plain_is_alike<C: Calm>()
    ensures law { PlainIsAlike C.setting }
    ensures programs { PlainProgramsAreAlike C.setting }
{}
