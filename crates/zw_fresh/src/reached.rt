//! The law of reloads for each session that commands reach from an opening.

ghost use Rattle.zw_fresh.specs.Reached.{ReachedIsFresh};

/// Does nothing. Its contract is the law that a session which opened, whichever commands it answered, writes after a
/// reload what it would have written had it opened over the tree that is now staged.
pub fn reached_is_fresh()
    ensures law { ReachedIsFresh }
{}
