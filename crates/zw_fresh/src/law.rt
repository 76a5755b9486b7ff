//! The law of reloads.

ghost use Rattle.zw_fresh.specs.Law.{ReloadIsFresh};

/// Does nothing. Its contract is the law that a reloaded session writes what a fresh process writes.
pub fn reload_is_fresh()
    ensures law { ReloadIsFresh }
{}
