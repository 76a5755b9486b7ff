//! The law that trees can be had from folders.

ghost use Rattle.zw_fresh.specs.Mountable.{MountableIsMounted};

/// Does nothing. Its contract is the law that some folder mounts each tree whose files are in path order, none in the way
/// of another, with Ruby paths that can be listed and are not fixed, and within the limits.
pub fn mountable_is_mounted()
    ensures law { MountableIsMounted }
{}
