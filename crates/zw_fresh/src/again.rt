//! The law of reloads for two processes, one that reloads and one that opens.

ghost use Rattle.zw_fresh.specs.Again.{ReloadIsOpening};
ghost use Rattle.zw_fresh.specs.Served.{ReloadServesAsOpening};

/// Does nothing. Its contract is the law that of two processes with the same words, configuration and boot, one that
/// reloads writes what the other writes that opens over the tree which the first has staged, wherever the first stands
/// in its stream.
pub fn reload_is_opening()
    ensures law { ReloadIsOpening }
{}

/// Does nothing. Its contract is the law of such processes for one stream that both then read: both write the same, and
/// end alike.
pub fn reload_serves_as_opening()
    ensures law { ReloadServesAsOpening }
{}
