//! A law of sessions, for proofs above. The call does nothing.
ghost use Rattle.zw_session.specs.Dispatch.{IsDispatched, MakesChosen, ReceivesChosen};

use crate::session::Session;
use zw_consts::ancestors_are_reached;

impl Session {
    /// A primitive method that is chosen has a receiver of its kind, and `new` one of which objects may be made.
    pub(crate) fn tells_receivers(&self)
        ensures receives { IsDispatched self.now → ReceivesChosen self.now }
        ensures makes { IsDispatched self.now → MakesChosen self.now }
    {
        self.heap.is_sound();
        ancestors_are_reached(&self.heap);
    }
}
