// Output in whole pieces.
ghost use Rattle.std.specs.Prelude.{◌≡◌, ◌≤◌, ◌<◌, ℕ, List, length, take, OnOk, OnErr};
ghost use Rattle.zw_def.specs.Told.{HasCause, Appends, AppendsFront};

use crate::Sink;

/// A write of the sink failed.
#[derive(Clone, Copy, Debug, PartialEq, Eq)]
pub struct WriteFault;

/// Writes whole pieces to a sink. It takes no memory.
#[derive(Drop)]
pub struct Out<'a, K: Sink> {
    pub sink: &'a mut K,
}

impl<'a, K: Sink> Out<'a, K> {
    /// The output of a sink.
    pub fn new(sink: &'a mut K) -> Out<'a, K>
        ensures same_sink { result.sink.ghost_name ≡ sink.entry.ghost_name }
        ensures value { result.sink.now ≡ sink.old }
    {
        Out { sink }
    }

    /// Writes all the bytes. Each call of the sink is given all that is left of them. After an `Err` a front of them is
    /// written.
    pub fn put(&mut self, bytes: &[u8]) -> Result<(), WriteFault>
        ensures same_sink { self.new.sink.ghost_name ≡ self.old.sink.ghost_name }
        ensures ok { OnOk result (Appends (K.taken self.old.sink.now) (K.taken self.new.sink.now) bytes.now) }
        ensures err { OnErr result (AppendsFront (K.taken self.old.sink.now) (K.taken self.new.sink.now) bytes.now) }
        ensures cause { HasCause (K.faults self.old.sink.now) (K.faults self.new.sink.now) result }
    {
        let mut at = 0;
        'pieces: while at < bytes.len() {
            match self.sink.write(&bytes[at..]) {
                Ok(n) => at += n,
                Err(_) => return Err(WriteFault),
            }
        }
        Ok(())
    }
}
