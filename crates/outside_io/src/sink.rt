ghost use Rattle.std.specs.Prelude.{◌≡◌, ℕ, List, [], Option, ◌<◌, length, OnOk};
ghost use Rattle.std.specs.Io.KnownBytes.{Keeps, WriteAppends};
ghost use Rattle.outside_io.specs.Outside.{HasCause, WritesSome};

use crate::Failed;

/// Where bytes go. A sink may gather what is written; all of it is out once `send_out` is Ok.
pub trait Sink {
    /// The bytes written, where the sink tells them, sent out or not.
    ghost written: { Self → Option (List ℕ) };

    /// The last of them, which were gathered and not sent out yet.
    ghost unsent: { Self → List ℕ };

    /// How often a write has failed, or the sending out of what was gathered.
    ghost faults: { Self → ℕ };

    /// Writes the first bytes of the piece, at least one, and says how many they are. After
    /// `Failed` the bytes written are the same.
    fn write(&mut self, piece: &[u8]) -> Result<usize, Failed>
        requires { 0 < length piece.now }
        ensures some { WritesSome result piece.now }
        ensures bytes { WriteAppends (written self.old) (written self.new) result piece.now }
        ensures cause { HasCause (faults self.old) (faults self.new) result };

    /// Sends out what was gathered, before a read and at an end. What was written stays.
    fn send_out(&mut self) -> Result<(), Failed>
        ensures bytes { Keeps (written self.old) (written self.new) }
        ensures out { OnOk result (unsent self.new ≡ []) }
        ensures cause { HasCause (faults self.old) (faults self.new) result };
}
