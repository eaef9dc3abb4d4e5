// Sources and sinks of bytes.
ghost use Rattle.std.specs.Prelude.{◌≡◌, ℕ, ◌<◌, ◌≤◌, List, [], Bool, false, Option, length, IsTrue, IfOk, OnOk};
ghost use Rattle.std.specs.Io.KnownBytes.{Keeps, ReadConsumes, WriteAppends};
ghost use Rattle.cp_io.specs.Causes.{HasCause};

use thiserror::Error;

/// A device failed to give or to take bytes.
#[derive(Clone, Copy, Debug, PartialEq, Eq, Error)]
#[error("the device failed")]
pub struct Failed;

/// What bytes come from. It counts the faults of its device in a number that never falls and that
/// stands still at 18446744073709551615. Some sources tell which bytes are left.
pub trait Source {
    ghost left: { Self → Option (List ℕ) };

    ghost faults: { Self → ℕ };

    /// Reads some bytes to the front of `buf` and tells how many. `Ok(0)` is the end of the input.
    /// After an error no byte is lost, and what `buf` holds is open.
    fn read(&mut self, buf: &mut [u8]) -> Result<usize, Failed>
        requires { 0 < length buf.old }
        ensures bound { IfOk result (λ n. n ≤ length buf.new) }
        ensures bytes { ReadConsumes (left self.old) (left self.new) result buf.new }
        ensures cause { HasCause (faults self.old) (faults self.new) result };
}

/// What bytes are written to. It counts the faults of its device in a number that never falls and
/// that stands still at 18446744073709551615. Some sinks tell which bytes they took.
pub trait Sink {
    ghost taken: { Self → Option (List ℕ) };

    ghost faults: { Self → ℕ };

    ghost finished: { Self → Bool };

    /// Writes some bytes from the front of `piece`, at least one where it has any, and tells how
    /// many. After an error no byte was taken.
    fn write(&mut self, piece: &[u8]) -> Result<usize, Failed>
        ensures bound { IfOk result (λ n. n ≤ length piece.now) }
        ensures some { IfOk result (λ n. 0 < length piece.now → 0 < n) }
        ensures empty { piece.now ≡ [] → result ≡ Ok 0 }
        ensures bytes { WriteAppends (taken self.old) (taken self.new) result piece.now }
        ensures open { IfOk result (λ n. 0 < n → finished self.new ≡ false) }
        ensures cause { HasCause (faults self.old) (faults self.new) result };

    /// Hands on all that was taken, and makes the sink finished. It changes no byte.
    fn finish(&mut self) -> Result<(), Failed>
        ensures bytes { Keeps (taken self.old) (taken self.new) }
        ensures finished { OnOk result (IsTrue (finished self.new)) }
        ensures cause { HasCause (faults self.old) (faults self.new) result };
}
