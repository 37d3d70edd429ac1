//! What bytes are read from.

ghost use Rattle.std.specs.Prelude.{◌≡◌, ℕ, ◌<◌, ◌≤◌, List, Option, length, IfOk, OnErr};
ghost use Rattle.ebr_faults.specs.Faults.{Rises};
ghost use Rattle.ebr_outside.specs.Source.{Takes};

/// A call of a source or a sink failed; the object counted it.
#[derive(Clone, Copy, Debug, PartialEq, Eq)]
pub struct Failed;

/// Gives bytes in order, each once.
pub trait Source: Drop {
    /// The word that it was opened for.
    ghost word: { Self → List ℕ };

    /// The bytes that are still to be read, where the source tells them.
    ghost left: { Self → Option (List ℕ) };

    /// How many calls have failed. It never falls, and stands still at its end, 2^64 - 1.
    ghost faults: { Self → ℕ };

    /// Reads the next bytes into the front of a slice that isn't empty, and says how many: at most
    /// the slice's length, and 0 only at the end of the bytes.
    ///
    /// `Failed` comes only where the count of faults rose in this call, or stands at its end; then
    /// no byte was taken.
    fn read(&mut self, into: &mut [u8]) -> Result<usize, Failed>
        requires { 0 < length into.old }
        ensures within { IfOk result (λ n. n ≤ length into.old) }
        ensures taken { IfOk result (λ n. Takes (left self.old) n into.new (left self.new)) }
        ensures kept { OnErr result (left self.new ≡ left self.old) }
        ensures counted { faults self.old ≤ faults self.new }
        ensures failed { OnErr result (Rises (faults self.old) (faults self.new)) }
        ensures same { word self.new ≡ word self.old };
}
