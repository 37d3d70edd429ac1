//! What bytes are written to.

ghost use Rattle.std.specs.Prelude.{◌≡◌, ℕ, ◌<◌, ◌≤◌, List, Option, length, take, IfOk, OnErr, is_ok};
ghost use Rattle.ebr_outside.specs.Sink.{appended, faults_after};

use crate::source::Failed;

/// Takes bytes in order.
pub trait Sink: Drop {
    /// The word that it was made for; none where it is no word's.
    ghost word: { Self → List ℕ };

    /// The bytes that were written, where the sink tells them.
    ghost held: { Self → Option (List ℕ) };

    /// How many writes have failed. It stands still at its end, 2^64 - 1.
    ghost faults: { Self → ℕ };

    /// Takes the first of some bytes, at least one, and says how many.
    ///
    /// The count of faults rises by one where the answer is `Failed`, or stands at its end, and stays where it is `Ok`. Of a call
    /// that failed no byte was taken.
    fn write(&mut self, bytes: &[u8]) -> Result<usize, Failed>
        requires { 0 < length bytes.now }
        ensures some { IfOk result (λ n. (0 < n) × (n ≤ length bytes.now)) }
        ensures grown { IfOk result (λ n.
            held self.new ≡ appended (held self.old) (take n bytes.now)) }
        ensures kept { OnErr result (held self.new ≡ held self.old) }
        ensures counted { faults self.new ≡ faults_after (is_ok result) (faults self.old) }
        ensures same { word self.new ≡ word self.old };
}
