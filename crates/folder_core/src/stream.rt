ghost use Rattle.std.specs.Prelude.{◌≡◌, ◌<◌, ◌≤◌, ℕ, List, ◌++◌, length, take, Option, IfOk, OnErr, IsErr};
ghost use Rattle.folder_core.specs.Cause.{HasCause};
ghost use Rattle.folder_core.specs.Step.{Step};
ghost use Rattle.folder_core.specs.Stream.{Reads};

use crate::fault::Failed;

/// Bytes that come in.
pub trait Input {
    /// The bytes that are left, for an input that tells them.
    ghost told: { Self → Option (List ℕ) };

    /// How often the input has failed.
    ghost faults: { Self → ℕ };

    /// Puts some of the bytes left at the front of `into`, and answers how many. At the end of the input that is 0.
    fn read(&mut self, into: &mut [u8]) -> Result<usize, Failed>
        ensures bound { IfOk result (λ n. n ≤ length into.new) }
        ensures taken { IfOk result (λ n. Step (told self.old) (told self.new) (Reads n into.new)) }
        ensures failed { OnErr result (Step (told self.old) (told self.new) (λ s t. t ≡ s)) }
        ensures cause { HasCause (faults self.old) (faults self.new) (IsErr result) };
}

/// Takes bytes.
pub trait Sink {
    /// The bytes written so far, for a sink that tells them.
    ghost told: { Self → Option (List ℕ) };

    /// How often the sink has failed.
    ghost faults: { Self → ℕ };

    /// Writes a front of `piece`, and answers how many bytes it has: one at least, where there are some.
    fn write(&mut self, piece: &[u8]) -> Result<usize, Failed>
        ensures bound { IfOk result (λ n. n ≤ length piece.now) }
        ensures some { IfOk result (λ n. 0 < length piece.now → 0 < n) }
        ensures written { IfOk result (λ n. Step (told self.old) (told self.new) (λ s t. t ≡ s ++ take n piece.now)) }
        ensures failed { OnErr result (Step (told self.old) (told self.new) (λ s t. t ≡ s)) }
        ensures cause { HasCause (faults self.old) (faults self.new) (IsErr result) };
}
