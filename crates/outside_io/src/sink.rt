// A sink that bytes are written to, whose faults are counted.
ghost use Rattle.std.specs.Prelude.{◌≡◌, ◌⊎◌, ◌<◌, ◌≤◌, ◌++◌, List, ℕ, Option, Some, length, take, IfOk, OnErr};
ghost use Rattle.outside_io.specs.Io.{Rose};

use crate::Failed;

/// Where bytes are written to, piece by piece.
pub trait Sink {
    /// The bytes taken so far, where they are known.
    ghost wrote: { Self → Option (List ℕ) };

    /// How often it has failed, which never falls.
    ghost faults: { Self → ℕ };

    /// Takes some bytes of the piece's front, at most all, and says how many. To take none of a piece
    /// that is not empty is a fault.
    fn write(&mut self, piece: &[u8]) -> Result<usize, Failed>
        ensures later { faults self.old ≤ faults self.new }

        ensures count { IfOk result (λ k. k ≤ length piece.now) }
        ensures taken { IfOk result (λ k. (w : List ℕ) → wrote self.old ≡ Some w → wrote self.new ≡ Some (w ++ take k piece.now)) }
        ensures nothing { OnErr result (wrote self.new ≡ wrote self.old) }

        ensures zero { IfOk result (λ k. k ≡ 0 → 0 < length piece.now → Rose (faults self.old) (faults self.new)) }
        ensures failed { OnErr result (Rose (faults self.old) (faults self.new)) };
}
