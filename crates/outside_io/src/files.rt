// Files that are read one after another, whose faults are counted name by name.
ghost use Rattle.std.specs.Prelude.{◌≡◌, ◌⊎◌, ◌<◌, ◌≤◌, ◌++◌, [], List, ℕ, Option, Some, length, take, IsSome, IfOk, OnOk, OnErr};
ghost use Rattle.outside_io.specs.Io.{Rose, IsFront};

/// A call of `Files` or `Sink` that failed. Why it did is not told.
#[derive(Clone, Copy, Debug, PartialEq, Eq)]
pub struct Failed;

/// Files that are opened by name, one at a time, and read piece by piece.
pub trait Files {
    /// The bytes of a name, where they are known. No call changes them.
    ghost told: { Self → List ℕ → Option (List ℕ) };

    /// A name is open.
    ghost is_open: { Self → List ℕ → Type 0 };

    /// The pieces that `read` gave since the last `begin`, joined, where they are known: they are
    /// where the bytes of an open name are.
    ghost given: { Self → Option (List ℕ) };

    /// How often a name has failed, which never falls.
    ghost faults: { Self → List ℕ → ℕ };

    /// Opens a name, and closes the one before: where bytes are known, no other name is open.
    fn begin(&mut self, name: &str) -> Result<(), Failed>
        ensures told { (n : List ℕ) → told self.new n ≡ told self.old n }
        ensures later { (n : List ℕ) → faults self.old n ≤ faults self.new n }

        ensures open { OnOk result (is_open self.new name.now) }
        ensures closed { OnOk result ((n b : List ℕ) → is_open self.new n → told self.new n ≡ Some b → n ≡ name.now) }
        ensures given { OnOk result ((b : List ℕ) → told self.old name.now ≡ Some b → given self.new ≡ Some []) }
        ensures there { (n b : List ℕ) → is_open self.new n → told self.new n ≡ Some b → IsSome (given self.new) }

        ensures failed { OnErr result (Rose (faults self.old name.now) (faults self.new name.now)) };

    /// Reads the next bytes of the open name into the front of a piece, and says how many. At 0 into
    /// a piece that is not empty there are no more. What is open stays open.
    fn read(&mut self, into: &mut [u8]) -> Result<usize, Failed>
        ensures told { (n : List ℕ) → told self.new n ≡ told self.old n }
        ensures later { (n : List ℕ) → faults self.old n ≤ faults self.new n }
        ensures open { (n : List ℕ) → is_open self.old n → is_open self.new n }

        ensures count { IfOk result (λ k. k ≤ length into.old) }
        ensures given { IfOk result (λ k. (g : List ℕ) → given self.old ≡ Some g → given self.new ≡ Some (g ++ take k into.new)) }
        ensures kept { OnErr result (given self.new ≡ given self.old) }
        ensures there { (n b : List ℕ) → is_open self.new n → told self.new n ≡ Some b → IsSome (given self.new) }

        // The pieces, joined, are a front of the bytes, and all of them at the end.
        ensures front { (n b g : List ℕ) → is_open self.old n → told self.old n ≡ Some b → given self.new ≡ Some g → IsFront g b }
        ensures end { IfOk result (λ k. k ≡ 0 → 0 < length into.old
            → (n b g : List ℕ) → is_open self.old n → told self.old n ≡ Some b → given self.new ≡ Some g → g ≡ b) }

        ensures failed { OnErr result ((n : List ℕ) → is_open self.old n → Rose (faults self.old n) (faults self.new n)) };
}
