// Sets of numbers from 0 to 63.
ghost use Rattle.std.specs.Prelude.{◌≡◌, ℕ, ◌<◌, ◌≤◌, true, false};
ghost use Rattle.diagram.specs.Masks.{bit, With};

// A set of numbers from 0 to 63, as the bits of a number.
#[derive(Clone, Copy, PartialEq, Eq, Debug)]
pub struct BitSet {
    pub bits: u64,
}

impl BitSet {
    pub(crate) const EMPTY: BitSet = BitSet { bits: 0 };

    pub(crate) const FULL: BitSet = BitSet { bits: u64::MAX };

    // Whether the number is in the set.
    pub(crate) fn has(self, n: usize) -> bool
        requires { n < 64 }
        ensures { result ≡ bit self.bits n }
    {
        self.bits >> n & 1 == 1
    }

    // The least number of the set, 64 where there is none.
    pub(crate) fn least(self) -> usize
        ensures before { (n : ℕ) → n < result → bit self.bits n ≡ false }
        ensures is { result < 64 → bit self.bits result ≡ true }
        ensures most { result ≤ 64 }
    {
        self.bits.trailing_zeros() as usize
    }

    // The set with one more number.
    pub(crate) fn with(self, n: usize) -> BitSet
        requires { n < 64 }
        ensures { With self.bits n result.bits }
    {
        BitSet {
            bits: self.bits | 1 << n,
        }
    }
}
