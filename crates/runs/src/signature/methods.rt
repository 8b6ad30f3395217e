//! A signature with no slots, and the reach and the window of one.
ghost use Rattle.std.specs.Prelude.{◌≡◌};
ghost use Rattle.runs.specs.Gaps.{reach, window};
ghost use Rattle.runs.specs.Signatures.{gaps_of, Blank};

use crate::gap::Gap;
use crate::signature::Signature;

impl Signature {
    /// A signature with no slots.
    pub fn new() -> Signature
        ensures { Blank result }
    {
        Signature {
            slots: 0,
            gaps: [Gap::default(); 31],
        }
    }

    /// The gaps between the slots, one fewer than there are slots.
    pub fn used_gaps(&self) -> &[Gap]
        ensures { result.now ≡ gaps_of self.now }
    {
        &self.gaps[..self.slots.saturating_sub(1) as usize]
    }

    /// How many places a run can take, from its first to its last.
    pub fn reach(&self) -> u32
        ensures { result ≡ reach (gaps_of self.now) }
    {
        1 + self
            .used_gaps()
            .iter()
            .map(|gap| 1 + u32::from(gap.hi))
            .sum::<u32>()
    }

    /// How many places back a mark can depend on: the widest gap and one more, or 0 where there is no gap.
    pub fn window(&self) -> u32
        ensures { result ≡ window (gaps_of self.now) }
    {
        self.used_gaps()
            .iter()
            .map(|gap| u32::from(gap.hi) + 1)
            .max()
            .unwrap_or(0)
    }
}
