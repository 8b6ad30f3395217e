//! What every engine does, whatever it keeps its memory in.
ghost use Rattle.std.specs.Prelude.{◌≡◌, ℕ, ◌-◌, ◌≤◌, Bool, [], length, drop};
ghost use Rattle.runs.specs.declared.signature.Signature.{Signature};
ghost use Rattle.runs.specs.Gaps.{reach};
ghost use Rattle.runs.specs.Signatures.{gaps_of};
ghost use Rattle.engines.specs.Memory.{Stepped, Moved, Recalls, Chain, nth_gap};

use crate::shape::gap_at;
use runs::gap::Gap;
use runs::signature::Signature;

// The words that a memory can hold: no gap allows a distance past 63.
pub(crate) fn newest(words: &[u32]) -> &[u32]
    ensures { result.now ≡ drop (length words.now - 64) words.now }
{
    &words[words.len().saturating_sub(64)..]
}

/// An engine means the slots and gaps of a signature, and a memory.
pub trait Engine: Sized {
    /// The greatest reach that the engine takes.
    const LIMIT: u32;

    // the same number, as clauses name it
    ghost LIMIT: { ℕ };

    // the number of slots and the gaps
    ghost shape: { Self → Signature };

    // whether a run of the first j + 1 slots ended d places before the latest place: of slot j, at distance d.
    // It means something for each slot j but the last, and for d up to the highest size of gap j
    ghost says: { Self → ℕ → ℕ → Bool };

    /// Sets the slots and gaps; the memory then says no everywhere.
    fn make(&mut self, signature: &Signature)
        requires { reach (gaps_of signature.now) ≤ LIMIT }
        ensures shape { shape self.new ≡ signature.now }
        ensures memory { Recalls signature.now [] (says self.new) };

    /// The mark word of the next place, whose reading fits the slots that `fits` has a bit for.
    fn step(&mut self, fits: u32) -> u32
        ensures shape { shape self.new ≡ shape self.old }
        ensures word { Stepped (shape self.old) (says self.old) fits result }
        ensures memory { Moved (shape self.old) (says self.old) result (says self.new) };

    /// The fits of neighbouring places become their mark words, as by one step after another.
    fn stretch(&mut self, words: &mut [u32])
        ensures shape { shape self.new ≡ shape self.old }
        ensures chain { Chain (shape self.old) (says self.old) words.old words.new (says self.new) }
    {
        for word in words {
            *word = self.step(*word);
        }
    }

    /// The memory becomes that of the words, the newest last, and says no past the list's beginning.
    fn resume(&mut self, words: &[u32])
        ensures shape { shape self.new ≡ shape self.old }
        ensures memory { Recalls (shape self.old) words.now (says self.new) };

    /// The slots and gaps.
    fn signature(&self) -> Signature
        ensures { result ≡ shape self.now };

    /// How many slots there are.
    fn slots(&self) -> u32
        ensures { result ≡ (shape self.now).slots }
    {
        self.signature().slots
    }

    /// Gap j, 0 to 0 where there is none.
    fn gap(&self, j: u32) -> Gap
        ensures { result ≡ nth_gap (shape self.now) j }
    {
        gap_at(&self.signature(), j)
    }
}
