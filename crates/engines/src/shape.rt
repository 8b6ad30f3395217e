//! What engines read off a signature.
ghost use Rattle.std.specs.Prelude.{◌≡◌, ℕ, suc, ◌-◌, ◌<◌};
ghost use Rattle.engines.specs.Blocks.{block};
ghost use Rattle.engines.specs.Memory.{Memory, Stepped, Seeing, nth_gap};

use crate::ones::ones;
use runs::gap::Gap;
use runs::signature::Signature;

/// A signature, and the slots after its first.
#[derive(Drop)]
pub struct Shape {
    pub signature: Signature,
    // the bits of the slots after the first
    pub later: u32,
    ghost after: { later ≡ block 1 (signature.slots - 1) },
}

impl Shape {
    /// The shape of a signature.
    pub(crate) fn new(signature: &Signature) -> Shape
        ensures { result.signature ≡ signature.now }
    {
        Shape {
            signature: *signature,
            later: ones(1, signature.slots.saturating_sub(1)) as u32,
        }
    }

    /// The word of a place: the first slot where it fits, and of the later ones that fit slot j + 1 where `seen` says so for slot j.
    pub(crate) fn word<F: Fn(u32) -> bool>(&self, fits: u32, seen: F) -> u32
        requires { (j : ℕ) → suc j < self.now.signature.slots → F.pre seen j }
        ensures { (says : Memory) → Seeing self.now.signature says (F.post seen) → Stepped self.now.signature says fits result }
    {
        let mut word = fits & 1;
        let mut left = fits & self.later;
        while left != 0 {
            let slot = left.trailing_zeros();
            left &= left - 1;
            if seen(slot - 1) {
                word |= 1 << slot;
            }
        }
        word
    }
}

/// Gap j, 0 to 0 where there is none.
pub(crate) fn gap_at(signature: &Signature, j: u32) -> Gap
    ensures { result ≡ nth_gap signature.now j }
{
    signature
        .used_gaps()
        .get(j as usize)
        .copied()
        .unwrap_or_default()
}
