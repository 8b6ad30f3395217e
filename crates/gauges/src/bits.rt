//! The bits of a word: bit j is slot j's.
ghost use Rattle.std.specs.Prelude.{◌≡◌, ℕ, ◌<◌, if◌then◌else◌, nat_eq};
ghost use Rattle.runs.specs.Bits.{bit};

// The word with the slot's bit on or off.
#[tactic(auto, using(crate::proofs::Words::bit_set, crate::proofs::Words::bit_cleared))]
pub(crate) fn with_bit(word: u32, slot: u32, on: bool) -> u32
    requires { slot < 32 }
    ensures { (j : ℕ) → bit result j ≡ (if nat_eq j slot then on else bit word j) }
{
    if on {
        word | (1 << slot)
    } else {
        word & !(1 << slot)
    }
}
