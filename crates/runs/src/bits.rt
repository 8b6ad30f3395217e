//! The bits of a mark word.
ghost use Rattle.std.specs.Prelude.{◌≡◌};
ghost use Rattle.runs.specs.Bits.{bit};

/// Whether a word bears the mark of a slot; no word bears one of a slot past the 32nd.
pub fn bears(word: u32, slot: u32) -> bool
    ensures { result ≡ bit word slot }
{
    slot < u32::BITS && (word >> slot) & 1 == 1
}
