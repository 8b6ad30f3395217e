//! A signature as far as it does not depend on the kind of reading: how many slots, and the gaps between them.
ghost use Rattle.std.specs.Prelude.{◌≡◌, ℕ, ◌<◌, ◌≤◌, length};
ghost use Rattle.runs.specs.Gaps.{low, high};

use crate::gap::Gap;

mod methods;

/// `gaps[j]` lies between slot j and slot j + 1; those from `slots - 1` on mean nothing.
// Fixed memory, since a search has no heap; and a number beside the list, since no slots and one slot both have no gaps.
#[derive(Clone, Copy)]
pub struct Signature {
    pub slots: u32,
    pub gaps: [Gap; 31],
    ghost few: { slots ≤ 32 },
    ghost long: { length gaps ≡ 31 },
    ghost ordered: { ((j : ℕ) → j < 31 → low gaps j ≤ high gaps j) },
    ghost narrow: { ((j : ℕ) → j < 31 → high gaps j ≤ 63) },
}
