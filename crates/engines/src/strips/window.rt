//! The places of a strip that a gap reaches back from.
ghost use Rattle.std.specs.Prelude.{◌≤◌};
ghost use Rattle.engines.specs.Windows.{Reached, Tells};

use runs::gap::Gap;

// The places of a strip from which a place of `here`, the strip itself, or of `past`, the places before it, lies
// at a distance that the gap allows. A window of any width is made of shifts that double.
pub(crate) fn reached(gap: Gap, past: u64, here: u64) -> u64
    requires ordered { gap.lo ≤ gap.hi }
    requires narrow { gap.hi ≤ 63 }
    ensures { Tells (Reached gap.lo gap.hi past here) result }
{
    let mut later = here;
    let mut earlier = past << (63 - u32::from(gap.hi));
    let mut by: u32 = 1;
    let mut left = u32::from(gap.hi - gap.lo);
    while by < left {
        later |= later >> by;
        earlier |= earlier << by;
        left -= by;
        by += by;
    }
    later |= later >> left;
    earlier |= earlier << left;
    ((later >> 1) >> u32::from(gap.lo)) | earlier
}
