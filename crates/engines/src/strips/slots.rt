//! The marks of a strip, slot by slot.
ghost use Rattle.std.specs.Prelude.{◌<◌, ◌≤◌, length};
ghost use Rattle.engines.specs.Marks.{Marked, Kept};

use crate::strips::window::reached;
use runs::signature::Signature;

// From the places that fit each slot to the places where a run of the slots up to it ends, and no places for the
// other columns. Each mask is then that of the strip's places.
pub(crate) fn mark_slots(signature: &Signature, masks: &mut [u64; 31], columns: &mut [u64])
    requires some { 0 < length columns.old }
    requires few { signature.now.slots ≤ length columns.old }
    ensures marks { Marked signature.now (length columns.old) masks.old columns.old columns.new }
    ensures kept { Kept signature.now columns.new masks.new }
{
    let gaps = signature.used_gaps();
    let mut ended = columns[0];
    // The masks and the columns by number: a proof knows no element that `iter_mut` lends under a `zip`.
    for (j, gap) in gaps.iter().enumerate() {
        let before = masks[j];
        masks[j] = ended;
        ended = columns[j + 1] & reached(*gap, before, ended);
        columns[j + 1] = ended;
    }
    columns[gaps.len() + 1..].fill(0);
}
