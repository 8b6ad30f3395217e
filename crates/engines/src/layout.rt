//! Where one word keeps what is remembered for each gap of a signature.
ghost use Rattle.std.specs.Prelude.{◌≡◌, ◌+◌, ◌-◌, ◌≤◌};
ghost use Rattle.runs.specs.Gaps.{reach};
ghost use Rattle.runs.specs.Signatures.{gaps_of};
ghost use Rattle.engines.specs.Fields.{offset, kept, Begun, Idle, Opened};

use crate::ones::ones;
use crate::shape::Shape;
use runs::signature::Signature;

/// What a step reads for a slot.
#[derive(Clone, Copy)]
pub struct Field {
    // the bits at the distances that the gap before the slot allows, in the field of the slot before; 0 for the first slot
    pub window: u64,
    // the first bit of the slot's own field, and 0 where it has none
    pub start: u64,
}

/// Gap j has a field of hi + 1 bits, the newest place first.
#[derive(Drop)]
pub struct Layout {
    pub shape: Shape,
    pub fields: [Field; 32],
    // every bit of the fields but the top bit of each
    pub keep: u64,
    ghost room: { offset (gaps_of shape.signature) (shape.signature.slots - 1) ≤ 63 },
    ghost begun: { Begun (gaps_of shape.signature) (shape.signature.slots - 1) fields },
    ghost idle: { Idle (shape.signature.slots - 1) fields },
    ghost opened: { Opened (gaps_of shape.signature) (shape.signature.slots - 1) fields },
    ghost stays: { keep ≡ kept (gaps_of shape.signature) (shape.signature.slots - 1) },
}

impl Layout {
    /// The fields of a signature whose runs take 64 places at most.
    pub(crate) fn new(signature: &Signature) -> Layout
        requires { reach (gaps_of signature.now) ≤ 64 }
        ensures { result.shape.signature ≡ signature.now }
    {
        let gaps = signature.used_gaps();
        let mut fields = [Field {
            window: 0,
            start: 0,
        }; 32];
        let mut keep = 0;
        let mut at = 0;
        // by an index, since a gap writes to two fields, and `keep` and `at` grow with them
        for (j, gap) in gaps.iter().enumerate() {
            fields[j].start = 1u64 << at;
            fields[j + 1].window = ones(at + u32::from(gap.lo), u32::from(gap.hi - gap.lo) + 1);
            keep |= ones(at, u32::from(gap.hi));
            at += u32::from(gap.hi) + 1;
        }
        Layout {
            shape: Shape::new(signature),
            fields,
            keep,
        }
    }
}
