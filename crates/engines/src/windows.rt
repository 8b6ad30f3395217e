//! For each gap of a signature the distances that it allows.
ghost use Rattle.std.specs.Prelude.{◌≡◌, ◌-◌};
ghost use Rattle.runs.specs.Signatures.{gaps_of};
ghost use Rattle.engines.specs.Masked.{Allows};

use crate::ones::ones;
use crate::shape::Shape;
use runs::signature::Signature;

/// Bit d of `allowed[j]` says that gap j allows the distance d.
#[derive(Drop)]
pub struct Windows {
    pub shape: Shape,
    pub allowed: [u64; 31],
    ghost allows: { Allows (gaps_of shape.signature) (shape.signature.slots - 1) allowed },
}

impl Windows {
    /// The windows of a signature.
    pub(crate) fn new(signature: &Signature) -> Windows
        ensures { result.shape.signature ≡ signature.now }
    {
        // by number, and the gaps in use alone: as a `map` over all 31 an engine of few slots takes ten times as long to make, and after
        // a zip with `iter_mut` no proof knows what the list holds
        let gaps = signature.used_gaps();
        let mut allowed = [0; 31];
        for (j, gap) in gaps.iter().enumerate() {
            allowed[j] = ones(u32::from(gap.lo), u32::from(gap.hi - gap.lo) + 1);
        }
        Windows {
            shape: Shape::new(signature),
            allowed,
        }
    }
}
