//! What a search answers a caller in C.
ghost use Rattle.std.specs.Prelude.{◌≡◌};
ghost use Rattle.events.specs.Outcomes.{outcome_of};

use text::refusal::Refusal;

/// The number of a refusal and its place, or 0 and 0 and the number of hits.
// Numbers, and 0 for none: an enum does not cross to C.
#[repr(C)]
#[derive(Clone, Copy)]
pub struct Outcome {
    pub refusal: u32,
    pub place: usize,
    pub hits: usize,
}

impl From<Result<usize, Refusal>> for Outcome {
    ghost from_gives = { λ answer outcome. outcome ≡ outcome_of answer };

    fn from(answer: Result<usize, Refusal>) -> Outcome {
        match answer {
            Ok(hits) => Outcome {
                refusal: 0,
                place: 0,
                hits,
            },
            Err(refusal) => Outcome {
                refusal: refusal.number(),
                place: refusal.place(),
                hits: 0,
            },
        }
    }
}
