//! A layer over two gauges: a slot holds what the left holds and the right does not.
ghost use Rattle.std.specs.Prelude.{refl};
ghost use Rattle.text.specs.declared.mark.Mark.TheVariants.{Bang};
ghost use Rattle.gauges.specs.Pairs.{less, barring_at};

use crate::pair::{Joint, Pair};
use signature::gauge::Gauge;
use text::mark::Mark;

/// Two gauges of one kind of reading, `!` between their texts.
pub type Barring<L, R> = Pair<L, R, Less>;

/// What the left holds and the right does not.
pub struct Less;

impl<X> Joint<X, X> for Less {
    type Reading = X;

    ghost join = { less };

    ghost reads = { barring_at };

    ghost MARK = { Bang };

    const MARK: Mark = Mark::Bang;

    #[tactic(auto, using(crate::proofs::Words::bit_of_and, crate::proofs::Words::bit_not))]
    fn try_both<L, R>(left: &L, right: &R, reading: &X) -> u32
    where
        L: Gauge<Reading = X>,
        R: Gauge<Reading = X>,
    {
        left.try_reading(reading) & !right.try_reading(reading)
    }

    ghost empty = { λ x. refl };

    ghost spelled = { refl };
}
