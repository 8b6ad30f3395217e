//! A layer over two gauges: a slot holds what both hold.
ghost use Rattle.std.specs.Prelude.{refl};
ghost use Rattle.text.specs.declared.mark.Mark.TheVariants.{And};
ghost use Rattle.gauges.specs.Pairs.{meet, both_at};

use crate::pair::{Joint, Pair};
use signature::gauge::Gauge;
use text::mark::Mark;

/// Two gauges of one kind of reading, `&` between their texts.
pub type Both<L, R> = Pair<L, R, Meet>;

/// What the left and the right both hold.
pub struct Meet;

impl<X> Joint<X, X> for Meet {
    type Reading = X;

    ghost join = { meet };

    ghost reads = { both_at };

    ghost MARK = { And };

    const MARK: Mark = Mark::And;

    #[tactic(auto, using(crate::proofs::Words::bit_of_and))]
    fn try_both<L, R>(left: &L, right: &R, reading: &X) -> u32
    where
        L: Gauge<Reading = X>,
        R: Gauge<Reading = X>,
    {
        left.try_reading(reading) & right.try_reading(reading)
    }

    ghost empty = { λ x. refl };

    ghost spelled = { refl };
}
