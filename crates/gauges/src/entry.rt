//! The entry gauge: an event code together with a current.
ghost use Rattle.std.specs.Prelude.{refl};
ghost use Rattle.text.specs.declared.mark.Mark.TheVariants.{At};
ghost use Rattle.gauges.specs.Entries.{entered, entry_at};

use crate::pair::{Joint, Pair};
use signature::gauge::Gauge;
use text::mark::Mark;

/// An event code, and the current in milliamperes that was measured with it.
#[derive(Clone, Copy)]
pub struct Entry {
    pub code: u8,
    pub current: i32,
}

/// Any gauge of event codes and any of currents, `@` between their texts.
pub type Entries<E, C> = Pair<E, C, Entered>;

/// An entry fits where both its parts fit.
pub struct Entered;

impl Joint<u8, i32> for Entered {
    type Reading = Entry;

    ghost join = { entered };

    ghost reads = { entry_at };

    ghost MARK = { At };

    const MARK: Mark = Mark::At;

    #[tactic(auto, using(crate::proofs::Words::bit_of_and))]
    fn try_both<E, C>(events: &E, currents: &C, entry: &Entry) -> u32
    where
        E: Gauge<Reading = u8>,
        C: Gauge<Reading = i32>,
    {
        events.try_reading(&entry.code) & currents.try_reading(&entry.current)
    }

    ghost empty = { λ x. refl };

    ghost spelled = { refl };
}
