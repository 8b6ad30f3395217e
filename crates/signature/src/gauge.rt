//! A gauge says which readings fit which slot; a written gauge also reads a slot from a text.
ghost use Rattle.std.specs.Prelude.{◌≡◌, ℕ, Bool};
ghost use Rattle.signature.specs.Sets.{Tried, Put, nothing};
ghost use Rattle.signature.specs.Slots.{Reads, set_of, end_of, Within, Past};

use text::refusal::Refusal;

/// For each slot from 0 to 31 a set of readings.
pub trait Gauge {
    type Reading;

    // whether a reading is in the set of slot j
    ghost sets: { Self → ℕ → Self.Reading → Bool };

    /// A word whose bit j is set exactly where the reading is in the set of slot j.
    fn try_reading(&self, reading: &Self::Reading) -> u32
        ensures { Tried (sets self.now) reading.now result };

    /// Makes the set of a slot empty; a slot number above 31 is ignored.
    fn empty_slot(&mut self, slot: u32)
        ensures { Put slot nothing (sets self.old) (sets self.new) };
}

/// A gauge whose slots are written in a text.
pub trait WrittenGauge: Gauge {
    // what a text says of a slot from a place on: the set and the place behind it, or why it is refused
    ghost reads: { Reads Self.Reading };

    /// Reads a slot from a text at a place, and answers the place behind it. The slot then has the set that
    /// the text stands for, or is empty where the text is refused; no other slot changes. A slot number
    /// above 31 is refused and changes nothing.
    fn write_slot(&mut self, slot: u32, text: &[u8], at: usize) -> Result<usize, Refusal>
        ensures value { result ≡ end_of slot at (reads text.now at) }
        ensures wrote { Put slot (set_of (reads text.now at)) (Self.Gauge.sets self.old) (Self.Gauge.sets self.new) };

    // the end lies from the place to the text's end
    ghost within: { Within reads };

    // a place past the text counts as its end
    ghost past: { Past reads };
}
