//! The current gauge: signed milliamperes.
ghost use Rattle.std.specs.Prelude.{◌≡◌, ℕ, Bool, false, length, ℤ};
ghost use Rattle.gauges.specs.Currents.{current_at, held_by, banded};
ghost use Rattle.gauges.specs.Bands.{current_within, current_past};

use crate::band::{Band, read_band};
use crate::bits::with_bit;
use crate::slots::check_slot;
use signature::gauge::{Gauge, WrittenGauge};
use text::refusal::Refusal;

/// A band for each slot that is not empty.
#[derive(Drop)]
pub struct Current {
    bands: [Option<Band>; 32],
    ghost long: { length bands ≡ 32 },
}

impl Current {
    /// A gauge whose slots are all empty.
    pub fn new() -> Current
        ensures { (j : ℕ) (x : ℤ) → banded result.bands j x ≡ false }
    {
        Current { bands: [None; 32] }
    }
}

impl Gauge for Current {
    type Reading = i32;

    ghost sets = { λ g. banded g.bands };

    fn try_reading(&self, reading: &i32) -> u32 {
        let mut word = 0;
        for (slot, band) in self.bands.iter().enumerate() {
            let on = band.is_some_and(|band| band.holds(*reading));
            word = with_bit(word, slot as u32, on);
        }
        word
    }

    fn empty_slot(&mut self, slot: u32) {
        if slot < 32 {
            self.bands[slot as usize] = None;
        }
    }
}

impl WrittenGauge for Current {
    ghost reads = { current_at };

    ghost within = { current_within };

    ghost past = { current_past };

    fn write_slot(&mut self, slot: u32, text: &[u8], at: usize) -> Result<usize, Refusal> {
        // As in `Event`, but for how a set is kept: a trait for the two would be longer than these lines.
        check_slot(slot, at)?;
        match read_band(text, at) {
            Ok(read) => {
                self.bands[slot as usize] = Some(read.value);
                Ok(read.end)
            }
            Err(refusal) => {
                self.bands[slot as usize] = None;
                Err(refusal)
            }
        }
    }
}
