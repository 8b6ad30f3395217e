//! The event gauge: codes from 0 to 255.
ghost use Rattle.std.specs.Prelude.{◌≡◌, ℕ, ◌<◌, Bool, false, length, if◌then◌else◌, nat_eq, slice_index, slice_index_or};
ghost use Rattle.runs.specs.Bits.{bit};
ghost use Rattle.gauges.specs.Codes.{event_at};
ghost use Rattle.gauges.specs.Tables.{held};
ghost use Rattle.gauges.specs.Ends.{event_within, event_past};

use crate::bits::with_bit;
use crate::code_set::Codes;
use crate::codes::read_codes;
use crate::slots::check_slot;
use signature::gauge::{Gauge, WrittenGauge};
use text::refusal::Refusal;

/// A table of codes: bit j of an entry says that the code is in the set of slot j.
#[derive(Drop)]
pub struct Event {
    table: [u32; 256],
    ghost long: { length table ≡ 256 },
}

impl Event {
    /// A gauge whose slots are all empty.
    pub fn new() -> Event
        ensures { (j x : ℕ) → held result.table j x ≡ false }
    {
        Event { table: [0; 256] }
    }

    // Sets the slot's bit at each code of the set, and clears it at each other.
    fn mark_codes(&mut self, slot: u32, codes: &Codes)
        requires { slot < 32 }
        ensures { (c : ℕ) → c < 256 → (j : ℕ) → bit (slice_index self.new.table c) j ≡ (if nat_eq j slot then slice_index_or codes.now.has c false else bit (slice_index self.old.table c) j) }
    {
        for (code, entry) in self.table.iter_mut().enumerate() {
            *entry = with_bit(*entry, slot, codes.has(code as u8));
        }
    }
}

impl Gauge for Event {
    type Reading = u8;

    ghost sets = { λ g. held g.table };

    fn try_reading(&self, reading: &u8) -> u32 {
        self.table[usize::from(*reading)]
    }

    fn empty_slot(&mut self, slot: u32) {
        if slot < 32 {
            // no set of codes: one that has none would be made and read for each of the 32 slots that a reader empties
            for entry in self.table.iter_mut() {
                *entry = with_bit(*entry, slot, false);
            }
        }
    }
}

impl WrittenGauge for Event {
    ghost reads = { event_at };

    ghost within = { event_within };

    ghost past = { event_past };

    fn write_slot(&mut self, slot: u32, text: &[u8], at: usize) -> Result<usize, Refusal> {
        // As in `Current`, but for how a set is kept: a trait for the two would be longer than these lines. By a `match`, which lends
        // the set as it was read: `map_or` would copy it.
        check_slot(slot, at)?;
        match read_codes(text, at) {
            Ok(read) => {
                self.mark_codes(slot, &read.value);
                Ok(read.end)
            }
            Err(refusal) => {
                self.empty_slot(slot);
                Err(refusal)
            }
        }
    }
}
