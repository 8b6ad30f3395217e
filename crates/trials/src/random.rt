//! Random signatures and readings, the same in every run.
ghost use Rattle.std.specs.Prelude.{◌<◌};

use std::alloc::{AllocError, Global};
use std::fmt::Write;

/// A source of numbers; its state alone says all that it gives.
#[derive(Drop)]
pub struct Random {
    state: u32,
}

impl Random {
    pub(crate) fn new(state: u32) -> Random {
        Random { state }
    }

    // A number below the bound, which is not 0.
    fn below(&mut self, bound: u32) -> u32
        requires { 0 < bound }
        ensures { result < bound }
    {
        self.state = self
            .state
            .wrapping_mul(1_664_525)
            .wrapping_add(1_013_904_223);
        (self.state >> 8) % bound
    }

    // A class of two codes below 5.
    fn push_slot(&mut self, text: &mut String) -> Result<(), AllocError> {
        let first = self.below(5);
        let second = self.below(5);
        write!(text, "[{first} {second}]")
    }

    // A gap of at most the widest size.
    fn push_gap(&mut self, text: &mut String, widest: u32) -> Result<(), AllocError>
        requires { widest < 64 }
    {
        let hi = self.below(widest + 1);
        let lo = self.below(hi + 1);
        write!(text, "-x({lo},{hi})-")
    }

    /// A signature of 1 to 32 slots and gaps of up to 63 places, every second time a shorter one.
    pub(crate) fn signature_text(&mut self, heap: Global) -> Result<String, AllocError> {
        let mut text = String::new(heap);
        self.push_slot(&mut text)?;
        let short = self.below(2) == 0;
        let (slots, widest) = if short {
            (self.below(6), self.below(12))
        } else {
            (self.below(32), self.below(64))
        };
        for _ in 0..slots {
            self.push_gap(&mut text, widest)?;
            self.push_slot(&mut text)?;
        }
        Ok(text)
    }

    /// Readings below 5.
    pub(crate) fn readings(&mut self, heap: Global, length: u32) -> Result<Vec<u8>, AllocError> {
        let mut readings = Vec::new(heap);
        for _ in 0..length {
            readings.push(self.below(5) as u8)?;
        }
        Ok(readings)
    }
}
