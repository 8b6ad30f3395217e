//! The text of a slot of currents: a target, perhaps with a tolerance.
ghost use Rattle.std.specs.Prelude.{◌≡◌, ℕ, ◌+◌, ◌<◌, ◌≤◌, length, IfOk};
ghost use Rattle.gauges.specs.Currents.{within, band_at};

use text::mark::{Mark, marked};
use text::number::read_number;
use text::parsed::Parsed;
use text::refusal::Refusal;
use text::signed::read_signed;

/// The greatest tolerance.
const WIDEST: u32 = 65535;

/// The currents that differ from the target by the tolerance at most, in milliamperes.
#[derive(Clone, Copy)]
pub struct Band {
    pub target: i32,
    pub tolerance: u16,
}

impl Band {
    /// Whether the reading is in the band.
    pub fn holds(&self, reading: i32) -> bool
        ensures { result ≡ within self.now.target self.now.tolerance reading }
    {
        let difference = i64::from(reading) - i64::from(self.target);
        difference.unsigned_abs() <= u64::from(self.tolerance)
    }
}

/// A target, and behind a `~` a tolerance; without one the tolerance is 0.
pub fn read_band(text: &[u8], at: usize) -> Result<Parsed<Band>, Refusal>
    ensures value { result ≡ band_at text.now at }
    ensures bound { IfOk result (λ b. (at < b.end) × (b.end ≤ length text.now)) }
{
    let target = read_signed(text, at)?;
    if !marked(text, target.end, Mark::Tilde) {
        return Ok(Parsed {
            value: Band {
                target: target.value,
                tolerance: 0,
            },
            end: target.end,
        });
    }
    let tolerance = read_number(text, target.end + 1, WIDEST)?;
    Ok(Parsed {
        value: Band {
            target: target.value,
            tolerance: tolerance.value as u16,
        },
        end: tolerance.end,
    })
}
