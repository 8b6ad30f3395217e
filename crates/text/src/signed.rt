//! Signed numbers: digits, perhaps behind a `-`.
ghost use Rattle.std.specs.Prelude.{◌≡◌, IfOk};
ghost use Rattle.text.specs.Parsed.{Ahead};
ghost use Rattle.text.specs.Signed.{signed_at};

use crate::mark::{Mark, marked};
use crate::number::read_number;
use crate::parsed::Parsed;
use crate::refusal::Refusal;

/// The greatest number.
const GREATEST: u32 = i32::MAX as u32;

/// The greatest that may stand behind a `-`.
const FARTHEST: u32 = GREATEST + 1;

/// The signed number that begins at a place.
pub fn read_signed(text: &[u8], at: usize) -> Result<Parsed<i32>, Refusal>
    ensures value { result ≡ signed_at text.now at }
    ensures ahead { IfOk result (Ahead text.now at) }
{
    if !marked(text, at, Mark::Dash) {
        let number = read_number(text, at, GREATEST)?;
        return Ok(Parsed {
            value: number.value as i32,
            end: number.end,
        });
    }
    let number = read_number(text, at + 1, FARTHEST).map_err(|refusal| match refusal {
        Refusal::OutOfRange { .. } => Refusal::OutOfRange { place: at },
        _ => refusal,
    })?;
    Ok(Parsed {
        value: -i64::from(number.value) as i32,
        end: number.end,
    })
}
