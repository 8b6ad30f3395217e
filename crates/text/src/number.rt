//! Numbers: one or more decimal digits, leading zeros allowed, however many.
ghost use Rattle.std.specs.Prelude.{◌≡◌, ◌≤◌, IfOk};
ghost use Rattle.std.specs.List.{AllPass};
ghost use Rattle.text.specs.Words.{is_digit};
ghost use Rattle.text.specs.Numbers.{value_of, within, number_at};
ghost use Rattle.text.specs.Parsed.{Ahead};

use crate::lexer::{Word, next_word};
use crate::parsed::Parsed;
use crate::refusal::Refusal;

// The number that the digits write, unless it is above `limit`.
fn value_within(digits: &[u8], limit: u32) -> Option<u32>
    requires { AllPass is_digit digits.now }
    ensures { result ≡ within limit (value_of digits.now) }
{
    let mut value: u64 = 0;
    // A `for`: a fold that may stop would test each sum for overflow, which the limit rules out here.
    for digit in digits {
        value = value * 10 + u64::from(*digit - b'0');
        if value > u64::from(limit) {
            return None;
        }
    }
    Some(value as u32)
}

/// The number that begins at a place, at most `limit`.
pub fn read_number(text: &[u8], at: usize, limit: u32) -> Result<Parsed<u32>, Refusal>
    ensures value { result ≡ number_at limit text.now at }
    ensures few { IfOk result (λ n. n.value ≤ limit) }
    ensures ahead { IfOk result (Ahead text.now at) }
{
    match next_word(text, at) {
        Word::Digits {
            text: digits,
            place,
        } => match value_within(digits, limit) {
            Some(value) => Ok(Parsed {
                value,
                end: place + digits.len(),
            }),
            None => Err(Refusal::OutOfRange { place }),
        },
        Word::Mark { place, .. } => Err(Refusal::NoDigit { place }),
        Word::End { place } => Err(Refusal::NoDigit { place }),
    }
}
