//! The mark words of a list of readings, place by place and slot by slot.
ghost use Rattle.std.specs.Prelude.{◌≡◌, length};

use gauges::event::Event;
use runs::gap::Gap;
use runs::signature::Signature;
use signature::gauge::Gauge;

// Whether a word has the bit of a slot. Not the test that the engines use: the two are compared.
fn is_set(word: u32, slot: u32) -> bool {
    word.checked_shr(slot).is_some_and(|rest| rest % 2 == 1)
}

// Whether one of the words before a place, the last of them the nearest, bears the slot's mark within the gap.
fn has_earlier(words: &[u32], gap: Gap, slot: u32) -> bool {
    let within = usize::from(gap.lo)..=usize::from(gap.hi);
    words.iter().rev().enumerate().any(|(between, word)| within.contains(&between)
        && is_set(*word, slot))
}

// The word of a place behind these words, whose reading has these fits.
fn plain_word(words: &[u32], signature: &Signature, fits: u32) -> u32 {
    let mut word = fits & 1;
    for slot in 1..signature.slots {
        if is_set(fits, slot) && has_earlier(words, signature.gaps[slot as usize - 1], slot - 1) {
            word |= 1 << slot;
        }
    }
    word
}

/// Fills the sheet with the words of the readings.
pub(crate) fn plain_sheet(gauge: &Event, signature: &Signature, readings: &[u8], sheet: &mut [u32])
    requires { length readings.now ≡ length sheet.old }
{
    for (place, reading) in readings.iter().enumerate() {
        let fits = gauge.try_reading(reading);
        sheet[place] = plain_word(&sheet[..place], signature, fits);
    }
}
