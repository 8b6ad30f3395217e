//! The search of event codes with each engine, as C calls it.
#![tactic(auto)]

ghost use Rattle.std.specs.Prelude.{◌≡◌, length};
ghost use Rattle.events.specs.Outcomes.{outcome_of};
ghost use Rattle.events.specs.Searches.{searchable, counted, sheet_left};

use engines::mask::Masks;
use engines::ring::Ring;
use engines::word::Word;
use events::outcome::Outcome;
use events::searching::search_codes;
use runs::signature::Signature;

// One function an engine: C calls them by these names, and passes no type.

/// With the word engine, which takes a reach of 64.
#[unsafe(no_mangle)]
pub extern "C" fn search_word(text: &[u8], codes: &[u8], sheet: &mut [u32]) -> Outcome
    ensures value { result ≡ outcome_of (counted codes.now (searchable 64 text.now (length codes.now) (length sheet.old))) }
    ensures sheet { sheet.new ≡ sheet_left codes.now sheet.old (searchable 64 text.now (length codes.now) (length sheet.old)) }
{
    Outcome::from(search_codes(Word::new(), text, codes, &mut Signature::new(), sheet))
}

/// With the mask engine, which takes every signature.
#[unsafe(no_mangle)]
pub extern "C" fn search_mask(text: &[u8], codes: &[u8], sheet: &mut [u32]) -> Outcome
    ensures value { result ≡ outcome_of (counted codes.now (searchable 1985 text.now (length codes.now) (length sheet.old))) }
    ensures sheet { sheet.new ≡ sheet_left codes.now sheet.old (searchable 1985 text.now (length codes.now) (length sheet.old)) }
{
    Outcome::from(search_codes(Masks::new(), text, codes, &mut Signature::new(), sheet))
}

/// With the ring engine, which takes every signature.
#[unsafe(no_mangle)]
pub extern "C" fn search_ring(text: &[u8], codes: &[u8], sheet: &mut [u32]) -> Outcome
    ensures value { result ≡ outcome_of (counted codes.now (searchable 1985 text.now (length codes.now) (length sheet.old))) }
    ensures sheet { sheet.new ≡ sheet_left codes.now sheet.old (searchable 1985 text.now (length codes.now) (length sheet.old)) }
{
    Outcome::from(search_codes(Ring::new(), text, codes, &mut Signature::new(), sheet))
}
