//! The search: the mark word of every place, and the number of hits.
ghost use Rattle.std.specs.Prelude.{◌≡◌, length};
ghost use Rattle.runs.specs.Signatures.{pattern_of};
ghost use Rattle.search.specs.Openings.{opening};
ghost use Rattle.search.specs.Sheets.{Fitted, bearing, found, sheet_after};

use crate::opening::check_opening;
use engines::engine::Engine;
use runs::bits::bears;
use runs::signature::Signature;
use signature::gauge::Gauge;
use text::refusal::Refusal;

// Writes at each place which slots its reading fits.
fn try_all<G: Gauge>(gauge: &G, readings: &[G::Reading], sheet: &mut [u32])
    requires { length readings.now ≡ length sheet.old }
    ensures { Fitted (G.Gauge.sets gauge.now) readings.now sheet.new }
{
    // by place: after a zip with the sheet's `iter_mut` no proof knows what the sheet holds
    for (place, reading) in readings.iter().enumerate() {
        sheet[place] = gauge.try_reading(reading);
    }
}

// How many words of a sheet bear the mark of a slot.
fn count_marked(sheet: &[u32], slot: u32) -> usize
    ensures { result ≡ bearing slot sheet.now }
{
    // by a loop: as a chain it takes a branch a word, and a search with many hits three times as long
    let mut count = 0;
    for word in sheet {
        if bears(*word, slot) {
            count += 1;
        }
    }
    count
}

/// Writes the mark word of each place into the sheet and answers the number of hits, with an engine of its own.
/// A refusal writes nothing.
pub fn search<G: Gauge, E: Engine + Drop>(
    gauge: &G,
    mut engine: E,
    signature: &Signature,
    readings: &[G::Reading],
    sheet: &mut [u32],
) -> Result<usize, Refusal>
    ensures value { result ≡ found (pattern_of (G.Gauge.sets gauge.now) signature.now) readings.now (opening E.Engine.LIMIT (length readings.now) (length sheet.old) signature.now) }
    ensures sheet { sheet.new ≡ sheet_after (pattern_of (G.Gauge.sets gauge.now) signature.now) readings.now sheet.old (opening E.Engine.LIMIT (length readings.now) (length sheet.old) signature.now) }
{
    check_opening::<E>(readings.len(), sheet.len(), signature)?;
    engine.make(signature);
    try_all(gauge, readings, sheet);
    engine.stretch(sheet);
    Ok(count_marked(sheet, signature.slots - 1))
}
