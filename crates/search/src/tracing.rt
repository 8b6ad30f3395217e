//! The trace of a hit: from the hit back, each earlier place is the latest that the gap allows.
ghost use Rattle.std.specs.Prelude.{◌≡◌, ℕ, suc, ◌-◌, ◌<◌, ◌≤◌, length};
ghost use Rattle.runs.specs.Signatures.{gaps_of};
ghost use Rattle.search.specs.Traces.{sheet_marks, sheet_hit, latest_before, tracing, places_after};

use runs::bits::bears;
use runs::signature::Signature;
use text::refusal::Refusal;

// Signature and sheet stay two parameters: a record owns the one and its caller the other, so a pair would be made anew for each call.

// The latest place before `place`, within the gap behind the slot, that bears the slot's mark.
fn latest(signature: &Signature, sheet: &[u32], slot: usize, place: usize) -> Option<usize>
    requires slot { suc slot < signature.now.slots }
    requires place { place ≤ length sheet.now }
    ensures { result ≡ latest_before (gaps_of signature.now) (sheet_marks sheet.now) slot place }
{
    // a loop: in a chain of `map_while` and `find` the closure reads the sheet at an index that no proof can bound
    let gap = signature.gaps[slot];
    for between in usize::from(gap.lo)..=usize::from(gap.hi) {
        let earlier = place.checked_sub(between + 1)?;
        if bears(sheet[earlier], slot as u32) {
            return Some(earlier);
        }
    }
    None
}

/// Whether a hit ends at a place of the sheet.
pub fn is_hit(signature: &Signature, sheet: &[u32], place: usize) -> bool
    ensures { result ≡ sheet_hit signature.now sheet.now place }
{
    place < sheet.len() && signature.slots > 0 && bears(sheet[place], signature.slots - 1)
}

/// Writes the trace of the hit at `end` into the first entries of `places`, one for each slot. Refuses a place
/// past the sheet, then one where no hit ends, then a list that is too short, and then writes nothing.
pub fn trace(
    signature: &Signature,
    sheet: &[u32],
    end: usize,
    places: &mut [usize],
) -> Result<(), Refusal>
    ensures value { result ≡ tracing signature.now sheet.now end (length places.old) }
    ensures places { places.new ≡ places_after signature.now sheet.now end places.old }
{
    if end >= sheet.len() {
        return Err(Refusal::NoPlace { place: end });
    }
    if !is_hit(signature, sheet, end) {
        return Err(Refusal::NoHit { place: end });
    }
    let slots = signature.slots as usize;
    if places.len() < slots {
        return Err(Refusal::ShortList { place: end });
    }
    places[slots - 1] = end;
    // in a sheet that no search wrote an earlier place may be missing: 0 stands for it
    for slot in (0..slots - 1).rev() {
        places[slot] = latest(signature, sheet, slot, places[slot + 1]).unwrap_or(0);
    }
    Ok(())
}
