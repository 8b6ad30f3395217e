//! What the job program prints.
ghost use Rattle.std.specs.Prelude.{◌≡◌, ℕ, ◌≤◌, true, List, ◌++◌, length, IfOk, string_bytes, OnOk};
ghost use Rattle.search.specs.Traces.{sheet_hit, hits_of, trace_of};
ghost use Rattle.job.specs.Printed.{text_of_refusal, spaced, hit_line, hit_lines, last_line};

use runs::signature::Signature;
use search::tracing::{is_hit, trace};
use std::alloc::{AllocError, Global};
use std::fmt::Write;
use text::refusal::Refusal;

/// The line of a refusal.
pub fn refusal_text(heap: Global, refusal: Refusal) -> Result<String, AllocError>
    ensures { IfOk result (λ t. string_bytes t ≡ text_of_refusal refusal) }
{
    format!(in heap; "{refusal}\n")
}

// Each place behind a space.
fn push_places(text: &mut String, places: &[usize]) -> Result<(), AllocError>
    ensures { OnOk result (string_bytes text.new ≡ string_bytes text.old ++ spaced places.now) }
{
    for place in places {
        write!(text, " {place}")?;
    }
    Ok(())
}

// The line of a hit: its place, and the places of its trace.
fn push_hit(
    text: &mut String,
    signature: &Signature,
    sheet: &[u32],
    end: usize,
) -> Result<(), AllocError>
    requires { sheet_hit signature.now sheet.now end ≡ true }
    ensures { OnOk result (string_bytes text.new ≡ string_bytes text.old ++ hit_line end (trace_of signature.now sheet.now end)) }
{
    let mut places = [0; 32];
    let _ = trace(signature, sheet, end, &mut places);
    write!(text, "hit {end} at")?;
    push_places(text, &places[..signature.slots as usize])?;
    writeln!(text)
}

/// A line for each hit, lowest first, and one with the number of hits and of readings.
pub fn report_text(
    heap: Global,
    signature: &Signature,
    sheet: &[u32],
    count: usize,
) -> Result<String, AllocError>
    ensures { IfOk result (λ t. string_bytes t ≡ hit_lines (trace_of signature.now sheet.now) (hits_of signature.now sheet.now) ++ last_line count (length sheet.now)) }
{
    let mut text = String::new(heap);
    for place in 0..sheet.len() {
        if is_hit(signature, sheet, place) {
            push_hit(&mut text, signature, sheet, place)?;
        }
    }
    let readings = sheet.len();
    writeln!(text, "hits {count} of {readings}")?;
    Ok(text)
}
