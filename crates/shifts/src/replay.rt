//! A whole shift: the opening, any list of calls, and the closing.
ghost use Rattle.std.specs.Result.{MatchResult};
ghost use Rattle.records.specs.States.{meaning};
ghost use Rattle.shifts.specs.Replayed.{Replayed, UnopenedShift};

use crate::carrying::Kept;
use crate::request::Request;
use engines::engine::Engine;
use records::opening::Unopened;
use records::{ClosedRecord, Record};
use runs::signature::Signature;
use signature::gauge::Gauge;

/// Opens a record, makes each call of a list and writes its answer down, and closes the record. A refused opening
/// hands gauge and engine back, and nothing is written.
pub fn replay<G: Gauge, E: Engine>(
    gauge: G,
    engine: E,
    signature: &Signature,
    readings: &mut [G::Reading],
    sheet: &mut [u32],
    requests: &mut [Request<G::Reading>],
) -> Result<ClosedRecord<G, E>, Unopened<G, E>>
where
    G::Reading: Copy,
    ensures { MatchResult result (λ o. Replayed (meaning G.Gauge E.Engine) E.Engine.LIMIT gauge signature.now readings.old sheet.old requests.old requests.new o readings.new sheet.new) (UnopenedShift E.Engine.LIMIT gauge engine signature.now readings.old sheet.old requests.old requests.new readings.new sheet.new) }
{
    let mut kept = Kept::Open(Record::open(gauge, engine, signature, readings, sheet)?);
    // by number: over `iter_mut` an edit that leaves a request out is refused for its form, as a right body of that form is too
    for i in 0..requests.len() {
        kept = kept.carry_out(readings, sheet, &mut requests[i]);
    }
    Ok(kept.close())
}
