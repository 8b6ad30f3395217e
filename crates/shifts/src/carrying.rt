//! Making one call, whichever stage the record is in.
ghost use Rattle.std.specs.Prelude.{◌≡◌, true};
ghost use Rattle.records.specs.States.{meaning, state, opened};
ghost use Rattle.records.specs.Books.{lends};
ghost use Rattle.records.specs.Sound.{Keeps};
ghost use Rattle.shifts.specs.Carried.{Carries};
ghost use Rattle.shifts.specs.Replayed.{Ends};
ghost use Rattle.shifts.specs.Stands.{standing, answered, Obeys, Asks};

use crate::request::{Request, lent_entries};
use engines::engine::Engine;
use records::call::{Call, Reply};
use records::{ClosedRecord, OpenRecord, Record};
use signature::gauge::Gauge;
use text::refusal::Refusal;

/// A record in either stage.
pub enum Kept<G, E> {
    Open(OpenRecord<G, E>),
    Closed(ClosedRecord<G, E>),
}

// Asks a question; any other call is not taken.
fn ask<G: Gauge, E: Engine, S>(
    record: &Record<G, E, S>,
    readings: &[G::Reading],
    sheet: &[u32],
    call: &Call<G::Reading>,
    list: &mut [usize],
) -> Result<Reply, Refusal>
    ensures { Asks (meaning G.Gauge E.Engine) call.now list.old «record».now readings.now sheet.now (answered result list.new) }
{
    match call {
        Call::Word(place) => record.word(readings, sheet, *place).map(Reply::Word),
        Call::NextHit(from) => record.next_hit(readings, sheet, *from).map(Reply::Hit),
        // a `match`: with `map` an edit that asks for any hit is refused for a name alone
        Call::NextFinalHit(from) => match record.next_final_hit(readings, sheet, *from) {
            Ok(hit) => Ok(Reply::Hit(hit)),
            Err(refusal) => Err(refusal),
        },
        Call::Trace(end) => record
            .trace(readings, sheet, *end, list)
            .map(|()| Reply::Traced),
        Call::FinalHits => record.final_hits(readings, sheet, list).map(Reply::Named),
        Call::Append(_) | Call::Amend(_, _) | Call::Settle(_) | Call::Close => Ok(Reply::NotTaken),
    }
}

// Makes any call on an open record but closing it.
fn call_open<G: Gauge, E: Engine>(
    open: &mut OpenRecord<G, E>,
    readings: &mut [G::Reading],
    sheet: &mut [u32],
    call: &Call<G::Reading>,
    list: &mut [usize],
) -> Result<Reply, Refusal>
where
    G::Reading: Copy,
    requires { lends call.now ≡ true }
    ensures { Keeps (meaning G.Gauge E.Engine) call.now list.old (state opened «open».old readings.old sheet.old) (answered result list.new) (state opened «open».new readings.new sheet.new) }
{
    match call {
        Call::Append(reading) => open.append(readings, sheet, *reading).map(Reply::Placed),
        Call::Amend(place, reading) => open
            .amend(readings, sheet, *place, *reading)
            .map(Reply::Reworked),
        Call::Settle(place) => open.settle(readings, sheet, *place).map(Reply::Line),
        _ => ask(open, readings, sheet, call, list),
    }
}

impl<G: Gauge, E: Engine> Kept<G, E>
where
    G::Reading: Copy,
{
    /// Makes a call on the record, and gives it back with the answer. A closed record takes questions alone.
    pub fn make_call(
        self,
        readings: &mut [G::Reading],
        sheet: &mut [u32],
        call: &Call<G::Reading>,
        list: &mut [usize],
    ) -> (Kept<G, E>, Result<Reply, Refusal>)
        ensures { Obeys (meaning G.Gauge E.Engine) call.now list.old (standing self readings.old sheet.old) (answered result.1 list.new) (standing result.0 readings.new sheet.new) }
    {
        match self {
            Kept::Closed(closed) => {
                let reply = ask(&closed, readings, sheet, call, list);
                (Kept::Closed(closed), reply)
            }
            Kept::Open(mut open) => {
                if let Call::Close = call {
                    return (Kept::Closed(open.close()), Ok(Reply::Closed));
                }
                let reply = call_open(&mut open, readings, sheet, call, list);
                (Kept::Open(open), reply)
            }
        }
    }

    /// Makes the call of a request, and writes the answer down.
    pub fn carry_out(
        self,
        readings: &mut [G::Reading],
        sheet: &mut [u32],
        request: &mut Request<G::Reading>,
    ) -> Kept<G, E>
        ensures { Carries (meaning G.Gauge E.Engine) request.old (standing self readings.old sheet.old) request.new (standing result readings.new sheet.new) }
    {
        let call = request.call;
        let read = lent_entries(&call, request.lent, readings.len());
        let marked = lent_entries(&call, request.lent, sheet.len());
        let (kept, reply) = self.make_call(
            &mut readings[0..read],
            &mut sheet[0..marked],
            &call,
            &mut request.list,
        );
        request.answer = Some(reply);
        kept
    }
}

impl<G: Gauge, E: Engine> Kept<G, E> {
    /// The record closed, where it is not yet.
    pub fn close(self) -> ClosedRecord<G, E>
        ensures { Ends (meaning G.Gauge E.Engine) self result }
    {
        match self {
            Kept::Open(open) => open.close(),
            Kept::Closed(closed) => closed,
        }
    }
}
