//! Runs the three engines over the same random readings and compares their sheets with a plain recomputation.
#![tactic(auto)]

mod plain;
mod random;

use engines::engine::Engine;
use engines::mask::Masks;
use engines::ring::Ring;
use engines::word::Word;
use gauges::event::Event;
use plain::plain_sheet;
use random::Random;
use runs::signature::Signature;
use search::searching::search;
use signature::reader::read_signature;
use std::alloc::{AllocError, Global};
use text::refusal::Refusal;

/// What came of the trials so far.
#[derive(Clone, Copy, Default)]
struct Tally {
    alike: u32,
    unlike: u32,
    refused: u32,
}

impl Tally {
    // One trial more: whether its words were those expected, or why its engine refused them.
    fn count(&mut self, outcome: Result<bool, Refusal>) {
        let kind = match outcome {
            Ok(true) => &mut self.alike,
            Ok(false) => &mut self.unlike,
            Err(_) => &mut self.refused,
        };
        *kind = kind.saturating_add(1);
    }
}

// Whether the engine makes of the readings the words that are expected, unless it refuses them.
fn trial<E: Engine + Drop>(
    heap: Global,
    engine: E,
    gauge: &Event,
    signature: &Signature,
    readings: &[u8],
    expected: &[u32],
) -> Result<Result<bool, Refusal>, AllocError> {
    let mut sheet = vec![in heap; 0; readings.len()]?;
    let searched = search(gauge, engine, signature, readings, &mut sheet);
    Ok(searched.map(|_| sheet.as_slice() == expected))
}

// One signature and one list of readings, on all three engines.
fn compare(
    heap: Global,
    random: &mut Random,
    length: u32,
    tally: &mut Tally,
) -> Result<(), AllocError> {
    let text = random.signature_text(heap)?;
    let readings = random.readings(heap, length)?;
    let mut gauge = Event::new();
    let mut signature = Signature::new();
    if read_signature(&mut gauge, &mut signature, text.as_bytes()).is_err() {
        tally.count(Ok(false));
        return Ok(());
    }
    let mut expected = vec![in heap; 0; readings.len()]?;
    plain_sheet(&gauge, &signature, &readings, &mut expected);
    tally.count(trial(heap, Ring::new(), &gauge, &signature, &readings, &expected)?);
    tally.count(trial(heap, Masks::new(), &gauge, &signature, &readings, &expected)?);
    tally.count(trial(heap, Word::new(), &gauge, &signature, &readings, &expected)?);
    Ok(())
}

fn run(rt: &HostRuntime) -> anyhow::Result<()> {
    let mut random = Random::new(2026);
    let mut tally = Tally::default();
    for length in 1..200 {
        compare(rt.alloc(), &mut random, length, &mut tally)?;
    }
    let Tally {
        alike,
        unlike,
        refused,
    } = tally;
    println!(rt; "alike {alike}, unlike {unlike}, refused {refused}")?;
    Ok(())
}

fn main(rt: HostRuntime) -> anyhow::Result<()> {
    run(&rt)
}
