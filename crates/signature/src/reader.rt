//! Reads the text of a signature with any written gauge.
ghost use Rattle.std.specs.Prelude.{◌≡◌, ℕ, ◌+◌, ◌-◌, ◌<◌, ◌≤◌, true, false, List, [], ◌∷◌, ◌++◌, is_ok};
ghost use Rattle.runs.specs.Signatures.{gaps_of, Blank, BlankFrom};
ghost use Rattle.signature.specs.Joins.{Allowed};
ghost use Rattle.signature.specs.Outcomes.{slots_at, signature_at, Left, answer};
ghost use Rattle.signature.specs.Grammar.{ReadsExactly, OnePlan, Answers};
ghost use Rattle.signature.specs.Refused.{Looks, RefusedAlike, GoesOn, BeginsSome};

use crate::gauge::{Gauge, WrittenGauge};
use crate::join::{read_join, refuse_gap};
use runs::gap::Gap;
use runs::signature::Signature;
use text::mark::{Mark, take_mark};
use text::refusal::{Layer, Refusal};

/// The most slots that a signature may have.
const MOST_SLOTS: u32 = 32;

/// The most bytes that the text of a signature may have.
const LONGEST: usize = 4096;

// Every slot empty, no slots, and every gap 0 to 0.
fn clear<G: Gauge>(gauge: &mut G, signature: &mut Signature)
    ensures empty { (j : ℕ) → j < 32 → (x : G.Reading) → G.Gauge.sets gauge.new j x ≡ false }
    ensures blank { Blank signature.new }
{
    for slot in 0..MOST_SLOTS {
        gauge.empty_slot(slot);
    }
    *signature = Signature::new();
}

// One slot more, behind a gap.
fn add_slot(signature: &mut Signature, gap: Gap)
    requires some { 0 < signature.old.slots }
    requires room { signature.old.slots < 32 }
    requires allowed { Allowed gap }
    ensures slots { signature.new.slots ≡ signature.old.slots + 1 }
    ensures gaps { gaps_of signature.new ≡ gaps_of signature.old ++ (gap ∷ []) }
    ensures past { BlankFrom signature.old (signature.old.slots - 1) → BlankFrom signature.new (signature.new.slots - 1) }
{
    signature.gaps[signature.slots as usize - 1] = gap;
    signature.slots += 1;
}

// Reads all slots into a gauge whose slots are empty and a signature that has none.
fn read_slots<G: WrittenGauge>(
    gauge: &mut G,
    signature: &mut Signature,
    text: &[u8],
) -> Result<(), Refusal>
    requires empty { (j : ℕ) → j < 32 → (x : G.Reading) → G.Gauge.sets gauge.old j x ≡ false }
    requires blank { Blank signature.old }
    ensures value { result ≡ answer (slots_at G.WrittenGauge.reads text.now) }
    ensures left { is_ok result ≡ true → Left (slots_at G.WrittenGauge.reads text.now) (G.Gauge.sets gauge.new) signature.new }
{
    let start = refuse_gap(text, 0)?;
    let mut at = gauge.write_slot(0, text, start)?;
    signature.slots = 1;
    while at < text.len() {
        let next = take_mark(text, at, Mark::Dash, Layer::Signature)?;
        let slot = signature.slots;
        if slot >= MOST_SLOTS {
            return Err(Refusal::ExtraSlot {
                layer: Layer::Signature,
                place: next,
            });
        }
        let join = read_join(text, next)?;
        at = gauge.write_slot(slot, text, join.end)?;
        add_slot(signature, join.value);
    }
    Ok(())
}

/// Reads the text of a signature: its slots into the gauge, their number and the gaps into `signature`.
/// After a refusal every slot is empty and the signature has none.
///
/// - `grammar`: a text is read as a plan exactly where the grammar derives that plan, within 4,096 bytes and 32 slots.
/// - `one`: the grammar derives at most one plan from a text.
/// - `alike`: over a gauge that looks no further than a slot's end, a text that is refused for want of a digit or a mark,
///   for a stray gap or a slot too many is refused whatever stands behind the refusal's place.
/// - `begins`: over a gauge whose refused slots can go on to some slot, the bytes before any refusal's place begin some
///   text of the grammar: nothing before that place is at fault.
/// - `answers`: the answer is no refusal exactly where the grammar derives a plan, and then that plan is in hand.
// The signature is lent, and not answered: callers rely on it that a refusal leaves theirs with no slots and every gap 0 to 0.
pub fn read_signature<G: WrittenGauge>(
    gauge: &mut G,
    signature: &mut Signature,
    text: &[u8],
) -> Result<(), Refusal>
    ensures value { result ≡ answer (signature_at G.WrittenGauge.reads text.now) }
    ensures left { Left (signature_at G.WrittenGauge.reads text.now) (G.Gauge.sets gauge.new) signature.new }
    ensures grammar { ReadsExactly G.WrittenGauge.reads text.now }
    ensures one { OnePlan G.WrittenGauge.reads text.now }
    ensures alike { Looks G.WrittenGauge.reads → RefusedAlike G.WrittenGauge.reads text.now }
    ensures begins { GoesOn G.WrittenGauge.reads → BeginsSome G.WrittenGauge.reads text.now }
    ensures answers { Answers G.WrittenGauge.reads text.now result (G.Gauge.sets gauge.new) signature.new }
{
    clear(gauge, signature);
    if text.len() > LONGEST {
        return Err(Refusal::LongText);
    }
    let answer = read_slots(gauge, signature, text);
    if answer.is_err() {
        clear(gauge, signature);
    }
    answer
}
