//! Two gauges as one: a slot's text is left, a mark, right.
ghost use Rattle.std.specs.Prelude.{◌≡◌, true, false, is_ok};
ghost use Rattle.text.specs.declared.mark.Mark.{Mark};
ghost use Rattle.signature.specs.Sets.{Tried, Put, nothing};
ghost use Rattle.signature.specs.Slots.{Reads, end_of};
ghost use Rattle.gauges.specs.Pairs.{Joins, parts_at, pair_at, left_of, right_of, Kept};
ghost use Rattle.gauges.specs.PairsLemmas.{pair_within, pair_past};

use signature::gauge::{Gauge, WrittenGauge};
use std::marker::PhantomData;
use text::mark::{Mark, take_mark};
use text::refusal::{Layer, Refusal};

/// What two gauges make together: the left one's readings are of type X, the right one's of type Y.
pub trait Joint<X, Y> {
    type Reading;

    // what a set of the left and one of the right make together
    ghost join: { Joins X Y Self.Reading };

    // what a text says, by what it says of a slot of each
    ghost reads: { Reads X → Reads Y → Reads Self.Reading };

    ghost MARK: { Mark };

    /// The mark between left and right.
    const MARK: Mark;

    /// A word whose bit j is set exactly where the reading is in what the two sets of slot j make together.
    fn try_both<L, R>(left: &L, right: &R, reading: &Self::Reading) -> u32
    where
        L: Gauge<Reading = X>,
        R: Gauge<Reading = Y>,
        ensures { Tried (λ j. join (L.Gauge.sets left.now j) (R.Gauge.sets right.now j)) reading.now result };

    // two empty sets make an empty one
    ghost empty: { (x : Self.Reading) → join nothing nothing x ≡ false };

    // left, the mark, right
    ghost spelled: { reads ≡ pair_at MARK join };
}

/// Empties the slot in both gauges.
pub fn empty_pair<L: Gauge, R: Gauge>(left: &mut L, right: &mut R, slot: u32)
    ensures left { Put slot nothing (L.Gauge.sets left.old) (L.Gauge.sets left.new) }
    ensures right { Put slot nothing (R.Gauge.sets right.old) (R.Gauge.sets right.new) }
{
    left.empty_slot(slot);
    right.empty_slot(slot);
}

// Writes left, mark and right as far as they are not refused.
fn write_parts<L: WrittenGauge, R: WrittenGauge>(
    left: &mut L,
    right: &mut R,
    mark: Mark,
    slot: u32,
    text: &[u8],
    at: usize,
) -> Result<usize, Refusal>
    ensures value { result ≡ end_of slot at (parts_at mark L.WrittenGauge.reads R.WrittenGauge.reads text.now at) }
    ensures left { is_ok result ≡ true → Put slot (left_of (parts_at mark L.WrittenGauge.reads R.WrittenGauge.reads text.now at)) (L.Gauge.sets left.old) (L.Gauge.sets left.new) }
    ensures right { is_ok result ≡ true → Put slot (right_of (parts_at mark L.WrittenGauge.reads R.WrittenGauge.reads text.now at)) (R.Gauge.sets right.old) (R.Gauge.sets right.new) }
    ensures others { (Kept slot (L.Gauge.sets left.old) (L.Gauge.sets left.new)) × (Kept slot (R.Gauge.sets right.old) (R.Gauge.sets right.new)) }
{
    let middle = left.write_slot(slot, text, at)?;
    let next = take_mark(text, middle, mark, Layer::Slot)?;
    right.write_slot(slot, text, next)
}

/// Writes the slot in both gauges; a refusal leaves it empty in both.
pub fn write_pair<L: WrittenGauge, R: WrittenGauge>(
    left: &mut L,
    right: &mut R,
    mark: Mark,
    slot: u32,
    text: &[u8],
    at: usize,
) -> Result<usize, Refusal>
    ensures value { result ≡ end_of slot at (parts_at mark L.WrittenGauge.reads R.WrittenGauge.reads text.now at) }
    ensures left { Put slot (left_of (parts_at mark L.WrittenGauge.reads R.WrittenGauge.reads text.now at)) (L.Gauge.sets left.old) (L.Gauge.sets left.new) }
    ensures right { Put slot (right_of (parts_at mark L.WrittenGauge.reads R.WrittenGauge.reads text.now at)) (R.Gauge.sets right.old) (R.Gauge.sets right.new) }
{
    let written = write_parts(left, right, mark, slot, text, at);
    if written.is_err() {
        empty_pair(left, right, slot);
    }
    written
}

/// Two gauges and what they make together.
#[derive(Drop)]
pub struct Pair<L, R, K> {
    left: L,
    right: R,
    joint: PhantomData<K>,
}

impl<L, R, K> Pair<L, R, K>
where
    L: Gauge,
    R: Gauge,
    K: Joint<L::Reading, R::Reading>,
{
    /// The two gauges as they are.
    pub fn new(left: L, right: R) -> Pair<L, R, K>
        ensures { (result.left ≡ left) × (result.right ≡ right) }
    {
        Pair {
            left,
            right,
            joint: PhantomData,
        }
    }

    /// Empties the slot in both gauges.
    pub fn empty_pair(&mut self, slot: u32)
        ensures left { Put slot nothing (L.Gauge.sets self.old.left) (L.Gauge.sets self.new.left) }
        ensures right { Put slot nothing (R.Gauge.sets self.old.right) (R.Gauge.sets self.new.right) }
    {
        empty_pair(&mut self.left, &mut self.right, slot)
    }
}

impl<L, R, K> Pair<L, R, K>
where
    L: WrittenGauge,
    R: WrittenGauge,
    K: Joint<L::Reading, R::Reading>,
{
    /// Writes the slot in both gauges; a refusal leaves it empty in both.
    pub fn write_pair(&mut self, slot: u32, text: &[u8], at: usize) -> Result<usize, Refusal>
        ensures value { result ≡ end_of slot at (parts_at K.Joint.MARK L.WrittenGauge.reads R.WrittenGauge.reads text.now at) }
        ensures left { Put slot (left_of (parts_at K.Joint.MARK L.WrittenGauge.reads R.WrittenGauge.reads text.now at)) (L.Gauge.sets self.old.left) (L.Gauge.sets self.new.left) }
        ensures right { Put slot (right_of (parts_at K.Joint.MARK L.WrittenGauge.reads R.WrittenGauge.reads text.now at)) (R.Gauge.sets self.old.right) (R.Gauge.sets self.new.right) }
    {
        write_pair(&mut self.left, &mut self.right, K::MARK, slot, text, at)
    }
}

impl<L, R, K> Gauge for Pair<L, R, K>
where
    L: Gauge,
    R: Gauge,
    K: Joint<L::Reading, R::Reading>,
{
    type Reading = K::Reading;

    ghost sets = { λ g j. K.Joint.join (L.Gauge.sets g.left j) (R.Gauge.sets g.right j) };

    fn try_reading(&self, reading: &K::Reading) -> u32 {
        K::try_both(&self.left, &self.right, reading)
    }

    fn empty_slot(&mut self, slot: u32) {
        self.empty_pair(slot)
    }
}

impl<L, R, K> WrittenGauge for Pair<L, R, K>
where
    L: WrittenGauge,
    R: WrittenGauge,
    K: Joint<L::Reading, R::Reading>,
{
    ghost reads = { K.Joint.reads L.WrittenGauge.reads R.WrittenGauge.reads };

    ghost within = { pair_within _ _ _ K.Joint.spelled _ _ L.WrittenGauge.within R.WrittenGauge.within };

    ghost past = { pair_past _ _ _ K.Joint.spelled _ _ L.WrittenGauge.past };

    fn write_slot(&mut self, slot: u32, text: &[u8], at: usize) -> Result<usize, Refusal> {
        self.write_pair(slot, text, at)
    }
}
