//! What stands between two slots of a signature's text.
ghost use Rattle.std.specs.Prelude.{◌≡◌, ◌≤◌, IfOk};
ghost use Rattle.text.specs.Parsed.{Ahead};
ghost use Rattle.signature.specs.Joins.{Allowed, gap_at, no_gap_at, join_at};

use runs::gap::Gap;
use text::mark::{Mark, marked, take_mark};
use text::number::read_number;
use text::parsed::Parsed;
use text::refusal::{Layer, Refusal};

/// The most places that a gap may have.
const WIDEST: u32 = 63;

/// `x(lo,hi)`
pub fn read_gap(text: &[u8], at: usize) -> Result<Parsed<Gap>, Refusal>
    ensures value { result ≡ gap_at text.now at }
    ensures allowed { IfOk result (λ g. Allowed g.value) }
    ensures ahead { IfOk result (Ahead text.now at) }
{
    let open = take_mark(text, at, Mark::Gap, Layer::Signature)?;
    let first = take_mark(text, open, Mark::Open, Layer::Signature)?;
    let lo = read_number(text, first, WIDEST)?;
    let second = take_mark(text, lo.end, Mark::Comma, Layer::Signature)?;
    let hi = read_number(text, second, WIDEST)?;
    if lo.value > hi.value {
        return Err(Refusal::Backward {
            layer: Layer::Signature,
            place: first,
        });
    }
    let end = take_mark(text, hi.end, Mark::Close, Layer::Signature)?;
    Ok(Parsed {
        value: Gap {
            lo: lo.value as u8,
            hi: hi.value as u8,
        },
        end,
    })
}

/// The place itself, unless a gap begins there.
pub fn refuse_gap(text: &[u8], at: usize) -> Result<usize, Refusal>
    ensures { result ≡ no_gap_at text.now at }
{
    if marked(text, at, Mark::Gap) {
        return Err(Refusal::StrayGap { place: at });
    }
    Ok(at)
}

/// What may stand between a `-` and the next slot: nothing, or a gap and a further `-`.
pub fn read_join(text: &[u8], at: usize) -> Result<Parsed<Gap>, Refusal>
    ensures value { result ≡ join_at text.now at }
    ensures allowed { IfOk result (λ g. Allowed g.value) }
    ensures onward { IfOk result (λ g. at ≤ g.end) }
{
    if !marked(text, at, Mark::Gap) {
        return Ok(Parsed {
            value: Gap::default(),
            end: at,
        });
    }
    let gap = read_gap(text, at)?;
    let after = take_mark(text, gap.end, Mark::Dash, Layer::Signature)?;
    let end = refuse_gap(text, after)?;
    Ok(Parsed {
        value: gap.value,
        end,
    })
}
