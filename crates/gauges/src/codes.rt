//! The text of a slot of event codes: a code, or members in brackets.
ghost use Rattle.std.specs.Prelude.{◌≡◌, ℕ, ◌+◌, ◌<◌, ◌≤◌, Bool, false, length, IfOk, slice_index_or};
ghost use Rattle.text.specs.declared.mark.Mark.{Mark};
ghost use Rattle.gauges.specs.Codes.{member_at, covers_any, members_at, slot_at, holds, behind, ended};
ghost use Rattle.gauges.specs.Grammar.{ReadsSlot};

pub use crate::code_set::{Codes, Member};
use text::mark::{Mark, marked, take_mark};
use text::number::read_number;
use text::parsed::Parsed;
use text::refusal::{Layer, Refusal};

/// The greatest event code.
const LAST: u32 = 255;

/// A member: a code, or two codes with `:` between, the first no greater.
pub fn read_member(text: &[u8], at: usize) -> Result<Parsed<Member>, Refusal>
    ensures value { result ≡ member_at text.now at }
    ensures bound { IfOk result (λ m. (m.value.high < 256) × (m.value.low ≤ m.value.high) × (at < m.end) × (m.end ≤ length text.now)) }
{
    let first = read_number(text, at, LAST)?;
    let low = first.value as u8;
    if !marked(text, first.end, Mark::Colon) {
        return Ok(Parsed {
            value: Member { low, high: low },
            end: first.end,
        });
    }
    let last = read_number(text, first.end + 1, LAST)?;
    let high = last.value as u8;
    if low > high {
        return Err(Refusal::Backward {
            layer: Layer::Slot,
            place: at,
        });
    }
    Ok(Parsed {
        value: Member { low, high },
        end: last.end,
    })
}

// Reads the members up to the closing mark, one space between two.
fn read_members(text: &[u8], at: usize, close: Mark) -> Result<Parsed<Codes>, Refusal>
    requires { at ≤ length text.now }
    ensures value { ended result ≡ behind (members_at close text.now at) }
    ensures codes { IfOk result (λ r. IfOk (members_at close text.now at) (λ ms. (c : ℕ) → slice_index_or r.value.has c false ≡ covers_any ms.0 c)) }
    ensures bound { IfOk result (λ r. (at < r.end) × (r.end ≤ length text.now)) }
{
    let mut codes = Codes::new();
    let mut place = at;
    loop {
        let member = read_member(text, place)?;
        codes.put_member(member.value);
        if marked(text, member.end, close) {
            return Ok(Parsed {
                value: codes,
                end: member.end + 1,
            });
        }
        place = take_mark(text, member.end, Mark::Space, Layer::Slot)?;
    }
}

// The codes of a slot's text.
pub(crate) fn read_codes(text: &[u8], at: usize) -> Result<Parsed<Codes>, Refusal>
    ensures value { ended result ≡ behind (slot_at text.now at) }
    ensures codes { IfOk result (λ r. IfOk (slot_at text.now at) (λ v. (c : ℕ) → c < 256 → slice_index_or r.value.has c false ≡ holds v.0 c)) }
    ensures grammar { ReadsSlot text.now at result }
{
    match text.get(at).copied().map(char::from) {
        Some('[') => read_members(text, at + 1, Mark::ClassClose),
        Some('{') => {
            let mut read = read_members(text, at + 1, Mark::BarredClose)?;
            read.value.turn();
            Ok(read)
        }
        _ => {
            let code = read_number(text, at, LAST)?;
            let low = code.value as u8;
            let mut codes = Codes::new();
            codes.put_member(Member { low, high: low });
            Ok(Parsed {
                value: codes,
                end: code.end,
            })
        }
    }
}
