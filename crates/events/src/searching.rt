//! From the text of a signature and event codes to the sheet of mark words.
ghost use Rattle.std.specs.Prelude.{◌≡◌, length};
ghost use Rattle.events.specs.Searches.{searchable, counted, sheet_left, SignatureLeft};

use engines::engine::Engine;
use gauges::event::Event;
use runs::signature::Signature;
use search::searching::search;
use signature::reader::read_signature;
use text::refusal::Refusal;

/// Reads the signature and searches the codes with an engine of its own. A refusal leaves the sheet as it is.
pub fn search_codes<E: Engine + Drop>(
    engine: E,
    text: &[u8],
    codes: &[u8],
    signature: &mut Signature,
    sheet: &mut [u32],
) -> Result<usize, Refusal>
    ensures value { result ≡ counted codes.now (searchable E.Engine.LIMIT text.now (length codes.now) (length sheet.old)) }
    ensures sheet { sheet.new ≡ sheet_left codes.now sheet.old (searchable E.Engine.LIMIT text.now (length codes.now) (length sheet.old)) }
    ensures signature { SignatureLeft (searchable E.Engine.LIMIT text.now (length codes.now) (length sheet.old)) signature.new }
{
    let mut gauge = Event::new();
    read_signature(&mut gauge, signature, text)?;
    search(&gauge, engine, signature, codes, sheet)
}
