//! Why a call is refused: a number, a layer and a place.
ghost use Rattle.std.specs.Prelude.{◌≡◌, Some};
ghost use Rattle.text.specs.Refusals.{number_of, layer_of, place_of, layer_name, refusal_line};

use std::error::Error;
use std::fmt;

/// The part of the software that refuses.
#[derive(Clone, Copy, PartialEq, Eq, Debug)]
pub enum Layer {
    Number,
    Slot,
    Signature,
    Record,
    File,
}

impl fmt::Display for Layer {
    ghost output = { λ l. Some (layer_name l) };

    fn fmt<W: fmt::Write>(&self, f: &mut fmt::Formatter<W>) -> fmt::Result {
        f.write_str(match self {
            Layer::Number => "number",
            Layer::Slot => "slot",
            Layer::Signature => "signature",
            Layer::Record => "record",
            Layer::File => "file",
        })
    }
}

/// Each case is one reason; places in a text count its bytes from 0.
#[derive(Clone, Copy, PartialEq, Eq, Debug)]
pub enum Refusal {
    /// The text of a signature has more than 4,096 bytes.
    LongText,
    /// A digit is wanted, or a slot must begin, and nothing that does so is there.
    NoDigit { place: usize },
    /// A number is out of its range; the place of its first character, sign included.
    OutOfRange { place: usize },
    /// A mark is missing where it is required.
    NoMark { layer: Layer, place: usize },
    /// The first number of a pair or of a gap is greater than the second; the first one's place.
    Backward { layer: Layer, place: usize },
    /// A slot past the 32nd.
    ExtraSlot { layer: Layer, place: usize },
    /// A gap stands first in the text or straight after a gap; the place of its `x`.
    StrayGap { place: usize },
    /// The two buffers differ in length, are empty, or hold more than 1,000,000 entries.
    Buffers,
    /// The signature has no slots.
    NoSlots,
    /// The signature reaches farther than the engine takes.
    FarReach,
    /// The record has no room for a reading more; its count.
    Full { place: usize },
    /// No reading stands at the place.
    NoPlace { place: usize },
    /// The place lies below the line, so its reading stays.
    Settled { place: usize },
    /// The line cannot go above the count.
    LineAbove { place: usize },
    /// The line does not go back.
    LineBack { place: usize },
    /// No hit ends at the place.
    NoHit { place: usize },
    /// The list for the trace of the hit at the place has fewer entries than there are slots.
    ShortList { place: usize },
    /// A buffer has not the length that it had when the record was opened; the record's count.
    OtherBuffers { place: usize },
    /// A file of fewer than 8 or more than 16,384 bytes.
    FileSize { bytes: usize },
    /// A file whose length is not what its header says.
    FileParts { bytes: usize },
}

impl Refusal {
    /// The number by which the refusal is known.
    pub fn number(&self) -> u32
        ensures { result ≡ number_of self.now }
    {
        match self {
            Refusal::LongText => 1,
            Refusal::NoDigit { .. } => 2,
            Refusal::OutOfRange { .. } => 3,
            Refusal::NoMark { .. } => 4,
            Refusal::Backward { .. } => 5,
            Refusal::ExtraSlot { .. } => 6,
            Refusal::StrayGap { .. } => 7,
            Refusal::Buffers => 8,
            Refusal::NoSlots => 9,
            Refusal::FarReach => 10,
            Refusal::Full { .. } => 11,
            Refusal::NoPlace { .. } => 12,
            Refusal::Settled { .. } => 13,
            Refusal::LineAbove { .. } => 14,
            Refusal::LineBack { .. } => 15,
            Refusal::NoHit { .. } => 16,
            Refusal::ShortList { .. } => 17,
            Refusal::OtherBuffers { .. } => 18,
            Refusal::FileSize { .. } => 19,
            Refusal::FileParts { .. } => 20,
        }
    }

    /// The layer that refuses.
    pub fn layer(&self) -> Layer
        ensures { result ≡ layer_of self.now }
    {
        match *self {
            Refusal::LongText | Refusal::StrayGap { .. } => Layer::Signature,
            Refusal::NoDigit { .. } | Refusal::OutOfRange { .. } => Layer::Number,
            Refusal::NoMark { layer, .. }
            | Refusal::Backward { layer, .. }
            | Refusal::ExtraSlot { layer, .. } => layer,
            Refusal::Buffers
            | Refusal::NoSlots
            | Refusal::FarReach
            | Refusal::Full { .. }
            | Refusal::NoPlace { .. }
            | Refusal::Settled { .. }
            | Refusal::LineAbove { .. }
            | Refusal::LineBack { .. }
            | Refusal::NoHit { .. }
            | Refusal::ShortList { .. }
            | Refusal::OtherBuffers { .. } => Layer::Record,
            Refusal::FileSize { .. } | Refusal::FileParts { .. } => Layer::File,
        }
    }

    /// Where: a byte of the text, a place of the record, or the bytes of a file.
    pub fn place(&self) -> usize
        ensures { result ≡ place_of self.now }
    {
        match *self {
            Refusal::LongText => 4096,
            Refusal::Buffers | Refusal::NoSlots | Refusal::FarReach => 0,
            Refusal::NoDigit { place }
            | Refusal::OutOfRange { place }
            | Refusal::NoMark { place, .. }
            | Refusal::Backward { place, .. }
            | Refusal::ExtraSlot { place, .. }
            | Refusal::StrayGap { place }
            | Refusal::Full { place }
            | Refusal::NoPlace { place }
            | Refusal::Settled { place }
            | Refusal::LineAbove { place }
            | Refusal::LineBack { place }
            | Refusal::NoHit { place }
            | Refusal::ShortList { place }
            | Refusal::OtherBuffers { place } => place,
            Refusal::FileSize { bytes } | Refusal::FileParts { bytes } => bytes,
        }
    }
}

impl fmt::Display for Refusal {
    ghost output = { λ r. Some (refusal_line r) };

    fn fmt<W: fmt::Write>(&self, f: &mut fmt::Formatter<W>) -> fmt::Result {
        let number = self.number();
        let layer = self.layer();
        let place = self.place();
        write!(f, "refused {number} {layer} {place}")
    }
}

impl Error for Refusal {}
