//! A job file: a header of two numbers, the text of a signature, and event codes of one byte each.
ghost use Rattle.std.specs.Prelude.{◌≡◌};
ghost use Rattle.job.specs.Files.{held, parts_of};

use text::refusal::Refusal;

/// The most bytes that a job file may have.
pub(crate) const LARGEST: usize = 16_384;

/// The parts of a job file.
#[derive(Clone, Copy)]
pub struct Parts<'a> {
    pub text: &'a [u8],
    pub codes: &'a [u8],
}

/// The text and the codes of a file: the header has the length of each as a number of four bytes, low byte first.
pub fn read_parts<'a>(file: &'a [u8]) -> Result<Parts<'a>, Refusal>
    ensures { held result ≡ parts_of file.now }
{
    let bytes = file.len();
    let wrong_size = Refusal::FileSize {
        bytes: bytes.min(LARGEST + 1),
    };
    let [t0, t1, t2, t3, c0, c1, c2, c3, rest @ ..] = file else {
        return Err(wrong_size);
    };
    if bytes > LARGEST {
        return Err(wrong_size);
    }
    let text = u64::from(u32::from_le_bytes([*t0, *t1, *t2, *t3]));
    let codes = u64::from(u32::from_le_bytes([*c0, *c1, *c2, *c3]));
    if 8 + text + codes != bytes as u64 {
        return Err(Refusal::FileParts { bytes });
    }
    let (text, codes) = rest.split_at(text as usize);
    Ok(Parts { text, codes })
}
