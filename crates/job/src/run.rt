//! From the bytes of a job file to the text that is printed.
ghost use Rattle.std.specs.Prelude.{◌≡◌, length, IfOk, string_bytes};
ghost use Rattle.events.specs.Searches.{searchable};
ghost use Rattle.job.specs.Jobs.{found, job_text};

use crate::job_file::read_parts;
use crate::report::{refusal_text, report_text};
use engines::word::Word;
use events::searching::search_codes;
use runs::signature::Signature;
use std::alloc::{AllocError, Global};

// What is printed for a text and codes, with a sheet as long as the codes.
fn run_parts(
    heap: Global,
    text: &[u8],
    codes: &[u8],
    sheet: &mut [u32],
) -> Result<String, AllocError>
    requires { length codes.now ≡ length sheet.old }
    ensures { IfOk result (λ t. string_bytes t ≡ found codes.now (searchable 64 text.now (length codes.now) (length codes.now))) }
{
    let mut signature = Signature::new();
    match search_codes(Word::new(), text, codes, &mut signature, sheet) {
        Ok(count) => report_text(heap, &signature, sheet, count),
        Err(refusal) => refusal_text(heap, refusal),
    }
}

/// What is printed for a job file: its hits and their traces, or the first refusal.
pub fn run_job(heap: Global, file: &[u8]) -> Result<String, AllocError>
    ensures { IfOk result (λ t. string_bytes t ≡ job_text file.now) }
{
    match read_parts(file) {
        Ok(parts) => {
            let mut sheet = vec![in heap; 0; parts.codes.len()]?;
            run_parts(heap, parts.text, parts.codes, &mut sheet)
        }
        Err(refusal) => refusal_text(heap, refusal),
    }
}
