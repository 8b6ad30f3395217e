//! A call that is to be made, and where its answer goes.
ghost use Rattle.std.specs.Prelude.{◌≡◌, min, if◌then◌else◌};
ghost use Rattle.records.specs.Books.{lends};

use records::call::{Call, Reply};
use text::refusal::Refusal;

/// A call with what is lent to it: of both buffers at most so many entries, and a list. The answer is there once the
/// call was made.
#[derive(Drop)]
pub struct Request<R: Copy> {
    pub call: Call<R>,
    pub lent: usize,
    pub list: Vec<usize>,
    pub answer: Option<Result<Reply, Refusal>>,
}

// How many entries of a buffer a call is lent. Closing needs no buffers, and none are held back from it.
pub(crate) fn lent_entries<R: Copy>(call: &Call<R>, lent: usize, length: usize) -> usize
    ensures { result ≡ (if lends call.now then min lent length else length) }
{
    match call {
        Call::Close => length,
        _ => lent.min(length),
    }
}
