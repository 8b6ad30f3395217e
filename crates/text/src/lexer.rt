//! The words of a text: each is a part of that text, kept with its byte place.
ghost use Rattle.std.specs.Prelude.{◌≡◌, ◌≤◌, length};
ghost use Rattle.std.specs.List.{prefix_len};
ghost use Rattle.text.specs.Words.{is_digit, seen, word_at};

/// A word of the text, or its end.
#[derive(Clone, Copy)]
pub enum Word<'a> {
    /// All the digits that stand there, one or more.
    Digits { text: &'a [u8], place: usize },
    /// One byte that is no digit.
    Mark { text: &'a [u8], place: usize },
    End { place: usize },
}

// How many digits the text begins with.
fn count_digits(text: &[u8]) -> usize
    ensures within { result ≤ length text.now }
    ensures value { result ≡ prefix_len is_digit text.now }
{
    text.iter().take_while(|byte| byte.is_ascii_digit()).count()
}

// Text and place stay two parameters: a slot's writer is lent any text and place and answers a place, so that a cursor would be made and
// taken apart at each nested call.

/// The word that begins at a place; a place past the text counts as its end.
pub fn next_word<'a>(text: &'a [u8], at: usize) -> Word<'a>
    ensures { seen result ≡ word_at text.now at }
{
    if at >= text.len() {
        return Word::End { place: text.len() };
    }
    let count = count_digits(&text[at..]);
    if count == 0 {
        Word::Mark {
            text: &text[at..at + 1],
            place: at,
        }
    } else {
        Word::Digits {
            text: &text[at..at + count],
            place: at,
        }
    }
}
