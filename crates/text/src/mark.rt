//! Marks: the bytes of a text that are no digits and mean something.
ghost use Rattle.std.specs.Prelude.{◌≡◌, ℕ, ◌+◌, ◌<◌, ◌≤◌, true, length, IfOk, Some};
ghost use Rattle.text.specs.Marks.{mark_from, mark_in, is_mark, mark_taken, not_mark_line};

use crate::lexer::{Word, next_word};
use crate::refusal::{Layer, Refusal};
use std::error::Error;
use std::fmt;

/// What a byte that is no digit means in a text.
#[derive(Clone, Copy, PartialEq, Eq)]
pub enum Mark {
    /// `-`, before each slot but the first, before a gap, and before a number below 0
    Dash,
    /// `x`, which begins a gap
    Gap,
    /// `(`
    Open,
    /// `,`
    Comma,
    /// `)`
    Close,
    /// `[`, which opens a class
    ClassOpen,
    /// `]`
    ClassClose,
    /// `{`, which opens a barred class
    BarredOpen,
    /// `}`
    BarredClose,
    /// `:`, between the two codes of a pair
    Colon,
    /// a space, between two members
    Space,
    /// `~`, before a tolerance
    Tilde,
    /// `@`, between an event slot and a current slot
    At,
    /// `&`, between two slots of which both must fit
    And,
    /// `!`, between a slot that must fit and one that must not
    Bang,
}

/// The mark that a word is, if it is one.
pub fn read_mark(word: &[u8]) -> Option<Mark>
    ensures { result ≡ mark_in word.now }
{
    match word {
        [byte] => Mark::try_from(*byte).ok(),
        _ => None,
    }
}

/// Whether the mark stands at a place.
pub fn marked(text: &[u8], at: usize, wanted: Mark) -> bool
    ensures value { result ≡ is_mark wanted text.now at }
    ensures inside { result ≡ true → at < length text.now }
{
    match next_word(text, at) {
        Word::Mark { text: word, .. } => read_mark(word) == Some(wanted),
        _ => false,
    }
}

/// The place behind a mark that must stand at a place.
pub fn take_mark(text: &[u8], at: usize, wanted: Mark, layer: Layer) -> Result<usize, Refusal>
    ensures value { result ≡ mark_taken layer wanted text.now at }
    ensures bound { IfOk result (λ e. (e ≡ at + 1) × (e ≤ length text.now)) }
{
    if marked(text, at, wanted) {
        Ok(at + 1)
    } else {
        Err(Refusal::NoMark {
            layer,
            place: at.min(text.len()),
        })
    }
}

/// A byte that is no mark.
#[derive(Clone, Copy, PartialEq, Eq, Debug)]
pub struct NotMark(pub u8);

impl fmt::Display for NotMark {
    ghost output = { λ n. Some (not_mark_line n) };

    fn fmt<W: fmt::Write>(&self, f: &mut fmt::Formatter<W>) -> fmt::Result {
        let byte = self.0;
        write!(f, "no mark {byte}")
    }
}

impl Error for NotMark {}

impl TryFrom<u8> for Mark {
    type Error = NotMark;

    ghost try_from_gives = { λ byte result. result ≡ mark_from byte };

    fn try_from(byte: u8) -> Result<Self, NotMark> {
        match char::from(byte) {
            '-' => Ok(Mark::Dash),
            'x' => Ok(Mark::Gap),
            '(' => Ok(Mark::Open),
            ',' => Ok(Mark::Comma),
            ')' => Ok(Mark::Close),
            '[' => Ok(Mark::ClassOpen),
            ']' => Ok(Mark::ClassClose),
            '{' => Ok(Mark::BarredOpen),
            '}' => Ok(Mark::BarredClose),
            ':' => Ok(Mark::Colon),
            ' ' => Ok(Mark::Space),
            '~' => Ok(Mark::Tilde),
            '@' => Ok(Mark::At),
            '&' => Ok(Mark::And),
            '!' => Ok(Mark::Bang),
            _ => Err(NotMark(byte)),
        }
    }
}
