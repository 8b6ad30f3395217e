//! The engine that keeps its whole memory in one word.
ghost use Rattle.std.specs.Prelude.{◌≡◌, ℕ, ◌≤◌, false};
ghost use Rattle.runs.specs.Gaps.{reach};
ghost use Rattle.runs.specs.Signatures.{gaps_of, Blank};
ghost use Rattle.engines.specs.Fields.{fields_say};
ghost use Rattle.engines.specs.Memory.{Moved};

use crate::engine::{Engine, newest};
use crate::layout::Layout;
use runs::bits::bears;
use runs::signature::Signature;

/// For each gap one field of bits: it takes signatures that reach 64 places at most.
#[derive(Drop)]
pub struct Word {
    layout: Layout,
    memory: u64,
}

impl Word {
    /// An engine with no slots.
    pub fn new() -> Word
        ensures shape { Blank result.layout.shape.signature }
        ensures memory { (j d : ℕ) → fields_say (gaps_of result.layout.shape.signature) result.memory j d ≡ false }
    {
        Self::of(&Signature::new())
    }

    // An engine of a signature, before any place.
    fn of(signature: &Signature) -> Word
        requires { reach (gaps_of signature.now) ≤ 64 }
        ensures shape { result.layout.shape.signature ≡ signature.now }
        ensures memory { (j d : ℕ) → fields_say (gaps_of result.layout.shape.signature) result.memory j d ≡ false }
    {
        Word {
            layout: Layout::new(signature),
            memory: 0,
        }
    }

    // Each field moves by one place, and takes its bit of `word`.
    fn push(&mut self, word: u32)
        ensures layout { self.new.layout ≡ self.old.layout }
        ensures memory { Moved self.old.layout.shape.signature (fields_say (gaps_of self.old.layout.shape.signature) self.old.memory) word (fields_say (gaps_of self.new.layout.shape.signature) self.new.memory) }
    {
        let mut memory = (self.memory & self.layout.keep) << 1;
        let used = self.layout.shape.signature.used_gaps().len();
        for (j, field) in self.layout.fields[..used].iter().enumerate() {
            if bears(word, j as u32) {
                memory |= field.start;
            }
        }
        self.memory = memory;
    }
}

impl Engine for Word {
    const LIMIT: u32 = 64;

    ghost LIMIT = { 64 };

    ghost shape = { λ e. e.layout.shape.signature };

    ghost says = { λ e. fields_say (gaps_of e.layout.shape.signature) e.memory };

    fn make(&mut self, signature: &Signature) {
        *self = Self::of(signature);
    }

    fn step(&mut self, fits: u32) -> u32 {
        // the word is found and taken into the memory in one loop: with `word` of the shape and `push` a step takes a third longer
        let mut word = fits & 1;
        let mut memory = ((self.memory & self.layout.keep) << 1) | u64::from(word);
        let mut left = fits & self.layout.shape.later;
        while left != 0 {
            let j = left.trailing_zeros() as usize;
            left &= left - 1;
            let field = self.layout.fields[j];
            if self.memory & field.window != 0 {
                word |= 1 << j;
                memory |= field.start;
            }
        }
        self.memory = memory;
        word
    }

    // as in `Masks::resume`: one trait more, of what empties and pushes, would be longer than both
    fn resume(&mut self, words: &[u32]) {
        self.memory = 0;
        for word in newest(words) {
            self.push(*word);
        }
    }

    fn signature(&self) -> Signature {
        self.layout.shape.signature
    }
}
