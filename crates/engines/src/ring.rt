//! The engine that keeps the last 64 words.
ghost use Rattle.std.specs.Prelude.{◌≡◌, ℕ, suc, ◌-◌, ◌<◌, false, Decides};
ghost use Rattle.runs.specs.Signatures.{Blank};
ghost use Rattle.engines.specs.Rings.{ago, past_says};
ghost use Rattle.engines.specs.Memory.{Seen, Stepped, Moved};

use crate::engine::{Engine, newest};
use crate::shape::{Shape, gap_at};
use runs::bits::bears;
use runs::signature::Signature;

/// The words stand one after another, and go on at the beginning: it takes every signature.
#[derive(Drop)]
pub struct Ring {
    shape: Shape,
    past: [u32; 64],
    // where the next word goes
    next: usize,
    ghost inside: { next < 64 },
}

impl Ring {
    /// An engine with no slots.
    #[tactic(auto, using(crate::proofs::Rings::past_blank))]
    pub fn new() -> Ring
        ensures shape { Blank result.shape.signature }
        ensures memory { (j d : ℕ) → past_says result.past result.next j d ≡ false }
    {
        Self::of(&Signature::new())
    }

    // An engine of a signature, before any place.
    fn of(signature: &Signature) -> Ring
        ensures shape { result.shape.signature ≡ signature.now }
        ensures memory { (j d : ℕ) → past_says result.past result.next j d ≡ false }
    {
        Ring {
            shape: Shape::new(signature),
            past: [0; 64],
            next: 0,
        }
    }

    // The word at distance d.
    fn ago(&self, d: usize) -> u32
        requires { d < 64 }
        ensures { result ≡ ago self.now.past self.now.next d }
    {
        self.past[(self.next + 63 - d) % 64]
    }

    // Whether the memory says yes for slot j at a distance that gap j allows.
    fn seen(&self, j: u32) -> bool
        requires { suc j < self.now.shape.signature.slots }
        ensures { Decides result (Seen self.now.shape.signature (past_says self.now.past self.now.next) j) }
    {
        let gap = gap_at(&self.shape.signature, j);
        // half open: no lemma says what `any` finds over `lo..=hi`
        (usize::from(gap.lo)..usize::from(gap.hi) + 1).any(|d| bears(self.ago(d), j))
    }

    // The mark word of the next place.
    fn word(&self, fits: u32) -> u32
        ensures { Stepped self.now.shape.signature (past_says self.now.past self.now.next) fits result }
    {
        self.shape.word(fits, |j| self.seen(j))
    }

    // Each word moves one distance further, and `word` is the newest.
    fn push(&mut self, word: u32)
        ensures shape { self.new.shape ≡ self.old.shape }
        ensures memory { Moved self.old.shape.signature (past_says self.old.past self.old.next) word (past_says self.new.past self.new.next) }
    {
        self.past[self.next] = word;
        self.next = (self.next + 1) % 64;
    }
}

impl Engine for Ring {
    const LIMIT: u32 = 1985;

    ghost LIMIT = { 1985 };

    ghost shape = { λ e. e.shape.signature };

    ghost says = { λ e. past_says e.past e.next };

    fn make(&mut self, signature: &Signature) {
        *self = Self::of(signature);
    }

    // as in `Masks::step`: one trait more, of what finds the word and pushes it, would be longer than both
    fn step(&mut self, fits: u32) -> u32 {
        let word = self.word(fits);
        self.push(word);
        word
    }

    fn resume(&mut self, words: &[u32]) {
        let recent = newest(words);
        let mut past = [0; 64];
        past[..recent.len()].copy_from_slice(recent);
        self.past = past;
        self.next = recent.len() % 64;
    }

    fn signature(&self) -> Signature {
        self.shape.signature
    }
}
