//! The engine that keeps one mask of 64 places for each slot.
ghost use Rattle.std.specs.Prelude.{◌≡◌, ℕ, suc, ◌<◌, false, Decides};
ghost use Rattle.runs.specs.Signatures.{Blank};
ghost use Rattle.engines.specs.Masked.{masks_say};
ghost use Rattle.engines.specs.Memory.{Seen, Stepped, Moved};

use crate::engine::{Engine, newest};
use crate::strips::mark_strips;
use crate::windows::Windows;
use runs::signature::Signature;

/// Bit d of `masks[j]` says whether a run of the first j + 1 slots ended d places before the latest: it takes every signature.
// Beside the windows of the gaps, and no array of both: these stay while the masks move, and strips take the masks alone.
#[derive(Drop)]
pub struct Masks {
    windows: Windows,
    masks: [u64; 31],
}

impl Masks {
    /// An engine with no slots.
    pub fn new() -> Masks
        ensures shape { Blank result.windows.shape.signature }
        ensures memory { (j d : ℕ) → masks_say result.masks j d ≡ false }
    {
        Self::of(&Signature::new())
    }

    // An engine of a signature, before any place.
    fn of(signature: &Signature) -> Masks
        ensures shape { result.windows.shape.signature ≡ signature.now }
        ensures memory { (j d : ℕ) → masks_say result.masks j d ≡ false }
    {
        Masks {
            windows: Windows::new(signature),
            masks: [0; 31],
        }
    }

    // Whether the memory says yes for slot j at a distance that gap j allows.
    fn seen(&self, j: u32) -> bool
        requires { suc j < self.now.windows.shape.signature.slots }
        ensures { Decides result (Seen self.now.windows.shape.signature (masks_say self.now.masks) j) }
    {
        self.masks[j as usize] & self.windows.allowed[j as usize] != 0
    }

    // The mark word of the next place.
    fn word(&self, fits: u32) -> u32
        ensures { Stepped self.now.windows.shape.signature (masks_say self.now.masks) fits result }
    {
        self.windows.shape.word(fits, |j| self.seen(j))
    }

    // Each mask moves by one place, and takes its bit of `word`.
    fn push(&mut self, word: u32)
        ensures windows { self.new.windows ≡ self.old.windows }
        ensures memory { Moved self.old.windows.shape.signature (masks_say self.old.masks) word (masks_say self.new.masks) }
    {
        let used = self.windows.shape.signature.used_gaps().len();
        for (j, mask) in self.masks[..used].iter_mut().enumerate() {
            // no `bears`: its test for slots past the 32nd, which there are none of, takes as long as the rest of the turn
            *mask = (*mask << 1) | u64::from((word >> j) & 1 == 1);
        }
    }
}

impl Engine for Masks {
    const LIMIT: u32 = 1985;

    ghost LIMIT = { 1985 };

    ghost shape = { λ e. e.windows.shape.signature };

    ghost says = { λ e. masks_say e.masks };

    fn make(&mut self, signature: &Signature) {
        *self = Self::of(signature);
    }

    // as in `Ring::step`: one trait more, of what finds the word and pushes it, would be longer than both
    fn step(&mut self, fits: u32) -> u32 {
        let word = self.word(fits);
        self.push(word);
        word
    }

    fn stretch(&mut self, words: &mut [u32]) {
        let signature = self.windows.shape.signature;
        let done = mark_strips(&signature, &mut self.masks, words);
        // the loop of `Engine::stretch` again: for a function over any engine, the check says that a method of this block leads back to it
        for word in &mut words[done..] {
            *word = self.step(*word);
        }
    }

    // as in `Word::resume`: one trait more, of what empties and pushes, would be longer than both
    fn resume(&mut self, words: &[u32]) {
        self.masks = [0; 31];
        for word in newest(words) {
            self.push(*word);
        }
    }

    fn signature(&self) -> Signature {
        self.windows.shape.signature
    }
}
