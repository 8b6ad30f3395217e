//! The words of strips: from the fits of their places to their mark words.
ghost use Rattle.std.specs.Prelude.{◌≡◌, ℕ, ◌*◌, ◌/◌, ◌≤◌, length, slice_index};
ghost use Rattle.engines.specs.Masked.{masks_say};
ghost use Rattle.engines.specs.Memory.{Steps};
ghost use Rattle.engines.specs.Rows.{Width};
ghost use Rattle.engines.specs.Strips.{Stepped64};

use crate::strips::rows::{is_blank, load, unload};
use crate::strips::slots::mark_slots;
use crate::strips::turn::turn;
use runs::signature::Signature;

mod rows;
mod slots;
mod turn;
mod window;

// Signature and masks stay two parameters: they are parts of an engine, of which only the masks change.

// A strip with W slots at most.
fn mark<const W: usize>(signature: &Signature, masks: &mut [u64; 31], strip: &mut [u32; 64])
    requires width { Width W }
    requires few { signature.now.slots ≤ W }
    ensures { Stepped64 signature.now strip.old strip.new masks.old masks.new }
{
    let mut rows = load::<W>(strip);
    if is_blank(&rows) {
        *masks = [0; 31];
        *strip = [0; 64];
        return;
    }
    turn(&mut rows);
    mark_slots(signature, masks, &mut rows);
    turn(&mut rows);
    unload(&rows, strip);
}

// The words of one strip.
fn mark_strip(signature: &Signature, masks: &mut [u64; 31], words: &mut [u32])
    requires { length words.old ≡ 64 }
    ensures { Stepped64 signature.now words.old words.new masks.old masks.new }
{
    if let Some(strip) = words.as_mut_array() {
        if signature.slots <= 8 {
            mark::<8>(signature, masks, strip);
        } else {
            mark::<32>(signature, masks, strip);
        }
    }
}

/// Marks the whole strips of 64 words, one after another, and answers how many words those have; the others stay.
/// Bit d of `masks[j]` says that a run of the first j + 1 slots ended d places before the next word's.
pub(crate) fn mark_strips(signature: &Signature, masks: &mut [u64; 31], words: &mut [u32]) -> usize
    ensures whole { result ≡ 64 * (length words.old / 64) }
    ensures steps { Steps signature.now words.old words.new (masks_say masks.old) result (masks_say masks.new) }
    ensures rest { (k : ℕ) → result ≤ k → slice_index words.new k ≡ slice_index words.old k }
{
    let strips = words.len() / 64;
    // By number: after `chunks_exact_mut`, or a walk with `split_first_chunk_mut`, a proof knows no word of the slice.
    for strip in 0..strips {
        let from = 64 * strip;
        mark_strip(signature, masks, &mut words[from..from + 64]);
    }
    64 * strips
}
