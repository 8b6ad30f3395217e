//! The numbers of slots: 0 to 31.
ghost use Rattle.std.specs.Prelude.{◌≡◌, if◌then◌else◌, nat_lt, Ok, Err};
ghost use Rattle.text.specs.declared.refusal.Layer.TheVariants.{Slot};
ghost use Rattle.text.specs.declared.refusal.Refusal.TheVariants.{ExtraSlot};

use text::refusal::{Layer, Refusal};

// Refuses a number above 31 at the place of the slot's text.
pub(crate) fn check_slot(slot: u32, at: usize) -> Result<(), Refusal>
    ensures { result ≡ (if nat_lt slot 32 then Ok tt else Err (ExtraSlot Slot at)) }
{
    if slot >= 32 {
        return Err(Refusal::ExtraSlot {
            layer: Layer::Slot,
            place: at,
        });
    }
    Ok(())
}
