//! What must hold of buffers, signature and engine before readings are searched.
ghost use Rattle.std.specs.Prelude.{◌≡◌};
ghost use Rattle.search.specs.Openings.{opening};

use engines::engine::Engine;
use runs::signature::Signature;
use text::refusal::Refusal;

/// The most readings that a buffer may hold.
const MOST: usize = 1_000_000;

/// Refuses buffers of different lengths, empty ones and ones of more than a million entries, then a signature
/// with no slots, then one that reaches farther than the engine takes.
pub fn check_opening<E: Engine>(
    readings: usize,
    sheet: usize,
    signature: &Signature,
) -> Result<(), Refusal>
    ensures { result ≡ opening E.Engine.LIMIT readings sheet signature.now }
{
    if readings != sheet || readings == 0 || readings > MOST {
        return Err(Refusal::Buffers);
    }
    if signature.slots == 0 {
        return Err(Refusal::NoSlots);
    }
    if signature.reach() > E::LIMIT {
        return Err(Refusal::FarReach);
    }
    Ok(())
}
