//! The laws of the text of a slot of event codes, and of a signature of such slots.
ghost use Rattle.std.specs.Prelude.{ℕ, List};
ghost use Rattle.signature.specs.Refused.{Looks, RefusedAlike, GoesOn, BeginsSome};
ghost use Rattle.gauges.specs.Codes.{event_at};
ghost use Rattle.gauges.specs.Grammar.{EventExactly};

/// A slot is read exactly where the grammar derives it, as the codes that it stands for.
pub fn event_grammar()
    ensures { EventExactly }
{}

/// The reading of a slot looks at no byte past the one behind it, or past the place where it is refused. So where a
/// signature is refused for want of a digit or a mark, for a stray gap or a slot too many, no text is read that has the
/// same bytes up to that place and at it: each is refused alike.
pub fn event_refusals()
    ensures looks { Looks event_at }
    ensures alike { (s : List ℕ) → RefusedAlike event_at s }
{}

/// Some slot can follow any bytes, a slot is one whatever comes behind it that is no digit, and where a slot is refused, the
/// bytes before the refusal's place begin some slot. So the bytes before the place where a signature is refused begin
/// some text of the grammar.
pub fn event_beginnings()
    ensures goes { GoesOn event_at }
    ensures begins { (s : List ℕ) → BeginsSome event_at s }
{}
