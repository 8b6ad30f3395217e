//! What the promise over a shift comes to, for every gauge, engine and kind of reading.
ghost use Rattle.shifts.specs.Laws.{Determined};
ghost use Rattle.shifts.specs.Worked.{Worked};

/// The promise leaves nothing open: two outcomes that keep it for the same opening and calls have the same answers, and
/// both buffers the same content after each call, whichever gauges with these sets and whichever engines were used.
pub fn determined<G, H, E, F, R>()
    ensures { Determined G H E F R }
{}

/// One worked shift: its calls, two namings of final hits with a late barcode between them, two refusals, a closing and
/// a trace after it among them, have these answers by the promise alone.
pub fn worked<G, E>()
    ensures { Worked G E }
{}
