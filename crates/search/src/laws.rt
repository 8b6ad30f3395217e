//! What a sheet tells, over any kind of reading.
ghost use Rattle.search.specs.Laws.{SheetsTell};

/// A sheet of mark words tells exactly the hits, and the trace of each by the runs that end there.
pub fn sheets_tell<R>()
    ensures { SheetsTell R }
{}
