//! What holds of every signature, over every kind of reading.
ghost use Rattle.runs.specs.Laws.{Laws};
ghost use Rattle.runs.specs.Sheets.{Sheets};

/// The laws of runs, marks, hits and traces, over readings of any type R.
///
/// - `marks`: a place bears mark 0 where its reading fits slot 0, and mark j + 1 where its reading fits slot j + 1 and an earlier place, within
///   gap j, bears mark j.
/// - `told`: bit j of a place's word is mark j, and there are no bits above the last slot's.
/// - `found`: the list of hits has every hit, and rises.
/// - `felt`: where the reading at place p alone changes, no mark before p changes, and none from p plus the reach on. Where the places of one
///   window up to q, from p on, bear their former words, so does every later place; and some q at most reach plus window places on is such.
/// - `counted`: the count of reworked places ends at the first such q, or at the last place.
/// - `traces`: a hit has one trace. It is a run, and any other run to the hit has the earlier place at the first difference, from the end back.
/// - `within`: a hit's run has no place below the hit + 1 - reach.
/// - `final`, `amended`, `appended`: hits below the first difference of two lists of readings stay, with their traces; so an amendment at or
///   above a line leaves the hits below the line as they are, and an append leaves all.
pub fn laws<R>()
    ensures { Laws R }
{}

/// Worked sheets: what the definitions give for small signatures.
pub fn sheets()
    ensures { Sheets }
{}
