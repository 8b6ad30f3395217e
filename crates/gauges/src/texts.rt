//! The worked sheets from their texts.
ghost use Rattle.gauges.specs.Texts.{SheetTexts};

/// The signatures of the worked sheets, read from their texts: `10-x(0,2)-[20 21]`, `1-2-x(0,3)-3`, `1-x(2,3)-2` and `5-5` with
/// the event gauge, and `100~5` with the current gauge. Each is read as exactly the slots, the gaps and the sets of readings that
/// its sheet is worked with.
pub fn sheet_texts()
    ensures { SheetTexts }
{}
