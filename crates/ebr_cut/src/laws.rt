//! Laws of cuts.

ghost use Rattle.ebr_cut.specs.Sections.{EachIsCut, OneCut, EachByteHasARole};

/// A script is cut into pieces in one way, and each of its bytes is accounted for.
pub fn one_cut()
    // Each script is cut.
    ensures some { EachIsCut }
    // No script is cut in two ways.
    ensures one { OneCut }
    // Each byte is skipped, belongs to a piece, or closes one.
    ensures bytes { EachByteHasARole }
{}
