//! Laws of the lexis.

ghost use Rattle.ebr_lexer.specs.Lexis.{OneReading, OneFault, NeverBoth, TokensOrFault};

/// A text has its tokens or a first fault: one of them, and only one.
pub fn one_answer()
    // A text has at most one list of tokens.
    ensures tokens { OneReading }
    // A text has at most one first fault.
    ensures fault { OneFault }
    // No text has tokens and a first fault.
    ensures never_both { NeverBoth }
    // Each text has one of them.
    ensures some { TokensOrFault }
{}
