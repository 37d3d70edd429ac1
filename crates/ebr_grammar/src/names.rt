//! Which words are names.

ghost use Rattle.ebr_grammar.specs.Kinds.{UnreservedIsName};

/// Each word that isn't reserved is of one of the `NAME_KINDS`.
pub fn unreserved_words_are_names()
    ensures { UnreservedIsName }
{}
