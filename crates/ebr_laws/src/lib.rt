//! What slot code does is what its trees do.
//!
//! The crates above use the law `one_meaning`: over a book that has the code of what an edition sees, a run of a unit's code
//! is seen to do just what `Run` says of the unit. The laws of expressions, statements, blocks and units that it rests on
//! stand in `proofs/`. Nothing here is only tested.
#![tactic(auto)]

ghost use Rattle.ebr_ast.specs.declared.unit.UnitTree.{UnitTree};
ghost use Rattle.ebr_ast.specs.declared.view.EditionView.{EditionView};
ghost use Rattle.ebr_code.specs.Books.{Book};
ghost use Rattle.ebr_laws.specs.Served.{HasCodeOf, DoesTheSame};

/// The law that code does what its tree does; the call itself does nothing.
pub fn one_meaning()
    ensures { (v : EditionView) (book : Book) → HasCodeOf v book → (u : UnitTree) → DoesTheSame v book u }
{}
