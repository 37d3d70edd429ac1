//! Compiled units, and where a run finds them.

ghost use Rattle.std.specs.Prelude.{◌≡◌};
ghost use Rattle.std.specs.Option.{option_copied};
ghost use Rattle.ebr_base.specs.declared.numbers.EditionNo.{EditionNo};
ghost use Rattle.ebr_code.specs.Books.{Book};

use crate::instruction::Code;
use ebr_base::{Class, EditionNo, List, Name, Shared, Stamp};
use ebr_run::VariableType;

/// A parameter: its type, whether it takes the argument's value, and whether it hands a value back.
#[derive(Clone, Copy, Debug, PartialEq, Eq)]
pub struct Parameter {
    pub ty: VariableType,
    pub takes: bool,
    pub gives: bool,
}

/// A procedure, a function, a trigger's body or a block.
#[derive(Drop)]
pub struct Subprogram {
    pub parameters: List<Parameter>,
    pub function: bool,
    pub autonomous: bool,
    pub code: Code,
}

/// How a package's state is made.
#[derive(Drop)]
pub struct Initial {
    /// Whether the package has a variable, a constant or a cursor.
    pub stateful: bool,
    pub code: Code,
}

/// A compiled unit.
#[derive(Drop)]
pub struct Unit {
    /// The subprograms of a package's body, in the order of its text; of another unit its one, if it has one.
    pub subprograms: List<Subprogram>,
    /// Of a package's specification or body.
    pub initial: Option<Initial>,
}

/// Compiled units by key, for the editions that it serves.
pub trait CodeBook {
    /// What it answers in an edition.
    ghost answers: { Self → EditionNo → Book };

    /// The compiled unit of a visible object that is valid.
    fn unit(&self, e: EditionNo, class: Class, name: &Name) -> Option<&Shared<Unit>>
        ensures { option_copied result ≡ (Self.answers self.now e).unit (record { class = class; name = name.now }) };

    /// The stamp of a visible object.
    fn stamp(&self, e: EditionNo, class: Class, name: &Name) -> Option<Stamp>
        ensures { result ≡ (Self.answers self.now e).stamp (record { class = class; name = name.now }) };

    /// How many objects are visible.
    fn objects(&self, e: EditionNo) -> usize
        ensures { result ≡ (Self.answers self.now e).objects };
}
