//! What a part of the code stands in.

ghost use Rattle.std.specs.Prelude.{◌≡◌, Some, true, false, []};
ghost use Rattle.ebr_ast.specs.Views.{IsInOrder};
ghost use Rattle.ebr_scope.specs.Meanings.{Scope};
ghost use Rattle.ebr_scope.specs.Around.{outside};
ghost use Rattle.ebr_scope.specs.Lent.{env};

use ebr_ast::{EditionView, Timing};
use ebr_base::Name;
use ebr_names::ViewColumn;
use ebr_sqlcheck::ValueType;
use std::marker::Model;

/// What an edition sees, in order.
#[derive(Drop)]
pub struct Seen<'a> {
    v: &'a EditionView,
}

impl<'a> Model for Seen<'a> {
    ghost use Rattle.ebr_ast.specs.Views.{IsInOrder};
    ghost use Rattle.ebr_scope.specs.Visible.{Visible};
    ghost use Rattle.ebr_ast.specs.contracts.view.EditionView as e;
    ghost use Rattle.std.specs.Coded.{codes};

    ghost Value = { Visible };

    ghost coded = { Prim.hlevel (codes, e.the_row.coded) };

    ghost view = { λ s. record { view = s.v.now } };

    ghost invariant = { λ s. IsInOrder s.v.now };
}

impl<'a> Seen<'a> {
    pub fn new(v: &'a EditionView) -> Seen<'a>
        requires { IsInOrder v.now }
        ensures { result.view ≡ v.now }
    {
        Seen { v }
    }

    /// The view.
    pub fn get(&self) -> &'a EditionView
        ensures view { result.now ≡ self.now.view }
        ensures order { IsInOrder self.now.view }
    {
        self.v
    }
}

/// The package in whose body code stands.
#[derive(Clone, Copy)]
pub struct OwnPackage<'a> {
    pub name: &'a Name,
    /// How many names its specification declares, which are the outermost ones.
    pub declares: usize,
}

/// What a part of the code stands in.
#[derive(Clone, Copy)]
pub struct Place<'a> {
    pub seen: &'a Seen<'a>,
    pub in_loop: bool,
    pub in_handler: bool,
    /// Whether the next declarations are the outermost of a subprogram, a trigger or a block that is run.
    pub outermost: bool,
    /// None outside the bodies of packages.
    pub own: Option<OwnPackage<'a>>,
    /// What the enclosing function gives, as far as it is known; none outside functions.
    pub gives: Option<Option<ValueType>>,
    /// When the enclosing trigger fires; none outside triggers.
    pub timing: Option<Timing>,
    /// The columns of what the trigger is on.
    pub columns: &'a [ViewColumn],
}

impl<'a> Place<'a> {
    /// Outside everything.
    pub fn outside(seen: &'a Seen<'a>) -> Place<'a>
        ensures { env result [] ≡ outside seen.now.view }
    {
        Place {
            seen,
            in_loop: false,
            in_handler: false,
            outermost: true,
            own: None,
            gives: None,
            timing: None,
            columns: &[],
        }
    }

    /// Behind the declarations of a block.
    pub fn within_block(&self) -> Place<'a>
        ensures { result ≡ record self.now { outermost = false } }
    {
        Place {
            outermost: false,
            ..*self
        }
    }

    pub fn within_loop(&self) -> Place<'a>
        ensures { result ≡ record self.now { in_loop = true } }
    {
        Place {
            in_loop: true,
            ..*self
        }
    }

    pub fn within_handler(&self) -> Place<'a>
        ensures { result ≡ record self.now { in_handler = true } }
    {
        Place {
            in_handler: true,
            ..*self
        }
    }

    /// In the body of a package whose specification declares so many names.
    pub fn within_package(&self, name: &'a Name, declares: usize) -> Place<'a>
        ensures { (scope : Scope) → env result scope ≡ record (env self.now scope) { own = Some (record { name = name.now; declares = declares }) } }
    {
        Place {
            own: Some(OwnPackage { name, declares }),
            ..*self
        }
    }

    /// In a procedure or in a function with this result.
    pub fn within_subprogram(&self, given: Option<Option<ValueType>>) -> Place<'a>
        ensures { result ≡ record self.now { gives = given } }
    {
        Place {
            gives: given,
            ..*self
        }
    }

    /// In a trigger.
    pub fn within_trigger(&self, timing: Timing, columns: &'a [ViewColumn]) -> Place<'a>
        ensures { (scope : Scope) → env result scope ≡ record (env self.now scope) { timing = Some timing; columns = columns.now } }
    {
        Place {
            timing: Some(timing),
            columns,
            ..*self
        }
    }
}
