//! Stored units: procedures, functions, packages, triggers and editioning views.

use crate::kinds::Timing;
use crate::package::{PackageItems, Subprograms};
use crate::statement::{Block, Decl, Handler, Stmt};
use ebr_base::{CloneIn, List, Name, NoMemory, Shared, both};
use ebr_exprtree::Op;
use std::alloc::Global;

/// A unit.
#[derive(Drop)]
pub enum UnitTree {
    /// A procedure or a function.
    Subprogram(Shared<Subprogram>),
    /// A package's specification: its name and its items.
    Package(Name, Shared<PackageItems>),
    PackageBody(Shared<PackageBody>),
    Trigger(Shared<Trigger>),
    View(Shared<EditioningView>),
    /// A block that a session runs. `CALL p(..)` is the block that calls p.
    Block(Shared<Block>),
}

/// The head of a procedure, or of a function where it has a result.
#[derive(Drop)]
pub struct Head {
    pub name: Name,
    pub parameters: List<Parameter>,
    pub result: Option<ParameterType>,
}

/// A procedure or a function with its body.
#[derive(Drop)]
pub struct Subprogram {
    pub head: Head,
    pub body: Block,
}

#[derive(Drop)]
pub struct Parameter {
    pub name: Name,
    /// The mode as it is written; without one it is IN.
    pub mode: Option<Mode>,
    pub ty: ParameterType,
}

/// Which way a parameter passes values.
#[derive(Clone, Copy, Debug)]
pub enum Mode {
    In,
    Out,
    InOut,
}

/// The type of a parameter or of a function's result, which has no size.
#[derive(Drop)]
pub enum ParameterType {
    Number,
    Integer,
    Varchar2,
    Boolean,
    /// `n.m%TYPE`.
    OfColumn(Name, Name),
}

/// What a package's specification declares.
#[derive(Drop)]
pub enum PackageItem {
    Decl(Decl),
    Head(Head),
}

/// A package's body. The initial part is there where it has statements.
#[derive(Drop)]
pub struct PackageBody {
    pub name: Name,
    pub declarations: List<Decl>,
    pub subprograms: Subprograms,
    pub statements: List<Shared<Stmt>>,
    pub handlers: List<Handler>,
}

/// A row trigger.
#[derive(Drop)]
pub struct Trigger {
    pub name: Name,
    pub timing: Timing,
    /// One event or more.
    pub events: List<Op>,
    /// The table or editioning view behind ON.
    pub on: Name,
    pub crossedition: Option<Direction>,
    /// Whether it is enabled, as it is where nothing is written.
    pub enabled: bool,
    pub body: Block,
}

/// Which way a crossedition trigger carries changes: into later editions or into earlier ones.
#[derive(Clone, Copy, Debug)]
pub enum Direction {
    Forward,
    Reverse,
}

/// `EDITIONING VIEW name (names) AS SELECT items FROM table`; without names each item's own counts.
#[derive(Drop)]
pub struct EditioningView {
    pub name: Name,
    pub names: List<Name>,
    /// One item or more.
    pub items: List<ViewItem>,
    pub table: Name,
}

/// A column of the table, with its alias.
#[derive(Drop)]
pub struct ViewItem {
    pub column: Name,
    pub alias: Option<Name>,
}

impl CloneIn for UnitTree {
    fn clone_in(&self, alloc: Global) -> Result<UnitTree, NoMemory> {
        match self {
            UnitTree::Subprogram(unit) => match unit.clone_in(alloc) {
                Ok(unit) => Ok(UnitTree::Subprogram(unit)),
                Err(e) => Err(e),
            },
            UnitTree::Package(name, items) => match both(alloc, name, items) {
                Ok((name, items)) => Ok(UnitTree::Package(name, items)),
                Err(e) => Err(e),
            },
            UnitTree::PackageBody(body) => match body.clone_in(alloc) {
                Ok(body) => Ok(UnitTree::PackageBody(body)),
                Err(e) => Err(e),
            },
            UnitTree::Trigger(trigger) => match trigger.clone_in(alloc) {
                Ok(trigger) => Ok(UnitTree::Trigger(trigger)),
                Err(e) => Err(e),
            },
            UnitTree::View(view) => match view.clone_in(alloc) {
                Ok(view) => Ok(UnitTree::View(view)),
                Err(e) => Err(e),
            },
            UnitTree::Block(block) => match block.clone_in(alloc) {
                Ok(block) => Ok(UnitTree::Block(block)),
                Err(e) => Err(e),
            },
        }
    }
}
