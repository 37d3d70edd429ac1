//! A run of slot code up to each ask.

use ebr_asks::Ask;
use ebr_ast::{Op, Origin};
use ebr_base::{Bytes, Code as Refusal, List, Name, Shared, Value};
use ebr_code::{Code, Fault, Handler, Location, Lookup, Unit};
use ebr_memory::{Cursor, Levels, Packages, Stack, Stacks};

/// The row for which a trigger's body runs.
#[derive(Drop)]
pub struct BodyFrame {
    /// Where the statements of the body come from.
    pub origin: Origin,
    /// What fired the trigger.
    pub op: Op,
    pub old: List<Value>,
    pub new: List<Value>,
}

/// How what ran last has ended. What was raised is kept beside it.
#[derive(Clone, Copy)]
pub enum Flow {
    Normal,
    Exit,
    Continue,
    Returned,
    Raised,
    Stopped(Refusal),
    Waiting,
}

/// How a unit in a transaction of its own has ended.
#[derive(Clone, Copy)]
pub enum Left {
    Normal,
    Exit,
    Continue,
    Returned,
    Raised,
}

/// What is done with the answer to an ask.
#[derive(Clone, Copy)]
pub enum Pending {
    /// It is the answer to a statement.
    Lookup,
    /// The transaction changes, or one of its own begins.
    Done,
    /// A transaction of its own ends.
    Close(Left),
}

/// A call of a subprogram: how many values its caller takes back.
#[derive(Drop)]
pub struct Caller {
    pub unit: Shared<Unit>,
    pub place: usize,
    pub results: usize,
    /// How many frames its caller has left.
    pub frames_left: u32,
}

/// What is left to do when what is above it has ended.
#[derive(Drop)]
pub enum Task {
    /// The instructions of a code from a place on.
    Rest(Code, usize),
    /// The step and the body of a loop's turn, behind its head.
    Head(Code, Code),
    /// A loop's next turn: its head and its body.
    Loop(Code, Code),
    /// The turns that a loop over numbers has left: the variable's place, whether reversed, the ends, and the body.
    Numbers(usize, bool, i64, i64, Code),
    /// Handlers, and the place for what they handle.
    Guard(usize, Shared<List<Handler>>),
    /// Closes a cursor.
    Closing(Location),
    /// The end of a function.
    Function,
    /// The code of a unit whose transaction has been asked for, and whether it is a function.
    Autonomous(bool, Code),
    /// The end of a unit's transaction.
    Close,
    /// The end of a package's making, and how many makings whoever refers to it has left.
    Making(Name, usize),
    /// The end of a subprogram.
    Call(Caller),
}

/// A run.
#[derive(Drop)]
pub struct Running {
    pub variables: Levels<Value>,
    pub cursors: Levels<Cursor>,
    pub faults: Levels<Fault>,
    pub operands: Stacks<Value>,
    pub packages: Packages,
    pub row: Option<BodyFrame>,
    pub affected: Option<u64>,
    pub lines: List<Shared<Bytes>>,
    /// How many bytes of lines there may still be.
    pub room: usize,
    pub steps: u32,
    /// The most steps that there may be.
    pub left: u32,
    /// How many makings of packages may still begin, each inside the last one.
    pub makings_left: usize,
    pub frames_left: u32,
    pub tasks: Stack<Task>,
    pub flow: Flow,
    /// What was raised last.
    pub fault: Fault,
    /// The last ask.
    pub ask: Ask,
    pub pending: Pending,
    /// What is done with the answer to the last statement.
    pub lookup: Shared<Lookup>,
}
