//! Instructions.

use ebr_ast::{Attribute, Op, RowImage, SqlTree, Transaction};
use ebr_base::{List, Name, Shared, Value};
use ebr_run::{Callee, Fault, Location, Reference, VariableType};
use ebr_sqlcheck::ValueType;
use ebr_value::{BinOp, Builtin};

pub type Code = Shared<List<Instruction>>;

/// What is done with the answer to a statement.
#[derive(Drop)]
pub enum Lookup {
    /// The one row goes on the operands, its first value topmost; its values are of these types, as far as they are known.
    Row(List<Option<ValueType>>),
    /// The rows go into a cursor.
    Open(Location),
    /// The count is kept for `SQL%ROWCOUNT`.
    Count,
}

/// What a handler catches.
#[derive(Drop)]
pub enum Caught {
    Others,
    These(List<Fault>),
}

/// What an instruction does that holds no code. It takes its operands from the top, and leaves its value there.
#[derive(Drop)]
pub enum Operation {
    /// A statement begins: a step, and no operands.
    Step,
    Push(Value),
    /// The topmost operand once more.
    Copy,
    /// The operand beneath the topmost one once more.
    Over,
    /// Takes the operand beneath the topmost one away.
    Nip,
    /// Takes the topmost operand away.
    Drop,
    Load(Location),
    /// Assigns the topmost operand to a variable of this type, or to one without a type.
    Assign(Location, Option<VariableType>),
    /// The column of `:NEW` or of `:OLD` at a place.
    LoadColumn(RowImage, usize),
    /// Assigns the topmost operand to the column of `:NEW` at a place.
    AssignNew(usize, VariableType),
    /// INSERTING, UPDATING or DELETING.
    Firing(Op),
    /// SQLCODE of the fault that the handler at a place handles.
    SqlCode(usize),
    /// `SQL%FOUND` and the like.
    Affected(Attribute),
    /// An attribute of a cursor.
    Attribute(Location, Attribute),
    /// An operator of the two topmost operands.
    Binary(BinOp),
    /// A function of so many operands.
    Function(Builtin, usize),
    /// `+a`.
    Unsigned,
    /// Refers to a package, which makes its state at the first reference.
    Refer(Reference, Name),
    Call(Callee),
    /// Leaves a subprogram.
    Return,
    /// Leaves a function with the topmost operand, which is assigned to a result of this type.
    Give(Option<VariableType>),
    Raise(Fault),
    /// Raises what the handler at a place handles.
    Reraise(usize),
    /// Leaves the loop.
    Exit,
    /// Begins the loop's next turn.
    Continue,
    /// PUT_LINE of the topmost operand.
    PutLine,
    /// Asks a statement with so many operands as its binds.
    Sql {
        stmt: Shared<SqlTree>,
        binds: usize,
        lookup: Shared<Lookup>,
    },
    Transact(Transaction),
    /// Keeps a count for `SQL%ROWCOUNT`.
    Affect(usize),
    /// Raises ORA-06511 where a cursor is open.
    Open(Location),
    /// Closes a cursor, open or not.
    Reset(Location),
    /// Pushes the next row's values, the first topmost, and above them TRUE; without a row FALSE alone. The values are of
    /// these types, as far as they are known.
    Fetch(Location, List<Option<ValueType>>),
    Close(Location),
    /// Ends the run: what has no meaning.
    Broken,
}

/// An instruction.
#[cycle(instruction)]
#[derive(Drop)]
pub enum Instruction {
    Do(Operation),
    /// Goes on behind the left operand of an operator, which is topmost, unless it decides alone.
    Decide(BinOp, Code),
    /// Runs the first code where the topmost operand is TRUE, and else the second.
    If(Code, Code),
    /// Each turn runs the head, takes a step and runs the body.
    Loop(Code, Code),
    /// Runs for each number from the lower operand to the topmost one, from the last one down where reversed, with the
    /// number in the variable at a place.
    Numbers(usize, bool, Code),
    /// Runs the code; the first of the handlers that catches what it raised handles it, with what was raised kept at a place.
    Guard(Code, usize, Shared<List<Handler>>),
    /// Closes a cursor when the code has ended.
    Closing(Location, Code),
}

/// A handler.
#[cycle(instruction)]
#[derive(Drop)]
pub struct Handler {
    pub caught: Caught,
    pub body: Code,
}
