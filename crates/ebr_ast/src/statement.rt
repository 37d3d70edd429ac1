//! Blocks, declarations and statements of PL/SQL.

use crate::query::Query;
use crate::sql::{Delete, Insert, Transaction, Update};
use ebr_base::{List, Name, Shared};
use ebr_exprtree::{Expr, Path};

/// A block: its declarations, its statements, and the handlers of their exceptions.
#[cycle(statement)]
#[derive(Drop)]
pub struct Block {
    pub declarations: List<Decl>,
    pub statements: List<Shared<Stmt>>,
    pub handlers: List<Handler>,
}

/// `WHEN caught THEN statements`.
#[cycle(statement)]
#[derive(Drop)]
pub struct Handler {
    pub caught: Caught,
    pub statements: List<Shared<Stmt>>,
}

/// `IF condition THEN statements`, or the same behind ELSIF.
#[cycle(statement)]
#[derive(Drop)]
pub struct Branch {
    pub condition: Shared<Expr>,
    pub statements: List<Shared<Stmt>>,
}

/// A statement. As an expression, it is always held behind a `Shared`.
#[cycle(statement)]
#[derive(Drop)]
pub enum Stmt {
    Null,
    Assign(Target, Shared<Expr>),
    Block(Shared<Block>),
    Return(Option<Shared<Expr>>),
    /// `RAISE`, without a name the exception that is being handled.
    Raise(Option<Path>),
    /// The branches of IF and ELSIF, and the statements behind ELSE; none where it isn't there.
    If(List<Branch>, List<Shared<Stmt>>),
    Loop(List<Shared<Stmt>>),
    While(Shared<Expr>, List<Shared<Stmt>>),
    ForRange(Range, List<Shared<Stmt>>),
    ForRows(Rows, List<Shared<Stmt>>),
    Exit(Option<Shared<Expr>>),
    Continue(Option<Shared<Expr>>),
    /// A call of a procedure, with its arguments where parentheses stand.
    Call(Path, Option<List<Shared<Expr>>>),
    Sql(SqlStmt),
    Cursor(CursorStmt),
    PutLine(Shared<Expr>),
    /// `RAISE_APPLICATION_ERROR(-k, text)`, with k.
    RaiseApplicationError(u64, Shared<Expr>),
}

/// An SQL statement inside a block.
#[derive(Drop)]
pub enum SqlStmt {
    /// `SELECT list INTO targets FROM ..`.
    SelectInto(Shared<Query>, List<Target>),
    Insert(Shared<Insert>),
    Update(Shared<Update>),
    Delete(Shared<Delete>),
    Transaction(Transaction),
}

/// A statement on a cursor.
#[derive(Drop)]
pub enum CursorStmt {
    Open(Name),
    Fetch(Name, List<Target>),
    Close(Name),
}

/// `FOR name IN low .. high`, or with REVERSE where reversed.
#[derive(Drop)]
pub struct Range {
    pub name: Name,
    pub reversed: bool,
    pub low: Shared<Expr>,
    pub high: Shared<Expr>,
}

/// `FOR record IN` a cursor or a query.
#[derive(Drop)]
pub struct Rows {
    pub record: Name,
    pub from: RowsFrom,
}

/// Where a loop's rows come from.
#[derive(Drop)]
pub enum RowsFrom {
    Cursor(Name),
    Query(Shared<Query>),
}

/// What a handler catches.
#[derive(Drop)]
pub enum Caught {
    Others,
    Named(List<Path>),
}

/// What is assigned to.
#[derive(Drop)]
pub enum Target {
    Name(Path),
    /// `:NEW.n`.
    New(Name),
}

/// A declaration.
#[derive(Drop)]
pub enum Decl {
    Variable {
        name: Name,
        constant: bool,
        ty: DeclaredType,
        initial: Option<Shared<Expr>>,
    },
    Exception(Name),
    /// `PRAGMA EXCEPTION_INIT(name, -k)`, with k.
    ExceptionInit(Name, u64),
    /// `PRAGMA AUTONOMOUS_TRANSACTION`.
    Autonomous,
    Cursor(Name, Shared<Query>),
}

/// The type of a variable or of a table's column, with its size as it is written.
#[derive(Drop)]
pub enum DeclaredType {
    Number(Option<u64>),
    Integer,
    Varchar2(u64),
    Boolean,
    /// `n.m%TYPE`.
    OfColumn(Name, Name),
}
