//! The pieces of a script, and what they ask.

ghost use Rattle.std.specs.Prelude.{◌≡◌, ◌≤◌, [], codes, length, IfOk};
ghost use Rattle.ebr_script.specs.Pieces as pieces;
ghost use Rattle.ebr_run.specs.Statements as spec;
ghost use Rattle.ebr_session.specs.Has.{most_bytes};
ghost use Rattle.ebr_session.specs.Sessions.{run_piece, run_statement, text_asked};
ghost use Rattle.ebr_session.specs.inside.Requests.{AsksBy, IsTurn, KeepsSpelled, Takes};

use crate::after::{After, Request, Said};
use ebr_asks::Ask;
use ebr_ast::{Definition, SqlTree, Statement, Transaction};
use ebr_base::{Bytes, Code, List, NoMemory, Shared};
use ebr_calls::MOST_STEPS;
use ebr_memory::Stack;
use ebr_script::{Piece, PieceKind, pieces, text_of};
use std::alloc::Global;
use std::marker::Model;

/// What comes of the next piece.
#[derive(Drop)]
pub enum Turn {
    Asks(Request),
    /// It spells no statement, and this code is printed.
    Prints(Code),
    /// There is none.
    Ends,
}

/// A script, and those of its pieces that are still to run.
#[derive(Drop)]
pub struct Script {
    bytes: Bytes,
    pieces: Stack<Piece>,
}

impl Model for Script {
    ghost use Rattle.std.specs.Coded.{codes};
    ghost use Rattle.ebr_script.specs.contracts.piece.Piece as p;
    ghost use Rattle.ebr_session.specs.inside.Requests.{Reading, IsRead};

    ghost Value = { Reading };

    ghost coded = { Prim.hlevel (codes, p.the_row.coded) };

    ghost view = { λ s. record { script = s.bytes; left = s.pieces } };

    ghost invariant = { λ s. IsRead s.bytes s.pieces };
}

impl Script {
    /// The pieces of a script.
    pub fn new(alloc: Global, script: &[u8]) -> Result<Script, NoMemory>
        requires { length script.now ≤ most_bytes }
        ensures { IfOk result (λ s. s ≡ record { script = script.now; left = pieces.pieces_of script.now }) }
    {
        let bytes = Bytes::from_slice(alloc, script)?;
        let pieces = Stack::of(pieces(alloc, script)?);
        Ok(Script { bytes, pieces })
    }

    /// Takes the next piece.
    pub fn next(&mut self, alloc: Global) -> Result<Turn, NoMemory>
        ensures script { self.new.script ≡ self.old.script }
        ensures takes { IfOk result (λ turn. Takes turn self.old self.new) }
    {
        let Some(piece) = self.pieces.pop() else {
            return Ok(Turn::Ends);
        };
        turn_of(alloc, self.bytes.as_slice(), piece)
    }
}

/// What comes of a piece.
fn turn_of(alloc: Global, script: &[u8], piece: Piece) -> Result<Turn, NoMemory>
    requires small { length script.now ≤ most_bytes }
    requires within { pieces.LiesWithin script.now piece }
    requires text { pieces.KeepsText script.now piece }
    ensures { IfOk result (λ turn. IsTurn turn (run_piece piece.what (pieces.text_of script.now piece))) }
{
    let text = text_of(script, &piece);
    match piece.what {
        PieceKind::Tree(statement) => Ok(Turn::Asks(request(alloc, statement, text)?)),
        PieceKind::Refused(code) => Ok(Turn::Prints(code)),
    }
}

/// What a statement asks, whose piece has this text.
fn request(alloc: Global, statement: Statement, text: &[u8]) -> Result<Request, NoMemory>
    requires small { length text.now ≤ most_bytes }
    requires spelled { KeepsSpelled statement text.now }
    ensures { IfOk result (λ r. AsksBy r (run_statement statement text.now)) }
{
    match statement {
        Statement::Sql(tree) => sql(alloc, tree),
        Statement::Transaction(what) => Ok(Request {
            ask: transact(what),
            after: After::Print(Said::Fine),
        }),
        Statement::SetEdition(name) => Ok(Request {
            ask: Ask::SetEdition(name),
            after: After::SetEdition,
        }),
        Statement::Definition(what) => define(alloc, what, text),
        Statement::Block(block) => Ok(Request {
            ask: Ask::Begin,
            after: After::Begin(block),
        }),
    }
}

/// What a statement asks that reads or changes rows.
fn sql(alloc: Global, tree: SqlTree) -> Result<Request, NoMemory>
    ensures { IfOk result (λ r. AsksBy r (run_statement (Statement.Sql tree) [])) }
{
    Ok(Request {
        ask: Ask::Sql {
            stmt: Shared::new(alloc, tree)?,
            binds: Shared::new(alloc, List::new(alloc))?,
            left: MOST_STEPS,
        },
        after: After::Print(Said::Nothing),
    })
}

fn transact(what: Transaction) -> Ask
    ensures { result ≡ spec.transact what }
{
    match what {
        Transaction::Commit => Ask::Commit,
        Transaction::Rollback => Ask::Rollback,
        Transaction::RollbackTo(name) => Ask::BackTo(name),
        Transaction::Savepoint(name) => Ask::Savepoint(name),
    }
}

/// What a definition asks, whose piece has this text.
fn define(alloc: Global, what: Definition, text: &[u8]) -> Result<Request, NoMemory>
    requires small { length text.now ≤ most_bytes }
    requires spelled { KeepsSpelled (Statement.Definition what) text.now }
    ensures { IfOk result (λ r. AsksBy r (run_statement (Statement.Definition what) text.now)) }
{
    let text = text_asked(&what, text);
    let (what, text) = with_copy(alloc, what, text)?;
    Ok(Request {
        ask: Ask::Ddl { what, text },
        after: After::Print(Said::Fine),
    })
}

/// The text that a definition is asked with: that of the object that it creates, and empty where it creates none.
fn text_asked<'a>(what: &Definition, text: &'a [u8]) -> &'a [u8]
    ensures { result.now ≡ text_asked what.now text.now }
{
    match what {
        Definition::CreateObject { .. } => text,
        _ => b"",
    }
}

/// The value and a copy of a text, each made shareable. It is generic so that what it drops where there is no memory is
/// dropped by one call.
fn with_copy<T: Drop>(
    alloc: Global,
    value: T,
    text: &[u8],
) -> Result<(Shared<T>, Shared<Bytes>), NoMemory>
    ensures { IfOk result (λ pair. pair ≡ (value, text.now)) }
{
    let copy = Shared::new(alloc, Bytes::from_slice(alloc, text)?)?;
    Ok((Shared::new(alloc, value)?, copy))
}
