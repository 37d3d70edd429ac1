//! Texts as asks.

ghost use Rattle.std.specs.Prelude.{◌≡◌, ◌≤◌, [], length, IfOk, OnOk};
ghost use Rattle.ebr_core.specs.Asked.{IsFit, IsTextOf};

use ebr_asks::Ask;
use ebr_ast::{Definition, SqlTree, Statement, Transaction};
use ebr_base::{Bytes, List, NoMemory, Shared};
use ebr_script::{Piece, PieceKind, pieces, stored};
use std::alloc::Global;

/// Drops a value by one call.
pub fn release<T: Drop>(_value: T) {}

/// The ask of a word, or of a statement. Where the text is neither, the test fails with want of memory.
pub fn ask_of(alloc: Global, text: &str) -> Result<Ask, NoMemory>
    ensures { IfOk result IsFit }
{
    match text {
        "begin" => Ok(Ask::Begin),
        "end" => Ok(Ask::EndCall { failed: false }),
        "fail" => Ok(Ask::EndCall { failed: true }),
        "push" => Ok(Ask::PushAuto),
        "commit" => Ok(Ask::Commit),
        "pop" => Ok(Ask::PopAuto { failed: false }),
        "pop failed" => Ok(Ask::PopAuto { failed: true }),
        "leave" => Ok(Ask::Leave),
        _ => statement(alloc, text.as_bytes()),
    }
}

/// The ask of a statement.
fn statement(alloc: Global, text: &[u8]) -> Result<Ask, NoMemory>
    ensures { IfOk result IsFit }
{
    if text.len() > 1_000_000 {
        return Err(NoMemory);
    }
    match stored(alloc, text)? {
        Some(what) => definition(alloc, what, text),
        None => other(alloc, text),
    }
}

/// The ask of a definition, with the text of the object that it creates.
fn definition(alloc: Global, what: Definition, text: &[u8]) -> Result<Ask, NoMemory>
    requires { IsTextOf what text.now }
    ensures { IfOk result IsFit }
{
    let (what, text) = with_copy(alloc, what, text)?;
    Ok(Ask::Ddl { what, text })
}

/// A value and a copy of a text, each made shareable.
fn with_copy<T: Drop>(
    alloc: Global,
    value: T,
    text: &[u8],
) -> Result<(Shared<T>, Shared<Bytes>), NoMemory>
    ensures { IfOk result (λ pair. pair ≡ (value, text.now)) }
{
    let copy = Shared::new(alloc, Bytes::from_slice(alloc, text)?)?;
    Ok((Shared::new(alloc, value)?, copy))
}

/// The ask of a statement that creates no object.
fn other(alloc: Global, text: &[u8]) -> Result<Ask, NoMemory>
    requires { length text.now ≤ 1000000 }
    ensures { IfOk result IsFit }
{
    match pieces(alloc, text)?.into_vec().pop() {
        Some(piece) => asked(alloc, piece),
        None => Err(NoMemory),
    }
}

fn asked(alloc: Global, piece: Piece) -> Result<Ask, NoMemory>
    ensures { IfOk result IsFit }
{
    match piece.what {
        PieceKind::Tree(statement) => asked_by(alloc, statement),
        PieceKind::Refused(_) => Err(NoMemory),
    }
}

fn asked_by(alloc: Global, statement: Statement) -> Result<Ask, NoMemory>
    ensures { IfOk result IsFit }
{
    match statement {
        Statement::Sql(tree) => sql(alloc, tree),
        Statement::Transaction(what) => Ok(transact(what)),
        Statement::SetEdition(name) => Ok(Ask::SetEdition(name)),
        Statement::Definition(what) => without_text(alloc, what),
        Statement::Block(_) => Err(NoMemory),
    }
}

fn sql(alloc: Global, tree: SqlTree) -> Result<Ask, NoMemory>
    ensures { IfOk result IsFit }
{
    Ok(Ask::Sql {
        stmt: Shared::new(alloc, tree)?,
        binds: Shared::new(alloc, List::new(alloc))?,
        left: 1_000_000,
    })
}

fn transact(what: Transaction) -> Ask
    ensures { IsFit result }
{
    match what {
        Transaction::Commit => Ask::Commit,
        Transaction::Rollback => Ask::Rollback,
        Transaction::RollbackTo(name) => Ask::BackTo(name),
        Transaction::Savepoint(name) => Ask::Savepoint(name),
    }
}

/// The ask of a definition that creates no object.
fn without_text(alloc: Global, what: Definition) -> Result<Ask, NoMemory>
    ensures { IfOk result IsFit }
{
    match no_text(&what) {
        Ok(()) => definition(alloc, what, b""),
        Err(NoMemory) => {
            release(what);
            Err(NoMemory)
        }
    }
}

/// Needs a definition that creates no object, with which no text goes.
fn no_text(what: &Definition) -> Result<(), NoMemory>
    ensures { OnOk result (IsTextOf what.now []) }
{
    match what {
        Definition::CreateEdition { .. }
        | Definition::DropEdition { .. }
        | Definition::DefaultEdition(_)
        | Definition::CreateTable { .. }
        | Definition::AddColumn { .. }
        | Definition::DropTable(_)
        | Definition::AlterTrigger { .. }
        | Definition::DropObject { .. } => Ok(()),
        Definition::CreateObject { .. } => Err(NoMemory),
    }
}
