//! Statements of SQL.

ghost use Rattle.ebr_grammar.specs.Outcome.{Reads};
ghost use Rattle.ebr_sqlparse.specs.Productions as productions;
ghost use Rattle.ebr_sqlparse.specs.Statements as grammar;

use crate::change::{read_delete, read_insert, read_update};
use crate::queries::read_query;
use ebr_ast::{SqlTree, Transaction};
use ebr_base::Name;
use ebr_grammar::{Kind, ReadStop, Tokens};
use std::alloc::Global;

/// `APPLY TRIGGER n`.
fn apply(alloc: Global, tokens: &mut Tokens<'_>) -> Result<Name, ReadStop>
    ensures { Reads (productions.reads_by grammar.apply tokens.old) result tokens.new }
{
    tokens.expect(Kind::Apply)?;
    tokens.expect(Kind::Trigger)?;
    tokens.name(alloc)
}

/// Reads a statement that reads or changes rows.
pub fn read_sql(alloc: Global, tokens: &mut Tokens<'_>) -> Result<SqlTree, ReadStop>
    ensures { Reads (productions.reads_by grammar.sql tokens.old) result tokens.new }
{
    if tokens.sees(Kind::Select) {
        Ok(SqlTree::Query(read_query(alloc, tokens)?))
    } else if tokens.sees(Kind::Insert) {
        Ok(SqlTree::Insert(read_insert(alloc, tokens)?))
    } else if tokens.sees(Kind::Update) {
        Ok(SqlTree::Update(read_update(alloc, tokens)?))
    } else if tokens.sees(Kind::Delete) {
        Ok(SqlTree::Delete(read_delete(alloc, tokens)?))
    } else {
        Ok(SqlTree::Apply(apply(alloc, tokens)?))
    }
}

/// What stands behind ROLLBACK and WORK.
fn back(alloc: Global, tokens: &mut Tokens<'_>) -> Result<Transaction, ReadStop>
    ensures { Reads (productions.reads_by grammar.back tokens.old) result tokens.new }
{
    if tokens.eat(Kind::To) {
        tokens.eat(Kind::Savepoint);
        Ok(Transaction::RollbackTo(tokens.name(alloc)?))
    } else {
        Ok(Transaction::Rollback)
    }
}

/// Reads COMMIT, ROLLBACK or SAVEPOINT.
pub fn read_transaction(alloc: Global, tokens: &mut Tokens<'_>) -> Result<Transaction, ReadStop>
    ensures { Reads (productions.reads_by grammar.transaction tokens.old) result tokens.new }
{
    if tokens.eat(Kind::Commit) {
        tokens.eat(Kind::Work);
        return Ok(Transaction::Commit);
    }
    if tokens.eat(Kind::Rollback) {
        tokens.eat(Kind::Work);
        return back(alloc, tokens);
    }
    tokens.expect(Kind::Savepoint)?;
    Ok(Transaction::Savepoint(tokens.name(alloc)?))
}

/// `ALTER SESSION SET EDITION = n`, of which it gives the name.
pub fn read_session(alloc: Global, tokens: &mut Tokens<'_>) -> Result<Name, ReadStop>
    ensures { Reads (productions.reads_by grammar.session tokens.old) result tokens.new }
{
    tokens.expect(Kind::Alter)?;
    tokens.expect(Kind::Session)?;
    tokens.expect(Kind::Set)?;
    tokens.expect(Kind::Edition)?;
    tokens.expect(Kind::Equal)?;
    tokens.name(alloc)
}
