//! The statement that tokens spell, told by the first of them.

ghost use Rattle.std.specs.Prelude.{◌≡◌, IfOk};
ghost use Rattle.ebr_script.specs.Statements as spec;

use ebr_ast::{Definition, Statement};
use ebr_base::NoMemory;
use ebr_ddlparse::definition;
use ebr_grammar::{Kind, Tokens};
use ebr_lexer::Token;
use ebr_plparse::{block, created};
use ebr_sqlparse::{session, sql, transaction};
use std::alloc::Global;

/// Whether an object is created.
#[tactic(auto, unfolding(crate::specs::Statements::creates_object))]
fn creates_object(tokens: &[Token]) -> bool
    ensures { result ≡ spec.creates_object tokens.now }
{
    let ahead = Tokens::new(tokens);
    ahead.sees(Kind::Create)
        && ahead.sees_later(
            1,
            &[
                Kind::Or,
                Kind::Editionable,
                Kind::Editioning,
                Kind::Procedure,
                Kind::Function,
                Kind::Package,
                Kind::Trigger,
            ],
        )
}

/// Whether the choice of an edition begins.
#[tactic(auto, unfolding(crate::specs::Statements::begins_session))]
fn begins_session(tokens: &[Token]) -> bool
    ensures { result ≡ spec.begins_session tokens.now }
{
    let ahead = Tokens::new(tokens);
    ahead.sees(Kind::Alter) && ahead.sees_later(1, &[Kind::Session])
}

/// The creation of an object that the tokens spell.
pub fn creation(alloc: Global, tokens: &[Token]) -> Result<Option<Definition>, NoMemory>
    ensures { IfOk result (λ r. r ≡ spec.creation_of tokens.now) }
{
    created(alloc, tokens)
}

fn any_definition(alloc: Global, tokens: &[Token]) -> Result<Option<Definition>, NoMemory>
    ensures { IfOk result (λ r. r ≡ spec.definition_of tokens.now) }
{
    if creates_object(tokens) {
        creation(alloc, tokens)
    } else {
        definition(alloc, tokens)
    }
}

fn a_block(alloc: Global, tokens: &[Token]) -> Result<Option<Statement>, NoMemory>
    ensures { IfOk result (λ r. r ≡ spec.a_block tokens.now) }
{
    match block(alloc, tokens)? {
        Some(tree) => Ok(Some(Statement::Block(tree))),
        None => Ok(None),
    }
}

fn a_transaction(alloc: Global, tokens: &[Token]) -> Result<Option<Statement>, NoMemory>
    ensures { IfOk result (λ r. r ≡ spec.a_transaction tokens.now) }
{
    match transaction(alloc, tokens)? {
        Some(tree) => Ok(Some(Statement::Transaction(tree))),
        None => Ok(None),
    }
}

fn a_session(alloc: Global, tokens: &[Token]) -> Result<Option<Statement>, NoMemory>
    ensures { IfOk result (λ r. r ≡ spec.a_session tokens.now) }
{
    match session(alloc, tokens)? {
        Some(tree) => Ok(Some(Statement::SetEdition(tree))),
        None => Ok(None),
    }
}

fn a_definition(alloc: Global, tokens: &[Token]) -> Result<Option<Statement>, NoMemory>
    ensures { IfOk result (λ r. r ≡ spec.a_definition tokens.now) }
{
    match any_definition(alloc, tokens)? {
        Some(tree) => Ok(Some(Statement::Definition(tree))),
        None => Ok(None),
    }
}

fn an_sql(alloc: Global, tokens: &[Token]) -> Result<Option<Statement>, NoMemory>
    ensures { IfOk result (λ r. r ≡ spec.an_sql tokens.now) }
{
    match sql(alloc, tokens)? {
        Some(tree) => Ok(Some(Statement::Sql(tree))),
        None => Ok(None),
    }
}

/// The statement that the tokens spell, all of them; None where they spell none.
#[tactic(auto, unfolding(crate::specs::Statements::statement_of))]
pub fn statement(alloc: Global, tokens: &[Token]) -> Result<Option<Statement>, NoMemory>
    ensures { IfOk result (λ r. r ≡ spec.statement_of tokens.now) }
{
    let ahead = Tokens::new(tokens);
    if ahead.sees_any(&[Kind::Begin, Kind::Declare, Kind::Call]) {
        a_block(alloc, tokens)
    } else if ahead.sees_any(&[Kind::Commit, Kind::Rollback, Kind::Savepoint]) {
        a_transaction(alloc, tokens)
    } else if begins_session(tokens) {
        a_session(alloc, tokens)
    } else if ahead.sees_any(&[Kind::Create, Kind::Alter, Kind::Drop]) {
        a_definition(alloc, tokens)
    } else {
        an_sql(alloc, tokens)
    }
}
