//! What reads statements, and the kinds that begin them.

ghost use Rattle.std.specs.Prelude.{◌≡◌};
ghost use Rattle.ebr_grammar.specs.Forms.{sees};
ghost use Rattle.ebr_simpleparse.specs.Declarations.{declaration_begins};
ghost use Rattle.ebr_stmtparse.specs.Statements as spec;

use ebr_ast::{Handler, Stmt};
use ebr_base::{List, Shared};
use ebr_grammar::{Kind, Tokens};
use ebr_simpleparse::SIMPLE_WORDS;
use std::alloc::Global;

/// Statements with the handlers of their exceptions: the part of a block from BEGIN on, and that of
/// a package's body.
#[derive(Drop)]
pub struct Initial {
    pub statements: List<Shared<Stmt>>,
    pub handlers: List<Handler>,
}

/// The productions of statements and blocks.
#[derive(Clone, Copy)]
pub struct Grammar<F> {
    pub alloc: Global,
    /// How deep statements may still nest.
    pub depth: usize,
    /// Reads nested statements.
    pub nested: F,
}

/// With what a statement begins that holds others.
pub const COMPOUND_WORDS: [Kind; 6] = [
    Kind::If,
    Kind::Loop,
    Kind::While,
    Kind::For,
    Kind::Declare,
    Kind::Begin,
];

/// Whether a word stands here with which a statement begins.
fn sees_statement_word(tokens: &Tokens<'_>) -> bool
    ensures { result ≡ sees spec.statement_words tokens.now }
{
    if tokens.sees_any(&COMPOUND_WORDS) {
        return true;
    }
    tokens.sees_any(&SIMPLE_WORDS)
}

/// Whether a statement begins here.
pub fn begins_statement(tokens: &Tokens<'_>) -> bool
    ensures { result ≡ sees spec.statement_begins tokens.now }
{
    if sees_statement_word(tokens) {
        return true;
    }
    tokens.sees_name()
}

/// Whether a declaration begins here.
pub fn begins_declaration(tokens: &Tokens<'_>) -> bool
    ensures { result ≡ sees declaration_begins tokens.now }
{
    if tokens.sees_any(&[Kind::Pragma, Kind::Cursor]) {
        return true;
    }
    tokens.sees_name()
}
