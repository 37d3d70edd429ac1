//! Whole texts of statements.

ghost use Rattle.std.specs.Prelude.{◌≡◌, ℕ, true, [], ◌∷◌, ◌++◌, IfOk, IfSome, Some, List as Sequence};
ghost use Rattle.ebr_grammar.specs.declared.kind.Kind.TheVariants as kinds;
ghost use Rattle.ebr_grammar.specs.Kinds.{kind_of, member};
ghost use Rattle.ebr_grammar.specs.Outcome.{named_by};
ghost use Rattle.ebr_exprtree.specs.declared.expression.Expr.{Expr as Tree};
ghost use Rattle.ebr_ast.specs.declared.query.ItemKind.TheVariants as item;
ghost use Rattle.ebr_exprparse.specs.Expressions.{SpellsExpr};
ghost use Rattle.ebr_sqlparse.specs.declared.items.Function.{Function};
ghost use Rattle.ebr_sqlparse.specs.Items.{function_ahead, aggregate_of, SpellsWhat};
ghost use Rattle.ebr_sqlparse.specs.Statements as grammar;

use crate::statements::{read_session, read_sql, read_transaction};
use ebr_ast::{SqlTree, Transaction};
use ebr_base::{Name, NoMemory};
use ebr_grammar::{Tokens, whole};
use ebr_lexer::Token;
use std::alloc::Global;

/// The statement that reads or changes rows which the tokens spell, all of them.
///
/// A query, INSERT, UPDATE, DELETE or APPLY TRIGGER; None where they spell none.
pub fn sql(alloc: Global, tokens: &[Token]) -> Result<Option<SqlTree>, NoMemory>
    // What is found is spelled by the tokens.
    ensures found { IfOk result (λ r. IfSome r (grammar.SpellsSql tokens.now)) }
    // What the tokens spell is found.
    ensures only { (x : SqlTree) → grammar.SpellsSql tokens.now x → IfOk result (λ r. r ≡ Some x) }
{
    let mut rest = Tokens::new(tokens);
    let read = read_sql(alloc, &mut rest);
    whole(read, &rest)
}

/// The COMMIT, ROLLBACK or SAVEPOINT that the tokens spell, all of them; None where they spell none.
pub fn transaction(alloc: Global, tokens: &[Token]) -> Result<Option<Transaction>, NoMemory>
    // What is found is spelled by the tokens.
    ensures found { IfOk result (λ r. IfSome r (grammar.SpellsTransaction tokens.now)) }
    // What the tokens spell is found.
    ensures only { (x : Transaction) → grammar.SpellsTransaction tokens.now x → IfOk result (λ r. r ≡ Some x) }
{
    let mut rest = Tokens::new(tokens);
    let read = read_transaction(alloc, &mut rest);
    whole(read, &rest)
}

/// The name of the edition in `ALTER SESSION SET EDITION = n`, which the tokens spell, all of them;
/// None where they spell no such statement.
pub fn session(alloc: Global, tokens: &[Token]) -> Result<Option<Name>, NoMemory>
    // What is found is spelled by the tokens.
    ensures found { IfOk result (λ r. IfSome r (grammar.SpellsSession tokens.now)) }
    // What the tokens spell is found.
    ensures only { (x : Name) → grammar.SpellsSession tokens.now x → IfOk result (λ r. r ≡ Some x) }
{
    let mut rest = Tokens::new(tokens);
    let read = read_session(alloc, &mut rest);
    whole(read, &rest)
}

/// Tokens spell one statement of a kind at most.
pub fn one_tree()
    ensures sql { (ts : Sequence Token) (a b : SqlTree) → grammar.SpellsSql ts a → grammar.SpellsSql ts b → a ≡ b }
    ensures transaction { (ts : Sequence Token) (a b : Transaction) → grammar.SpellsTransaction ts a → grammar.SpellsTransaction ts b → a ≡ b }
    ensures session { (ts : Sequence Token) (a b : Name) → grammar.SpellsSession ts a → grammar.SpellsSession ts b → a ≡ b }
{}

/// The name of an aggregate with one expression in parentheses spells that aggregate.
pub fn calls_of_aggregates()
    ensures { (name before after : Token) (n : Sequence ℕ) (argument : Sequence Token) (f : Function) (x : Tree) →
        function_ahead (name ∷ []) ≡ Some f → named_by name ≡ Some n → member (kind_of before) (kinds.LeftParen ∷ []) ≡ true → member (kind_of after) (kinds.RightParen ∷ []) ≡ true →
        SpellsExpr argument x → SpellsWhat (name ∷ before ∷ argument ++ after ∷ []) (item.Aggregate (aggregate_of f x)) }
{}
