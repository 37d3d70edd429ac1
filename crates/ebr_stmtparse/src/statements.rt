//! Statements, a method for each production.

ghost use Rattle.std.specs.Prelude.{◌≡◌};
ghost use Rattle.ebr_grammar.specs.Outcome.{Reads};
ghost use Rattle.ebr_grammar.specs.Reading.{with_first};
ghost use Rattle.ebr_stmtparse.specs.Statements as spec;
ghost use Rattle.ebr_stmtparse.specs.inside.Nests.{Nests};

use crate::grammar::{Grammar, begins_statement};
use ebr_ast::{Branch, Range, Rows, Stmt};
use ebr_base::{List, Name, Shared};
use ebr_exprparse::read_expression;
use ebr_grammar::{Kind, ReadStop, Tokens, shared};
use ebr_simpleparse::{Heading, read_heading, read_simple};
use std::alloc::Global;

/// The loop with a heading.
fn loop_of(name: Name, heading: Heading, body: List<Shared<Stmt>>) -> Stmt
    ensures { result ≡ spec.loop_of name heading body }
{
    match heading {
        Heading::Range(reversed, low, high) => {
            let range = Range {
                name,
                reversed,
                low,
                high,
            };
            Stmt::ForRange(range, body)
        }
        Heading::Rows(from) => Stmt::ForRows(Rows { record: name, from }, body),
    }
}

impl<F: Fn(Global, &mut Tokens<'_>, usize) -> Result<List<Shared<Stmt>>, ReadStop>> Grammar<F> {
    /// Nested statements, to one level less.
    pub fn read_body_statements(
        &self,
        tokens: &mut Tokens<'_>,
    ) -> Result<List<Shared<Stmt>>, ReadStop>
        requires { Nests self.now.depth (F.pre self.now.nested) (F.post self.now.nested) }
        ensures { Reads (spec.reads_at self.now.depth spec.body_statements tokens.old) result tokens.new }
    {
        (self.nested)(self.alloc, tokens, self.depth)
    }

    /// END LOOP with its semicolon.
    fn end_loop(&self, tokens: &mut Tokens<'_>) -> Result<(), ReadStop>
        ensures { Reads (spec.reads_at self.now.depth spec.end_loop tokens.old) result tokens.new }
    {
        tokens.expect(Kind::End)?;
        tokens.expect(Kind::Loop)?;
        tokens.expect(Kind::Semicolon)
    }

    /// What stands behind LOOP.
    fn loop_body(&self, tokens: &mut Tokens<'_>) -> Result<List<Shared<Stmt>>, ReadStop>
        requires { Nests self.now.depth (F.pre self.now.nested) (F.post self.now.nested) }
        ensures { Reads (spec.reads_at self.now.depth spec.loop_body tokens.old) result tokens.new }
    {
        let found = self.read_body_statements(tokens)?;
        self.end_loop(tokens)?;
        Ok(found)
    }

    /// What stands behind WHILE.
    fn while_loop(&self, tokens: &mut Tokens<'_>) -> Result<Stmt, ReadStop>
        requires { Nests self.now.depth (F.pre self.now.nested) (F.post self.now.nested) }
        ensures { Reads (spec.reads_at self.now.depth spec.while_loop tokens.old) result tokens.new }
    {
        let condition = read_expression(self.alloc, tokens)?;
        tokens.expect(Kind::Loop)?;
        let body = self.loop_body(tokens)?;
        Ok(Stmt::While(condition, body))
    }

    /// What stands behind IN.
    fn headed_loop(&self, tokens: &mut Tokens<'_>, name: Name) -> Result<Stmt, ReadStop>
        requires { Nests self.now.depth (F.pre self.now.nested) (F.post self.now.nested) }
        ensures { Reads (with_first name (spec.reads_at self.now.depth spec.headed_loop tokens.old)) result tokens.new }
    {
        let heading = read_heading(self.alloc, tokens)?;
        let body = self.loop_body(tokens)?;
        Ok(loop_of(name, heading, body))
    }

    /// What stands behind FOR.
    fn for_loop(&self, tokens: &mut Tokens<'_>) -> Result<Stmt, ReadStop>
        requires { Nests self.now.depth (F.pre self.now.nested) (F.post self.now.nested) }
        ensures { Reads (spec.reads_at self.now.depth spec.for_loop tokens.old) result tokens.new }
    {
        let name = tokens.name(self.alloc)?;
        tokens.expect(Kind::In)?;
        self.headed_loop(tokens, name)
    }

    /// A condition with its statements.
    fn branch(&self, tokens: &mut Tokens<'_>) -> Result<Branch, ReadStop>
        requires { Nests self.now.depth (F.pre self.now.nested) (F.post self.now.nested) }
        ensures { Reads (spec.reads_at self.now.depth spec.branch tokens.old) result tokens.new }
    {
        let condition = read_expression(self.alloc, tokens)?;
        tokens.expect(Kind::Then)?;
        let statements = self.read_body_statements(tokens)?;
        Ok(Branch {
            condition,
            statements,
        })
    }

    /// The branches behind the first, and with it.
    fn more_branches(
        &self,
        tokens: &mut Tokens<'_>,
        first: Branch,
    ) -> Result<List<Branch>, ReadStop>
        requires { Nests self.now.depth (F.pre self.now.nested) (F.post self.now.nested) }
        ensures { Reads (with_first first (spec.reads_at self.now.depth spec.more_branches tokens.old)) result tokens.new }
    {
        let mut found = List::new(self.alloc);
        found.push(first)?;
        for _turn in 0..tokens.left() {
            if !tokens.eat(Kind::Elsif) {
                return Ok(found);
            }
            let next = self.branch(tokens)?;
            found.push(next)?;
        }
        Ok(found)
    }

    fn branches(&self, tokens: &mut Tokens<'_>) -> Result<List<Branch>, ReadStop>
        requires { Nests self.now.depth (F.pre self.now.nested) (F.post self.now.nested) }
        ensures { Reads (spec.reads_at self.now.depth spec.branches tokens.old) result tokens.new }
    {
        let first = self.branch(tokens)?;
        self.more_branches(tokens, first)
    }

    /// `[ELSE statements]`.
    fn otherwise(&self, tokens: &mut Tokens<'_>) -> Result<List<Shared<Stmt>>, ReadStop>
        requires { Nests self.now.depth (F.pre self.now.nested) (F.post self.now.nested) }
        ensures { Reads (spec.reads_at self.now.depth spec.otherwise tokens.old) result tokens.new }
    {
        if tokens.eat(Kind::Else) {
            self.read_body_statements(tokens)
        } else {
            Ok(List::new(self.alloc))
        }
    }

    /// END IF with its semicolon.
    fn end_if(&self, tokens: &mut Tokens<'_>) -> Result<(), ReadStop>
        ensures { Reads (spec.reads_at self.now.depth spec.end_if tokens.old) result tokens.new }
    {
        tokens.expect(Kind::End)?;
        tokens.expect(Kind::If)?;
        tokens.expect(Kind::Semicolon)
    }

    fn closed_otherwise(&self, tokens: &mut Tokens<'_>) -> Result<List<Shared<Stmt>>, ReadStop>
        requires { Nests self.now.depth (F.pre self.now.nested) (F.post self.now.nested) }
        ensures { Reads (spec.reads_at self.now.depth spec.closed_otherwise tokens.old) result tokens.new }
    {
        let found = self.otherwise(tokens)?;
        self.end_if(tokens)?;
        Ok(found)
    }

    /// What stands behind IF.
    fn choice(&self, tokens: &mut Tokens<'_>) -> Result<Stmt, ReadStop>
        requires { Nests self.now.depth (F.pre self.now.nested) (F.post self.now.nested) }
        ensures { Reads (spec.reads_at self.now.depth spec.choice tokens.old) result tokens.new }
    {
        let branches = self.branches(tokens)?;
        let otherwise = self.closed_otherwise(tokens)?;
        Ok(Stmt::If(branches, otherwise))
    }

    /// A block as a statement.
    fn nested_block(&self, tokens: &mut Tokens<'_>) -> Result<Stmt, ReadStop>
        requires { Nests self.now.depth (F.pre self.now.nested) (F.post self.now.nested) }
        ensures { Reads (spec.reads_at self.now.depth spec.nested_block tokens.old) result tokens.new }
    {
        let block = self.read_block(tokens)?;
        Ok(Stmt::Block(Shared::new(self.alloc, block)?))
    }

    fn statement(&self, tokens: &mut Tokens<'_>) -> Result<Stmt, ReadStop>
        requires { Nests self.now.depth (F.pre self.now.nested) (F.post self.now.nested) }
        ensures { Reads (spec.reads_at self.now.depth spec.statement tokens.old) result tokens.new }
    {
        if tokens.eat(Kind::If) {
            self.choice(tokens)
        } else if tokens.eat(Kind::Loop) {
            Ok(Stmt::Loop(self.loop_body(tokens)?))
        } else if tokens.eat(Kind::While) {
            self.while_loop(tokens)
        } else if tokens.eat(Kind::For) {
            self.for_loop(tokens)
        } else if tokens.sees_any(&[Kind::Declare, Kind::Begin]) {
            self.nested_block(tokens)
        } else {
            read_simple(self.alloc, tokens)
        }
    }

    /// A statement, behind its pointer.
    fn shared_statement(&self, tokens: &mut Tokens<'_>) -> Result<Shared<Stmt>, ReadStop>
        requires { Nests self.now.depth (F.pre self.now.nested) (F.post self.now.nested) }
        ensures { Reads (spec.reads_at self.now.depth spec.statement tokens.old) result tokens.new }
    {
        let statement = self.statement(tokens)?;
        shared(self.alloc, statement)
    }

    /// The statements behind the first, and with it.
    fn more_statements(
        &self,
        tokens: &mut Tokens<'_>,
        first: Shared<Stmt>,
    ) -> Result<List<Shared<Stmt>>, ReadStop>
        requires { Nests self.now.depth (F.pre self.now.nested) (F.post self.now.nested) }
        ensures { Reads (with_first first (spec.reads_at self.now.depth spec.more_statements tokens.old)) result tokens.new }
    {
        let mut found = List::new(self.alloc);
        found.push(first)?;
        for _turn in 0..tokens.left() {
            if !begins_statement(tokens) {
                return Ok(found);
            }
            let next = self.shared_statement(tokens)?;
            found.push(next)?;
        }
        Ok(found)
    }

    /// One statement or more.
    pub fn read_statements(&self, tokens: &mut Tokens<'_>) -> Result<List<Shared<Stmt>>, ReadStop>
        requires { Nests self.now.depth (F.pre self.now.nested) (F.post self.now.nested) }
        ensures { Reads (spec.reads_at self.now.depth spec.statements tokens.old) result tokens.new }
    {
        let first = self.shared_statement(tokens)?;
        self.more_statements(tokens, first)
    }
}
