//! Blocks and their handlers.

ghost use Rattle.std.specs.Prelude.{◌≡◌};
ghost use Rattle.ebr_grammar.specs.Outcome.{Reads};
ghost use Rattle.ebr_grammar.specs.Reading.{with_first};
ghost use Rattle.ebr_stmtparse.specs.Statements as spec;
ghost use Rattle.ebr_stmtparse.specs.inside.Nests.{Nests};

use crate::grammar::{Grammar, Initial, begins_declaration};
use ebr_ast::{Block, Decl, Handler, Stmt};
use ebr_base::{List, Shared};
use ebr_grammar::{Kind, ReadStop, Tokens};
use ebr_simpleparse::{read_caught, read_declaration};
use std::alloc::Global;

fn block_of(declarations: List<Decl>, initial: Initial) -> Block
    ensures { result ≡ spec.block_of declarations initial }
{
    Block {
        declarations,
        statements: initial.statements,
        handlers: initial.handlers,
    }
}

impl<F: Fn(Global, &mut Tokens<'_>, usize) -> Result<List<Shared<Stmt>>, ReadStop>> Grammar<F> {
    /// `{declaration}`.
    fn declarations(&self, tokens: &mut Tokens<'_>) -> Result<List<Decl>, ReadStop>
        ensures { Reads (spec.reads_at self.now.depth spec.declarations tokens.old) result tokens.new }
    {
        let mut found = List::new(self.alloc);
        for _turn in 0..tokens.left() {
            if !begins_declaration(tokens) {
                return Ok(found);
            }
            let next = read_declaration(self.alloc, tokens)?;
            found.push(next)?;
        }
        Ok(found)
    }

    /// What stands behind WHEN.
    fn handler(&self, tokens: &mut Tokens<'_>) -> Result<Handler, ReadStop>
        requires { Nests self.now.depth (F.pre self.now.nested) (F.post self.now.nested) }
        ensures { Reads (spec.reads_at self.now.depth spec.handler tokens.old) result tokens.new }
    {
        let caught = read_caught(self.alloc, tokens)?;
        tokens.expect(Kind::Then)?;
        let statements = self.read_body_statements(tokens)?;
        Ok(Handler { caught, statements })
    }

    /// The handlers behind the first, and with it.
    fn more_handlers(
        &self,
        tokens: &mut Tokens<'_>,
        first: Handler,
    ) -> Result<List<Handler>, ReadStop>
        requires { Nests self.now.depth (F.pre self.now.nested) (F.post self.now.nested) }
        ensures { Reads (with_first first (spec.reads_at self.now.depth spec.more_handlers tokens.old)) result tokens.new }
    {
        let mut found = List::new(self.alloc);
        found.push(first)?;
        for _turn in 0..tokens.left() {
            if !tokens.eat(Kind::When) {
                return Ok(found);
            }
            let next = self.handler(tokens)?;
            found.push(next)?;
        }
        Ok(found)
    }

    /// What stands behind EXCEPTION.
    fn some_handlers(&self, tokens: &mut Tokens<'_>) -> Result<List<Handler>, ReadStop>
        requires { Nests self.now.depth (F.pre self.now.nested) (F.post self.now.nested) }
        ensures { Reads (spec.reads_at self.now.depth spec.some_handlers tokens.old) result tokens.new }
    {
        tokens.expect(Kind::When)?;
        let first = self.handler(tokens)?;
        self.more_handlers(tokens, first)
    }

    /// `[EXCEPTION handler {handler}]`.
    fn handlers(&self, tokens: &mut Tokens<'_>) -> Result<List<Handler>, ReadStop>
        requires { Nests self.now.depth (F.pre self.now.nested) (F.post self.now.nested) }
        ensures { Reads (spec.reads_at self.now.depth spec.handlers tokens.old) result tokens.new }
    {
        if tokens.eat(Kind::Exception) {
            self.some_handlers(tokens)
        } else {
            Ok(List::new(self.alloc))
        }
    }

    /// Statements with their handlers, from BEGIN on.
    pub fn read_initial(&self, tokens: &mut Tokens<'_>) -> Result<Initial, ReadStop>
        requires { Nests self.now.depth (F.pre self.now.nested) (F.post self.now.nested) }
        ensures { Reads (spec.reads_at self.now.depth spec.initial tokens.old) result tokens.new }
    {
        tokens.expect(Kind::Begin)?;
        let statements = self.read_body_statements(tokens)?;
        let handlers = self.handlers(tokens)?;
        Ok(Initial {
            statements,
            handlers,
        })
    }

    /// `END [n] ;`.
    fn block_end(&self, tokens: &mut Tokens<'_>) -> Result<(), ReadStop>
        ensures { Reads (spec.reads_at self.now.depth spec.block_end tokens.old) result tokens.new }
    {
        tokens.expect(Kind::End)?;
        let _name = tokens.maybe_name(self.alloc)?;
        tokens.expect(Kind::Semicolon)
    }

    /// A block of these declarations, from BEGIN on.
    fn block_rest(
        &self,
        tokens: &mut Tokens<'_>,
        declarations: List<Decl>,
    ) -> Result<Block, ReadStop>
        requires { Nests self.now.depth (F.pre self.now.nested) (F.post self.now.nested) }
        ensures { Reads (with_first declarations (spec.reads_at self.now.depth spec.block_rest tokens.old)) result tokens.new }
    {
        let initial = self.read_initial(tokens)?;
        self.block_end(tokens)?;
        Ok(block_of(declarations, initial))
    }

    /// Declarations and the block of them.
    pub fn read_body(&self, tokens: &mut Tokens<'_>) -> Result<Block, ReadStop>
        requires { Nests self.now.depth (F.pre self.now.nested) (F.post self.now.nested) }
        ensures { Reads (spec.reads_at self.now.depth spec.body tokens.old) result tokens.new }
    {
        let declarations = self.declarations(tokens)?;
        self.block_rest(tokens, declarations)
    }

    /// A block.
    pub fn read_block(&self, tokens: &mut Tokens<'_>) -> Result<Block, ReadStop>
        requires { Nests self.now.depth (F.pre self.now.nested) (F.post self.now.nested) }
        ensures { Reads (spec.reads_at self.now.depth spec.block tokens.old) result tokens.new }
    {
        if tokens.eat(Kind::Declare) {
            self.read_body(tokens)
        } else {
            self.block_rest(tokens, List::new(self.alloc))
        }
    }
}
