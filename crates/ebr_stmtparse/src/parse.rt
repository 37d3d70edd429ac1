//! Blocks at a cursor, for the readers of what holds blocks.

ghost use Rattle.ebr_grammar.specs.Outcome.{Reads};
ghost use Rattle.ebr_stmtparse.specs.Statements as spec;
ghost use Rattle.ebr_stmtparse.specs.inside.Nests as inside;

use crate::grammar::{Grammar, Initial};
use ebr_ast::{Block, Stmt};
use ebr_base::{List, Shared};
use ebr_grammar::{ReadStop, Tokens};
use std::alloc::Global;

/// The reading of statements, nested at most this deep.
fn nested(
    alloc: Global,
    tokens: &mut Tokens<'_>,
    depth: usize,
) -> Result<List<Shared<Stmt>>, ReadStop>
    ensures { Reads (inside.read_within depth tokens.old) result tokens.new }
{
    if depth == 0 {
        return Err(ReadStop::NoTree);
    }
    let grammar = Grammar {
        alloc,
        depth: depth - 1,
        nested,
    };
    grammar.read_statements(tokens)
}

/// Reads a body: declarations, and then what a block has from BEGIN on.
///
/// Oracle Database PL/SQL Language Reference 19c, Block: `{declaration} BEGIN statements
/// [EXCEPTION handlers] END [n] ;`. The name after END is not compared (own).
#[tactic(auto, unfolding(crate::specs::Statements::body_reader))]
pub fn read_body(alloc: Global, tokens: &mut Tokens<'_>) -> Result<Block, ReadStop>
    ensures { Reads (spec.body_reader tokens.old) result tokens.new }
{
    let depth = tokens.left();
    let grammar = Grammar {
        alloc,
        depth,
        nested,
    };
    grammar.read_body(tokens)
}

/// Reads a block: its declarations behind DECLARE, where that stands, and then as `read_body`.
#[tactic(auto, unfolding(crate::specs::Statements::block_reader))]
pub fn read_block(alloc: Global, tokens: &mut Tokens<'_>) -> Result<Block, ReadStop>
    ensures { Reads (spec.block_reader tokens.old) result tokens.new }
{
    let depth = tokens.left();
    let grammar = Grammar {
        alloc,
        depth,
        nested,
    };
    grammar.read_block(tokens)
}

/// Reads statements with the handlers of their exceptions, from BEGIN on.
#[tactic(auto, unfolding(crate::specs::Statements::initial_reader))]
pub fn read_initial(alloc: Global, tokens: &mut Tokens<'_>) -> Result<Initial, ReadStop>
    ensures { Reads (spec.initial_reader tokens.old) result tokens.new }
{
    let depth = tokens.left();
    let grammar = Grammar {
        alloc,
        depth,
        nested,
    };
    grammar.read_initial(tokens)
}
