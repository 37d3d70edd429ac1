//! Whether a block is valid.

ghost use Rattle.std.specs.Prelude.{◌≡◌, IfOk};
ghost use Rattle.ebr_ast.specs.declared.unit.UnitTree.TheVariants.{Block as block_tree};
ghost use Rattle.ebr_ast.specs.Views.{IsInOrder};
ghost use Rattle.ebr_validity.specs.Verdict.{is_valid};

use ebr_ast::{Block, EditionView, UnitTree};
use ebr_base::{NoMemory, Shared};
use ebr_check::check;
use std::alloc::Global;

/// Whether a unit is valid against what an edition sees.
fn passes(alloc: Global, view: &EditionView, unit: &UnitTree) -> Result<bool, NoMemory>
    requires { IsInOrder view.now }
    ensures { IfOk result (λ valid. valid ≡ is_valid view.now unit.now) }
{
    let fault = check(alloc, view, unit)?;
    Ok(fault.is_none())
}

/// Whether a block is valid against what an edition sees.
pub fn block_passes(
    alloc: Global,
    view: &EditionView,
    block: Shared<Block>,
) -> Result<bool, NoMemory>
    requires { IsInOrder view.now }
    ensures { IfOk result (λ valid. valid ≡ is_valid view.now (block_tree block)) }
{
    passes(alloc, view, &UnitTree::Block(block))
}
