//! The slot code of a unit.

ghost use Rattle.std.specs.Prelude.{◌≡◌, [], None, IfOk};
ghost use Rattle.ebr_code.specs.Units as spec;

use crate::packages::{body_unit, package_unit};
use crate::triggers::trigger_unit;
use crate::units::{plain_block, subprogram_unit};
use ebr_ast::UnitTree;
use ebr_base::{List, NoMemory};
use ebr_code::Unit;
use ebr_scope::Seen;
use std::alloc::Global;

/// The unit of an editioning view, which has no code.
fn view_unit(alloc: Global) -> Unit
    ensures { result ≡ record { subprograms = []; initial = None } }
{
    Unit {
        subprograms: List::new(alloc),
        initial: None,
    }
}

/// The slot code of a unit over what an edition sees.
pub fn unit(alloc: Global, it: &UnitTree, seen: &Seen<'_>) -> Result<Unit, NoMemory>
    ensures { IfOk result (λ unit. unit ≡ spec.unit_code seen.now.view it.now) }
{
    match it {
        UnitTree::Subprogram(it) => subprogram_unit(alloc, it.get(), seen),
        UnitTree::Package(name, items) => package_unit(alloc, name, items.get().as_slice(), seen),
        UnitTree::PackageBody(it) => body_unit(alloc, it.get(), seen),
        UnitTree::Trigger(it) => trigger_unit(alloc, it.get(), seen),
        UnitTree::View(_) => Ok(view_unit(alloc)),
        UnitTree::Block(it) => plain_block(alloc, it.get(), seen),
    }
}
