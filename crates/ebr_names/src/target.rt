//! What a name means.

ghost use Rattle.std.specs.Prelude.{◌≡◌, ◌<◌, slice_get};
ghost use Rattle.ebr_base.specs.declared.numbers.TheConstants.{MAX_COUNT};
ghost use Rattle.ebr_base.specs.Keys.{table_named};
ghost use Rattle.ebr_ast.specs.Views.{IsInOrder};
ghost use Rattle.ebr_names.specs.Names.{target_at, unit_target, table_target, resolved};

use crate::lookup::{object_at, place, table};
use ebr_ast::{EditionView, Object, UnitTree};
use ebr_base::{Class, Name, Shared, TableId};
use ebr_shared_list::SharedList;

/// What a name in code or SQL stands for.
#[derive(Clone, Copy, Debug, PartialEq, Eq)]
pub enum Target {
    /// An editioning view, by its place among the visible objects, counted from 0.
    View(u32),
    Table(TableId),
    /// A procedure, function or package, by its place among the visible objects, counted from 0.
    Unit(u32),
}

/// What a name means: an object of class Unit that the edition sees, and else a table. It takes no memory.
///
/// Oracle Database Development Guide 19c, Name Resolution for Editioned and Noneditioned Objects; that objects go before
/// tables is own.
pub fn resolve(v: &EditionView, n: &Name) -> Option<Target>
    requires { IsInOrder v.now }
    ensures { result ≡ resolved v.now n.now }
{
    match place(&v.objects, Class::Unit, n) {
        Some(place) => unit_target(&v.objects, place),
        None => resolve_table(v, n),
    }
}

fn unit_target(objects: &SharedList<Shared<Object>>, place: usize) -> Option<Target>
    requires { place < MAX_COUNT }
    ensures { result ≡ unit_target place (slice_get objects.now place) }
{
    match object_at(objects, place) {
        Some(object) => Some(target_at(place as u32, &object.tree)),
        None => None,
    }
}

/// The target of an object at a place.
fn target_at(place: u32, tree: &UnitTree) -> Target
    ensures { result ≡ target_at place tree.now }
{
    match tree {
        UnitTree::View(_) => Target::View(place),
        _ => Target::Unit(place),
    }
}

fn resolve_table(v: &EditionView, n: &Name) -> Option<Target>
    ensures { result ≡ table_target (table_named n.now v.now.tables) }
{
    match table(v, n) {
        Some(def) => Some(Target::Table(def.id)),
        None => None,
    }
}
