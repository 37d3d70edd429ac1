//! The units of triggers.

ghost use Rattle.std.specs.Prelude.{◌≡◌, Some, IfOk};
ghost use Rattle.ebr_validity.specs.Units as checks;
ghost use Rattle.ebr_run.specs.Units as run;
ghost use Rattle.ebr_code.specs.Units as spec;

use crate::held::without;
use crate::units::{block_unit, key_of};
use ebr_ast::Trigger;
use ebr_base::{Class, List, NoMemory, ObjectKey, Stop};
use ebr_check::row_columns;
use ebr_code::Unit;
use ebr_names::ViewColumn;
use ebr_places::Around;
use ebr_scope::Seen;
use std::alloc::Global;

/// The columns of what a trigger is on; none where there is no such table or view.
fn columns_or_none(
    alloc: Global,
    it: &Trigger,
    seen: &Seen<'_>,
) -> Result<List<ViewColumn>, NoMemory>
    ensures { IfOk result (λ found. found ≡ checks.columns_or_none (checks.row_columns seen.now.view it.now it.now.crossedition)) }
{
    match row_columns(alloc, it, seen) {
        Ok(found) => Ok(found),
        Err(Stop::Raised(_)) => Ok(List::new(alloc)),
        Err(Stop::NoMemory) => Err(NoMemory),
    }
}

/// The unit of a trigger over the columns of what it is on.
fn trigger_over<'a>(
    alloc: Global,
    it: &'a Trigger,
    key: ObjectKey,
    columns: &'a [ViewColumn],
    seen: &'a Seen<'a>,
) -> Result<Unit, NoMemory>
    ensures { IfOk result (λ unit. unit ≡ spec.of_one (spec.block_unit (record (run.outside seen.now.view (Some key)) { columns = columns.now }) it.now.body)) }
{
    let mut around = Around::outside(alloc, seen, Some(key));
    around.set_columns(columns);
    let unit = block_unit(alloc, &it.body, &mut around);
    without(around, unit)
}

/// The unit of a trigger.
pub fn trigger_unit(alloc: Global, it: &Trigger, seen: &Seen<'_>) -> Result<Unit, NoMemory>
    ensures { IfOk result (λ unit. unit ≡ spec.of_one (spec.block_unit (run.in_trigger seen.now.view it.now) it.now.body)) }
{
    let columns = columns_or_none(alloc, it, seen)?;
    let key = key_of(alloc, Class::Trigger, &it.name)?;
    trigger_over(alloc, it, key, columns.as_slice(), seen)
}
