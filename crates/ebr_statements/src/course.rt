//! The run of a trigger's body: how it begins, and what is left when it has ended.

ghost use Rattle.std.specs.Prelude.{◌≡◌, Some, IfOk};
ghost use Rattle.ebr_dml.specs.Rows.{values_at};
ghost use Rattle.ebr_machine.specs.Has.{new_row_of};
ghost use Rattle.ebr_units.specs.Served.{served};
ghost use Rattle.ebr_bodies.specs.Bodies as spec;
ghost use Rattle.ebr_statements.specs.inside.Held.{IsServed, ready_of};
ghost use Rattle.ebr_statements.specs.inside.Sites.{IsBegun};

use crate::ready::Ready;
use crate::row::{picked, row_left};
use crate::tally::Tally;
use ebr_ast::Op;
use ebr_base::{CloneIn, List, NoMemory, Value};
use ebr_laws::one_meaning;
use ebr_machine::{BodyFrame, Frame, Machine, Packages};
use std::alloc::Global;

/// A run of a trigger's body.
#[derive(Drop)]
pub struct Course {
    pub machine: Machine,
    pub packages: Packages,
    /// The steps that it may make.
    pub left: u32,
}

/// The frame of a body: the row as it has it, and the room for its lines.
fn frame(
    alloc: Global,
    r: &Ready,
    op: Op,
    old: &[Value],
    new: &[Value],
    room: u32,
) -> Result<Frame, NoMemory>
    ensures { IfOk result (λ it. it ≡ record {
      edition = r.now.edition;
      body = Some (record { origin = r.now.origin; op = op; old = values_at r.now.places old.now; new = values_at r.now.places new.now });
      room = room;
    }) }
{
    let places = r.places.as_slice();
    let old = picked(alloc, places, old)?;
    let new = picked(alloc, places, new)?;
    Ok(Frame {
        edition: r.edition,
        body: Some(BodyFrame {
            origin: r.origin,
            op,
            old,
            new,
        }),
        room,
    })
}

/// Begins a body for a row, with what the bodies before it have left.
pub fn begun(
    alloc: Global,
    left: u32,
    tally: &Tally,
    r: &Ready,
    op: Op,
    old: &[Value],
    new: &[Value],
) -> Result<Course, NoMemory>
    ensures { IfOk result (λ it. (w : spec.Site) (σ : spec.Doing) → IsServed w.view r.now → w.left ≡ left → σ.steps ≡ tally.now.steps → σ.room ≡ tally.now.room
        → IsBegun (served (w.view r.now.edition)) (spec.run_of w op (ready_of r.now) old.now new.now σ) it) }
{
    one_meaning();
    let frame = frame(alloc, r, op, old, new, tally.room)?;
    let machine = Machine::new(alloc, r.unit.clone_in(alloc)?, List::new(alloc), frame)?;
    Ok(Course {
        machine,
        packages: Packages::new(alloc),
        left: left.saturating_sub(tally.steps),
    })
}

/// What a body leaves that has returned: the new row.
pub fn new_row(
    alloc: Global,
    course: &Course,
    op: Op,
    r: &Ready,
    new: List<Value>,
) -> Result<List<Value>, NoMemory>
    ensures { IfOk result (λ row. row ≡ spec.row_left op (ready_of r.now) new (new_row_of course.now.machine)) }
{
    row_left(
        alloc,
        op,
        r.places.as_slice(),
        new,
        course.machine.new_row(),
    )
}
