//! What the bodies of a statement have done.

ghost use Rattle.std.specs.Prelude.{◌≡◌, ◌+◌, [], ◌++◌, IfOk, OnOk};

use ebr_base::{Bytes, CloneIn, List, NoMemory, Shared};
use ebr_machine::Machine;
use std::alloc::Global;

/// The steps that the bodies of a statement have made, the bytes of lines for which there is room, and the lines that they have printed.
#[derive(Drop)]
pub struct Tally {
    pub steps: u32,
    pub room: u32,
    pub lines: List<Shared<Bytes>>,
}

impl Tally {
    /// No body has run.
    pub fn new(alloc: Global, room: u32) -> Tally
        ensures { result ≡ record { steps = 0; room = room; lines = [] } }
    {
        Tally {
            steps: 0,
            room,
            lines: List::new(alloc),
        }
    }

    /// Counts what a run has done. That there are 4,294,967,296 steps is want of memory.
    pub fn count(&mut self, alloc: Global, run: &Machine) -> Result<(), NoMemory>
        ensures steps { OnOk result (self.new.steps ≡ self.old.steps + run.now.inner.steps) }
        ensures room { OnOk result (self.new.room ≡ run.now.inner.room) }
        ensures lines { OnOk result (self.new.lines ≡ self.old.lines ++ run.now.inner.lines) }
    {
        let steps = sum(self.steps, run.steps())?;
        let room = small(run.room())?;
        add_lines(alloc, &mut self.lines, run.lines().as_slice())?;
        self.steps = steps;
        self.room = room;
        Ok(())
    }
}

fn sum(a: u32, b: u32) -> Result<u32, NoMemory>
    ensures { IfOk result (λ sum. sum ≡ a + b) }
{
    match a.checked_add(b) {
        Some(sum) => Ok(sum),
        None => Err(NoMemory),
    }
}

/// A number of bytes. That it is 4,294,967,296 or more is want of memory.
pub fn small(n: usize) -> Result<u32, NoMemory>
    ensures { IfOk result (λ small. small ≡ n) }
{
    match u32::try_from(n) {
        Ok(small) => Ok(small),
        Err(_) => Err(NoMemory),
    }
}

/// Adds lines, each another holder of the one that was printed.
fn add_lines(
    alloc: Global,
    lines: &mut List<Shared<Bytes>>,
    more: &[Shared<Bytes>],
) -> Result<(), NoMemory>
    ensures { OnOk result (lines.new ≡ lines.old ++ more.now) }
{
    for line in more {
        lines.push(line.clone_in(alloc)?)?;
    }
    Ok(())
}
