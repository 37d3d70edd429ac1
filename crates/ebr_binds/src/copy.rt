//! Copies of what a statement has beside its expressions.

ghost use Rattle.std.specs.Prelude.{◌≡◌, IfOk};

use ebr_ast::Source;
use ebr_base::{CloneIn, List, NoMemory, both};
use std::alloc::Global;

fn source(alloc: Global, source: &Source) -> Result<Source, NoMemory>
    ensures { IfOk result (λ copy. copy ≡ source.now) }
{
    match source {
        Source::Dual => Ok(Source::Dual),
        Source::Named { name, alias } => {
            let (name, alias) = both(alloc, name, alias)?;
            Ok(Source::Named { name, alias })
        }
    }
}

/// The sources of a query.
pub fn sources(alloc: Global, list: &List<Source>) -> Result<List<Source>, NoMemory>
    ensures { IfOk result (λ copy. copy ≡ list.now) }
{
    let mut copy = List::new(alloc);
    for next in list.as_slice() {
        copy.push(source(alloc, next)?)?;
    }
    Ok(copy)
}
