//! What is let go. What it holds is dropped here, so that no crate above has to.

ghost use Rattle.std.specs.Prelude.{◌≡◌};

use ebr_base::List;
use ebr_core::Engine;
use ebr_record::{Keep, Record};

/// Drops records.
pub fn release_records(_records: List<Record>) {}

/// The keeper of an engine that nobody asks again.
pub fn keeper_of<K: Keep>(engine: Engine<K>) -> K
    ensures { result ≡ engine.keeper }
{
    let (_, _, keeper) = engine.into_parts();
    keeper
}
