//! The records of the journal, and what keeps them.
//!
//! A `Record` is what one commit or one definition leaves for ever. `specs/Payload.antt` spells it in bytes, and `length`
//! says how many. A keeper (`Keep`) takes records one after the other. Its contract says when each answer comes, what is
//! kept then, and what a stop at any moment of a call may leave, so that what stands above needs no disk to be spoken of.
//! `ListKeep` keeps records in memory.
//!
//! That `ListKeep` succeeds with ample memory is tested alone.
#![tactic(auto)]

mod keep;
mod laws;
mod lengths;
mod list;
mod record;

pub use keep::{JournalFault, Keep};
pub use laws::commits_are_as_long_as_counted;
pub use lengths::length;
pub use list::ListKeep;
pub use record::{DroppedClass, Record};
