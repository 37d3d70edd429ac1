//! What the words of a command line ask for.
//!
//! What is used above: `command_of`, which tells the command, exactly as `command_of` of `specs/Words.antt` has it. It takes no
//! memory, and nothing of it is only tested.
#![tactic(auto)]

mod apart;
mod words;

pub use words::{Command, command_of};
