//! Slot code: what a machine runs, the compiled units that hold it, and the trait of the books that hold these.
//!
//! What is used above: `RunCode` of `specs/Runs.antt`, which says what code does in the words in which `ebr_run` says what trees
//! do, `Codes` of `specs/Units.antt`, which says what code a tree has, and the contract of `CodeBook`, the trait of books. Code
//! is structured: the branches of IF, the bodies of loops, guarded statements and right operands are lists of instructions inside
//! an instruction, so that no instruction jumps.
//!
//! These are types and definitions; there is no code here to be tested.
#![tactic(auto)]

mod book;
mod instruction;

pub use book::{CodeBook, Initial, Parameter, Subprogram, Unit};
pub use ebr_asks::{Answer, Ask, Entry, Exchange};
pub use ebr_run::{Bind, Callee, Exception, Fault, Location, Reference, VariableType};
pub use instruction::{Caught, Code, Handler, Instruction, Lookup, Operation};
