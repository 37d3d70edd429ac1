//! What a run keeps: variables, cursors, what handlers handle and operands, for each running subprogram, and the states of
//! packages.
//!
//! What is used above: the methods of `Levels`, `Stacks`, `Cursor` and `Packages`, and calls over them (`put_variable`, `fetch`,
//! `catcher` and their like), each by an equation over plain lists, most of it in the words by which `ebr_run` says what becomes
//! of a run's state. The rows of a query stay in the memory of its answer: a cursor holds them and a place, and what it fetches is
//! a `SharedRow`.
//!
//! That calls succeed with ample memory is tested alone, by programs that run (the cases).
#![tactic(auto)]

mod caught;
mod cursor;
mod levels;
mod memory;
mod package;
mod row;
mod rows;
mod shared_row;
mod stack;
mod stacks;
mod values;

pub use caught::catcher;
pub use cursor::{Cursor, Fetched};
pub use levels::Levels;
pub use memory::{cursor_attribute, fetch, is_open, put_cursor, put_fault, put_variable};
pub use package::{Made, PackageStatus, Packages};
pub use row::{affected_attribute, column, set_column};
pub use rows::first_fits;
pub use shared_row::SharedRow;
pub use stack::Stack;
pub use stacks::Stacks;
pub use values::{is_true, same_op, sqlcode, unfit, variable};
