//! The compiled units of editions.
//!
//! The crates above use the contract of `Book::new`: the book has the code of what the edition sees (`HasCodeOf` of
//! `ebr_laws`), so that a run of its code does what the units' trees do. `Units` keeps the books of the living editions: after
//! each definition `after_ddl` drops those of editions that may see something else now, and `book` and `book_of` answer the book
//! of all that an edition sees.
//!
//! That calls succeed with ample memory is tested alone (the cases; of `make_all` `ebr_machinetests`).
#![tactic(auto)]

mod book;
mod units;

pub use book::Book;
pub use units::Units;
