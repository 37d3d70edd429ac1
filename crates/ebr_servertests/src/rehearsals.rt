//! What stops a rehearsal, and what text files of cases can't show.

mod faults;
mod orders;
mod turns;
mod words;
