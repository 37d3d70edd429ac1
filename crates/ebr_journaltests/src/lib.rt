//! The tests of the journal: what no clause says of it. Which calls it makes of its disk, that a call succeeds where memory is
//! ample, files made by hand, and that what a stop leaves opens again.
#![tactic(auto)]

#[cfg(test)]
mod files;
#[cfg(test)]
mod records;
#[cfg(test)]
mod stops;
