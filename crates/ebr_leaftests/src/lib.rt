//! The tests of the crates at the bottom: what no clause says of them, and no script shows.
//!
//! They stand together above those crates, so that each of them is proved once.
#![tactic(auto)]

#[cfg(test)]
mod answers;
#[cfg(test)]
mod base;
#[cfg(test)]
mod command_line;
#[cfg(test)]
mod cut;
#[cfg(test)]
mod disks;
#[cfg(test)]
mod editions;
#[cfg(test)]
mod encoding;
#[cfg(test)]
mod files;
#[cfg(test)]
mod names;
#[cfg(test)]
mod outside;
#[cfg(test)]
mod records;
#[cfg(test)]
mod tables;
