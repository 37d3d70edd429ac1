//! Tests of `run` over a host in memory, byte for byte: sessions in threads.
//!
//! Orders of asks are kept by a gate, as rehearsals are by their order. Beside them stand words, sinks and disks that fail, sessions that
//! no gate holds, and that each of them has all its rows.
#![tactic(auto)]

#[cfg(test)]
mod disks;
#[cfg(test)]
mod orders;
#[cfg(test)]
mod rows;
#[cfg(test)]
mod sinks;
#[cfg(test)]
mod words;
