//! Tests of `serve` over a host in memory, byte for byte.
//!
//! Scripts with their replies stand in the files of `cases/`, which `tools/cases.py` runs over the program. Here is what they can't show:
//! faults, histories, words, texts of many bytes, and bytes that a text file hides.
#![tactic(auto)]

#[cfg(test)]
mod faults;
#[cfg(test)]
mod history;
#[cfg(test)]
mod journals;
#[cfg(test)]
mod large;
#[cfg(test)]
mod limits;
#[cfg(test)]
mod pieces;
#[cfg(test)]
mod records;
#[cfg(test)]
mod rehearsals;
#[cfg(test)]
mod scripts;
#[cfg(test)]
mod worked;
