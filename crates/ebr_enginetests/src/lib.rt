//! Tests of the engine alone, the asks of several sessions over a keeper in memory, line by line; of what is recovered of the
//! records that it kept; and of the pieces of scripts.
#![tactic(auto)]

#[cfg(test)]
mod asking;
#[cfg(test)]
mod calls;
#[cfg(test)]
mod conflicts;
#[cfg(test)]
mod definitions;
#[cfg(test)]
mod ends;
#[cfg(test)]
mod pieces;
#[cfg(test)]
mod printing;
#[cfg(test)]
mod recovered;
#[cfg(test)]
mod script;
#[cfg(test)]
mod triggers;
