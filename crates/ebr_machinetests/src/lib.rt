//! Tests of two calls that no script comes to: `make_all` of `ebr_units`, and `crossing` of `ebr_fire`.
//!
//! What they answer is proved; that they answer with ample memory is tested alone.
#![tactic(auto)]

#[cfg(test)]
mod definitions;
#[cfg(test)]
mod editions;
#[cfg(test)]
mod firing;
