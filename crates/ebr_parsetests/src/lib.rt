//! What no script can show of expressions, and of the checks of statements and of units.
//!
//! Scripts with their replies stand in the files of `cases/`, which `tools/cases.py` runs over the program: how texts are read, what
//! expressions give, and what statements and units are refused for. Here are trees that no checked statement has, and the numbers of
//! the rules of units.
#![tactic(auto)]

#[cfg(test)]
mod checks;
#[cfg(test)]
mod evaluation;
#[cfg(test)]
mod sample_view;
#[cfg(test)]
mod units_checked;
