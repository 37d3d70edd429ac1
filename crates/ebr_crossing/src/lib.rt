//! Which values may cross threads.
#![tactic(auto)]
