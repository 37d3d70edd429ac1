//! Limits of a session at work.

/// A session makes at most so many asks, of which the last one is Leave (own). A chair of a turn may be taken as often.
pub const MAX_ASKS: usize = 2_147_483_648;
