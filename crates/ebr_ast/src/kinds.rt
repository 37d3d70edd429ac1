//! The kinds of triggers' timing, and of the statements that fire them.

/// When a row trigger's body runs.
#[derive(Clone, Copy, Debug)]
pub enum Timing {
    Before,
    After,
}

/// Where a statement comes from: a session or an ordinary trigger, or the body of a crossedition
/// trigger of that direction.
#[derive(Clone, Copy)]
pub enum Origin {
    Plain,
    Forward,
    Reverse,
}
