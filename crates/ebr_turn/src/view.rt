//! What a chair knows. It stands in contracts alone: no value of these types is made, and none takes memory.
use std::collections::LinkedList;

/// Where a chair is between two calls, and within `enter`.
pub enum Stage<I> {
    /// It has no ticket.
    Idle,
    /// It has drawn this ticket, which hasn't been served.
    Waits(u64),
    /// It holds the turn, and met a value that stands for this list.
    Holds(LinkedList<(u32, I)>),
}

/// What a chair knows.
pub struct View<I> {
    /// The list of the value that was given to `new`.
    pub base: LinkedList<(u32, I)>,
    /// The chair's number. The first chair has none.
    pub number: Option<u32>,
    /// The items that the chair has left under its number, in order.
    pub mine: LinkedList<I>,
    /// The numbers and lists of the chairs that were joined into this one.
    pub kept: LinkedList<(u32, LinkedList<I>)>,
    /// How many of the turn's seats the chair has.
    pub share: u32,
    /// How many turns the chair may still take, so that no ticket wraps. One that was split off has begun with 2^31.
    pub left: u64,
    /// Whether chairs may be split off it: the first chair's, or that which took the first one in.
    pub gives: bool,
    /// The numbers that were given to chairs of the turn, where `gives`.
    pub given: LinkedList<u32>,
    /// Where the chair is.
    pub stage: Stage<I>,
}
