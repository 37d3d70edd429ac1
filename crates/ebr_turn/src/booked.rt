//! What a turn holds.
ghost use Rattle.std.specs.Prelude.{ℕ, List};

/// A value that stands for a list of numbers and items, as a history does for the sessions' numbers and their exchanges.
pub trait Booked {
    /// What an entry of the list has beside its number.
    type Item;

    /// The list that a value stands for.
    ghost booked: { Self → List (ℕ × Self.Item) };
}
