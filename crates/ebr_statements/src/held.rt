//! Values that are held while something is made.

ghost use Rattle.std.specs.Prelude.{◌≡◌};

/// What was made, when a value that it was made with is no longer wanted. It is generic, so that this is dropped by one call.
pub fn without<T: Drop, R>(_held: T, made: R) -> R
    ensures { result ≡ made }
{
    made
}
