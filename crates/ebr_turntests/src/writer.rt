//! A writer.
ghost use Rattle.std.specs.Prelude.{◌≡◌};

use crate::book::Book;
use ebr_turn::Chair;

/// A chair with its number, and how many items it is to write.
pub struct Writer {
    /// Its chair.
    pub chair: Chair<Book>,
    /// The chair's number.
    pub number: u32,
    /// How many items it is to write.
    pub count: u32,
}

impl Writer {
    /// The chair of a writer that has written.
    pub fn into_chair(self) -> Chair<Book>
        ensures { result ≡ self.chair }
    {
        let Writer {
            chair,
            number: _,
            count: _,
        } = self;
        chair
    }
}
