//! Why no record was read.

ghost use Rattle.std.specs.Prelude.{◌≡◌};
ghost use Rattle.ebr_encoding.specs.declared.fault.DecodeErr.TheVariants.{NoMemory as WantOfMemory};

use ebr_base::NoMemory;

/// Why no record was read.
#[derive(Clone, Copy, Debug, PartialEq, Eq)]
pub enum DecodeErr {
    /// The bytes spell no record of the form.
    Bad,
    /// There was no memory.
    NoMemory,
}

impl From<NoMemory> for DecodeErr {
    ghost from_gives = { λ _ e. e ≡ WantOfMemory };

    fn from(_: NoMemory) -> DecodeErr {
        DecodeErr::NoMemory
    }
}
