//! Lines that are printed.

ghost use Rattle.std.specs.Prelude.{◌≡◌, ◌++◌, OnOk};
ghost use Rattle.ebr_calls.specs.Steps.{line_of, lines_of};

use ebr_base::{Bytes, NoMemory, Shared};

/// Prints a line.
pub fn print_line(out: &mut Bytes, text: &[u8]) -> Result<(), NoMemory>
    ensures { OnOk result (out.new ≡ out.old ++ line_of text.now) }
{
    out.extend(text)?;
    out.push(b'\n')?;
    Ok(())
}

/// Prints the lines from a place on.
pub fn print_lines(out: &mut Bytes, lines: &[Shared<Bytes>]) -> Result<(), NoMemory>
    ensures { OnOk result (out.new ≡ out.old ++ lines_of lines.now) }
{
    for line in lines {
        print_line(out, line.get().as_slice())?;
    }
    Ok(())
}
