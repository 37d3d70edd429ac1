//! How a request ended.

ghost use Rattle.std.specs.Prelude.{◌≡◌, ◌++◌, codes, OnOk};
ghost use Rattle.ebr_base.specs.Code.{code_text};
ghost use Rattle.ebr_calls.specs.Steps.{result_lines};
ghost use Rattle.ebr_session.specs.inside.Requests.{packages_behind, text_said};

use crate::after::Said;
use ebr_asks::Answer;
use ebr_base::{Bytes, Code, NoMemory};
use ebr_calls::print_result;
use ebr_machine::Packages;
use std::alloc::Global;

/// Prints how a request ended.
pub fn print_said(
    alloc: Global,
    out: &mut Bytes,
    answer: &Answer,
    said: Said,
) -> Result<(), NoMemory>
    ensures { OnOk result (out.new ≡ out.old ++ result_lines (text_said said) answer.now) }
{
    match said {
        Said::Nothing => print_result(alloc, out, answer, b""),
        Said::Fine => print_result(alloc, out, answer, b"OK"),
        Said::Code(code) => print_code_said(alloc, out, answer, code),
    }
}

fn print_code_said(
    alloc: Global,
    out: &mut Bytes,
    answer: &Answer,
    code: Code,
) -> Result<(), NoMemory>
    ensures { OnOk result (out.new ≡ out.old ++ result_lines (code_text code) answer.now) }
{
    let mut text = Bytes::new(alloc);
    code.append_to(&mut text)?;
    print_result(alloc, out, answer, text.as_slice())
}

/// Prints how SET EDITION ended. In another edition there are no states of packages yet.
pub fn print_edition(
    alloc: Global,
    packages: &mut Packages,
    out: &mut Bytes,
    answer: &Answer,
) -> Result<(), NoMemory>
    ensures printed { OnOk result (out.new ≡ out.old ++ result_lines (codes "OK") answer.now) }
    ensures packages { packages.new ≡ packages_behind answer.now packages.old }
{
    leave(packages, answer);
    print_result(alloc, out, answer, b"OK")
}

/// Ends the states of packages, where the answer to SET EDITION is that it was done.
fn leave(packages: &mut Packages, answer: &Answer)
    ensures { packages.new ≡ packages_behind answer.now packages.old }
{
    match answer {
        Answer::Done => packages.clear(),
        _ => {}
    }
}
