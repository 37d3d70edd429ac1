//! What is done with an answer.

ghost use Rattle.std.specs.Prelude.{true};
ghost use Rattle.ebr_base.specs.Code.{code_text};
ghost use Rattle.ebr_calls.specs.Steps.{closing, ending};
ghost use Rattle.ebr_calls.specs.Courses.{finishing};
ghost use Rattle.ebr_session.specs.inside.Requests.{AsksBy, text_said};

use ebr_asks::Ask;
use ebr_ast::Block;
use ebr_base::{Code, Shared};
use ebr_machine::End;

/// The line of a request that is done.
#[derive(Clone, Copy)]
pub enum Said {
    Nothing,
    /// `OK`
    Fine,
    Code(Code),
}

/// What is done with the answer to an ask that no block makes.
#[derive(Drop)]
pub enum After {
    /// It is printed how the request ended.
    Print(Said),
    /// The same of SET EDITION, which ends the states of packages where it is done.
    SetEdition,
    /// The call of a block has begun.
    Begin(Shared<Block>),
    /// So many transactions of its own are closed, and then the call ends, which failed by this code.
    Close(u32, Code),
}

/// An ask, and what is done with its answer.
#[derive(Drop)]
pub struct Request {
    pub ask: Ask,
    pub after: After,
}

/// The end of a call.
pub fn end(failed: bool, said: Said) -> Request
    ensures { AsksBy result (ending failed (text_said said)) }
{
    Request {
        ask: Ask::EndCall { failed },
        after: After::Print(said),
    }
}

/// Closes so many transactions, and then ends a call that failed by this code.
pub fn close(levels: u32, code: Code) -> Request
    ensures { AsksBy result (closing levels (ending true (code_text code))) }
{
    if levels == 0 {
        return end(true, Said::Code(code));
    }
    Request {
        ask: Ask::PopAuto { failed: true },
        after: After::Close(levels - 1, code),
    }
}

/// Ends a call whose run has ended with so many transactions of its own open.
pub fn finish(how: End, levels: u32) -> Request
    ensures { AsksBy result (finishing how levels) }
{
    match how {
        End::Returned => end(false, Said::Fine),
        End::Raised(code) => close(levels, code),
    }
}
