//! The pieces of a script.

ghost use Rattle.std.specs.Prelude.{◌≡◌, ◌≤◌, ◌<◌, ◌+◌, ◌++◌, length, slice_range, List as Sequence, IfOk, IfSome, OnOk, All, AllPairs};
ghost use Rattle.ebr_cut.specs.declared.span.Span.{Span};
ghost use Rattle.ebr_cut.specs.Sections.{Cut, LiesWithin, Precedes};
ghost use Rattle.ebr_cut.specs.Scans.{BeginsInFront};
ghost use Rattle.ebr_cut.specs.Reading.{cut, span_there};

use crate::blank::blank_lengths;
use crate::front::front;
use crate::span::{Front, Span};
use ebr_base::{List, MAX_COUNT, NoMemory, rest_from};
use std::alloc::Global;

/// The pieces of a script, in order.
///
/// White bytes, comments and lines that hold `/` alone are skipped before a piece. A piece that
/// begins with `BEGIN` or `DECLARE`, or with `CREATE` of a procedure, function, package or trigger,
/// ends before the next line that holds `/` alone; any other one before the first `;` outside
/// strings and comments. Where there is none, it ends with the script.
///
/// Its work is linear in the script. It takes memory for the list, and four bytes for each byte of
/// the script while it works.
pub fn cut(alloc: Global, script: &[u8]) -> Result<List<Span>, NoMemory>
    requires { length script.now < MAX_COUNT }
    // The script is cut so.
    ensures found { IfOk result (Cut script.now) }
    // Whichever way it is cut, it is cut so.
    ensures only { (spans : Sequence Span) → Cut script.now spans → IfOk result (λ r. r ≡ spans) }
    // Each piece stands within the script, and ends before the next begins.
    ensures within { IfOk result (All (LiesWithin script.now)) }
    ensures ordered { IfOk result (AllPairs Precedes) }
    // A piece that has tokens begins with the first of them.
    ensures begins { IfOk result (All (BeginsInFront script.now)) }
{
    read(alloc, script)
}

/// Reads from left to right.
fn read(alloc: Global, script: &[u8]) -> Result<List<Span>, NoMemory>
    requires { length script.now < MAX_COUNT }
    ensures { IfOk result (λ spans. spans ≡ cut script.now) }
{
    let lengths = blank_lengths(alloc, script)?;
    let mut spans = List::new(alloc);
    let mut place = 0;
    let mut fresh = true;
    for _ in 0..script.len() {
        let rest = rest_from(script, place);
        if rest.is_empty() {
            return Ok(spans);
        }
        let next = front(fresh, rest, lengths.as_slice());
        add_span(&mut spans, next, place)?;
        place += next.length;
        fresh = next.fresh;
    }
    Ok(spans)
}

/// Adds the piece that begins at a place, if one does.
fn add_span(spans: &mut List<Span>, front: Front, at: usize) -> Result<(), NoMemory>
    requires piece { IfSome front.piece (λ p. p.1 ≤ front.length) }
    requires small { at + front.length < MAX_COUNT }
    ensures { OnOk result (spans.new ≡ spans.old ++ span_there at front.piece) }
{
    match front.piece {
        Some((lead, length)) => spans.push(Span {
            from: at as u32,
            to: (at + length) as u32,
            lead,
        }),
        None => Ok(()),
    }
}

/// The bytes of a piece.
pub fn text_of<'a>(script: &'a [u8], span: &Span) -> &'a [u8]
    requires { LiesWithin script.now span.now }
    ensures { result.now ≡ slice_range script.now span.now.from span.now.to }
{
    &script[span.from as usize..span.to as usize]
}
