//! The pieces of a script, and the stored texts of objects.

ghost use Rattle.std.specs.Prelude.{◌≡◌, ◌<◌, ◌≤◌, ℕ, length, List as Sequence, Some, IfOk, IfSome, All, AllPairs};
ghost use Rattle.ebr_ast.specs.declared.definition.Definition.{Definition as Created};
ghost use Rattle.ebr_lexer.specs.Lexis as lexis;
ghost use Rattle.ebr_cut.specs.Reading.{cut};
ghost use Rattle.ebr_cut.specs.Scans.{IfTokens};
ghost use Rattle.ebr_cut.specs.Sections as sections;
ghost use Rattle.ebr_script.specs.declared.piece.Piece.{Piece as Found};
ghost use Rattle.ebr_script.specs.Pieces as spec;

use crate::piece::{Piece, PieceKind};
use crate::statement::{creation, statement};
use ebr_ast::{Definition, Statement};
use ebr_base::{Code, List, MAX_COUNT, NoMemory};
use ebr_cut::{Lead, Scanned, Span, cut, end_of, scan};
use std::alloc::Global;

/// The code of tokens that spell nothing, by what the piece begins with.
fn refusal(lead: Lead) -> Code
    ensures { result ≡ spec.refusal lead }
{
    match lead {
        Lead::Block => Code::Ora(6550),
        Lead::Call => Code::Ora(6550),
        Lead::Unit => Code::Ora(900),
        Lead::Other => Code::Ora(900),
    }
}

/// The tokens of a text, or its first fault.
fn scanned(alloc: Global, text: &[u8]) -> Result<Scanned, NoMemory>
    requires { length text.now < MAX_COUNT }
    ensures value { IfOk result (λ s. s ≡ spec.scanned_of text.now) }
    ensures within { IfOk result (IfTokens (All (lexis.LiesWithin text.now))) }
    ensures ordered { IfOk result (IfTokens (AllPairs lexis.Precedes)) }
{
    scan(alloc, text)
}

fn spelled_or(lead: Lead, found: Option<Statement>) -> PieceKind
    ensures { result ≡ spec.spelled_or lead found }
{
    match found {
        Some(tree) => PieceKind::Tree(tree),
        None => PieceKind::Refused(refusal(lead)),
    }
}

/// What a piece is that begins so, by what its text has.
fn kind_of_scan(alloc: Global, lead: Lead, scanned: &Scanned) -> Result<PieceKind, NoMemory>
    ensures { IfOk result (λ kind. kind ≡ spec.kind_of_scan lead scanned.now) }
{
    match scanned {
        Scanned::Fault(code) => Ok(PieceKind::Refused(*code)),
        Scanned::Tokens(tokens) => Ok(spelled_or(lead, statement(alloc, tokens.as_slice())?)),
    }
}

/// Where the last token of a text ends, counted from its beginning; 0 where it has none, or a fault.
fn end_in(scanned: &Scanned) -> u32
    ensures value { result ≡ spec.end_in scanned.now }
    ensures within { (text : Sequence ℕ) → IfTokens (All (lexis.LiesWithin text)) scanned.now → result ≤ length text }
{
    match scanned {
        Scanned::Fault(_) => 0,
        Scanned::Tokens(tokens) => end_of(tokens.as_slice()),
    }
}

/// The piece of a span.
#[tactic(auto, unfolding(crate::specs::Pieces::kind_of_text))]
fn piece(alloc: Global, script: &[u8], span: &Span) -> Result<Piece, NoMemory>
    requires within { sections.LiesWithin script.now span.now }
    requires small { length script.now < MAX_COUNT }
    ensures { IfOk result (λ p. p ≡ spec.piece_at script.now span.now) }
{
    let scanned = scanned(alloc, ebr_cut::text_of(script, span))?;
    let text_end = span.from + end_in(&scanned);
    let what = kind_of_scan(alloc, span.lead, &scanned)?;
    Ok(Piece {
        from: span.from,
        text_end,
        to: span.to,
        what,
    })
}

/// Where the pieces of a script stand.
fn spans(alloc: Global, script: &[u8]) -> Result<List<Span>, NoMemory>
    requires { length script.now < MAX_COUNT }
    ensures value { IfOk result (λ ss. ss ≡ cut script.now) }
    ensures within { IfOk result (All (sections.LiesWithin script.now)) }
{
    cut(alloc, script)
}

/// The pieces of a script, in order.
///
/// A piece is the statement that it spells, or is refused with the code of its first fault: a
/// lexical one (EBR-0020 to EBR-0024), EBR-0025 where it is nested too deep, and where it spells
/// nothing ORA-06550 if it begins with `BEGIN`, `DECLARE` or `CALL`, else ORA-00900.
///
/// Its work is linear in the script.
pub fn pieces(alloc: Global, script: &[u8]) -> Result<List<Piece>, NoMemory>
    requires { length script.now < MAX_COUNT }
    // The pieces are these, which compute.
    ensures value { IfOk result (λ ps. ps ≡ spec.pieces_of script.now) }
    // The script is cut so.
    ensures found { IfOk result (spec.Cut script.now) }
    // Whichever way it is cut, it is cut so.
    ensures only { (ps : Sequence Found) → spec.Cut script.now ps → IfOk result (λ r. r ≡ ps) }
    // Each piece stands within the script, and ends before the next begins.
    ensures within { IfOk result (All (spec.LiesWithin script.now)) }
    ensures ordered { IfOk result (AllPairs spec.Precedes) }
    // The stored text of a piece that creates an object is that of this object.
    ensures texts { IfOk result (All (spec.KeepsText script.now)) }
{
    read(alloc, script)
}

/// Reads the pieces, one after the other.
fn read(alloc: Global, script: &[u8]) -> Result<List<Piece>, NoMemory>
    requires { length script.now < MAX_COUNT }
    ensures { IfOk result (λ ps. ps ≡ spec.pieces_of script.now) }
{
    let spans = spans(alloc, script)?;
    let mut pieces = List::new(alloc);
    for span in spans.as_slice() {
        pieces.push(piece(alloc, script, span)?)?;
    }
    Ok(pieces)
}

/// The stored text of a piece that `pieces` gives: the bytes from its first token to its last; none
/// where it has a lexical fault or is nested too deep.
#[tactic(auto, unfolding(crate::specs::Pieces::text_of))]
pub fn text_of<'a>(script: &'a [u8], piece: &Piece) -> &'a [u8]
    requires { spec.LiesWithin script.now piece.now }
    ensures { result.now ≡ spec.text_of script.now piece.now }
{
    &script[piece.from as usize..piece.text_end as usize]
}

/// The definition that creates an object, by its stored text; None where the text is none of an object, or has a fault.
pub fn stored(alloc: Global, text: &[u8]) -> Result<Option<Definition>, NoMemory>
    requires { length text.now < MAX_COUNT }
    // The definition is this one, which computes.
    ensures value { IfOk result (λ r. r ≡ spec.stored_definition text.now) }
    // What is found is what the text stores.
    ensures found { IfOk result (λ r. IfSome r (spec.Stores text.now)) }
    // What the text stores is found.
    ensures only { (d : Created) → spec.Stores text.now d → IfOk result (λ r. r ≡ Some d) }
{
    read_stored(alloc, text)
}

fn read_stored(alloc: Global, text: &[u8]) -> Result<Option<Definition>, NoMemory>
    requires { length text.now < MAX_COUNT }
    ensures { IfOk result (λ r. r ≡ spec.stored_definition text.now) }
{
    match scanned(alloc, text)? {
        Scanned::Fault(_) => Ok(None),
        Scanned::Tokens(tokens) => creation(alloc, tokens.as_slice()),
    }
}

/// A script is cut into pieces, in one way.
pub fn one_cut()
    ensures some { spec.EachIsCut }
    ensures one { spec.OneCut }
{}

/// A text stores the definition of one object at most: the one that `stored` gives.
pub fn one_definition()
    ensures computed { spec.StoresComputed }
    ensures one { spec.OneDefinition }
{}

/// The stored text of each piece of a script goes from the first token of its bytes to the last, and
/// is empty where they have a fault.
pub fn texts_of_tokens()
    ensures { spec.TextsOfTokens }
{}
