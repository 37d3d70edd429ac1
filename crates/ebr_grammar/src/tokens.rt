//! A cursor over tokens.

ghost use Rattle.std.specs.Prelude.{◌≡◌, [], ◌∷◌, length, drop, IfOk, if◌then◌else◌};
ghost use Rattle.ebr_grammar.specs.Kinds.{member, name_kinds, names_but};
ghost use Rattle.ebr_grammar.specs.Forms as spec;
ghost use Rattle.ebr_grammar.specs.Reading as reading;
ghost use Rattle.ebr_grammar.specs.Outcome as outcome;
ghost use Rattle.ebr_grammar.specs.Outcome.{Reads};
ghost use Rattle.ebr_grammar.specs.declared.kind.Kind.TheVariants as kinds;

use crate::kind::{Kind, NAME_KINDS, is_same, kind_of};
use ebr_base::{Bytes, Name, NoMemory};
use ebr_lexer::{Token, TokenKind};
use std::alloc::Global;
use std::marker::Model;

/// Why nothing was read.
#[derive(Clone, Copy, Debug, PartialEq, Eq)]
pub enum ReadStop {
    /// There was no memory.
    NoMemory,
    /// The tokens spell no such tree.
    NoTree,
}

impl From<NoMemory> for ReadStop {
    ghost use Rattle.ebr_grammar.specs.declared.tokens.ReadStop.TheVariants.{NoMemory};

    ghost from_gives = { λ _ e. e ≡ NoMemory };

    fn from(_: NoMemory) -> ReadStop {
        ReadStop::NoMemory
    }
}

/// The tokens that are not read yet, which contracts see as their list.
#[derive(Drop)]
pub struct Tokens<'a> {
    rest: &'a [Token],
    /// The kind of the first of them.
    kind: Option<Kind>,
}

impl<'a> Model for Tokens<'a> {
    ghost use Rattle.std.specs.Prelude.{◌≡◌, List};
    ghost use Rattle.ebr_lexer.specs.declared.token.Token.{Token};
    ghost use Rattle.ebr_grammar.specs.Forms.{ahead};

    ghost Value = { List Token };

    ghost view = { λ t. t.rest.now };

    ghost invariant = { λ t. t.kind ≡ ahead t.rest.now };
}

impl<'a> Tokens<'a> {
    /// A cursor before the first of the tokens.
    pub fn new(rest: &'a [Token]) -> Tokens<'a>
        ensures { result ≡ rest.now }
    {
        Tokens {
            rest,
            kind: ahead(rest),
        }
    }

    /// How many tokens are not read yet.
    pub fn left(&self) -> usize
        ensures { result ≡ length self.now }
    {
        self.rest.len()
    }

    /// Whether the next token is of the kind.
    #[tactic(auto, unfolding(crate::specs::Forms::sees))]
    pub fn sees(&self, kind: Kind) -> bool
        ensures { result ≡ spec.sees (kind ∷ []) self.now }
    {
        match self.kind {
            Some(next) => is_same(next, kind),
            None => false,
        }
    }

    /// Whether the next token is of one of the kinds.
    #[tactic(auto, unfolding(crate::specs::Forms::sees))]
    pub fn sees_any(&self, kinds: &[Kind]) -> bool
        ensures { result ≡ spec.sees kinds.now self.now }
    {
        match self.kind {
            Some(next) => is_among(next, kinds),
            None => false,
        }
    }

    /// Whether the next token is a name.
    #[tactic(auto, unfolding(crate::specs::Kinds::name_kinds))]
    pub fn sees_name(&self) -> bool
        ensures { result ≡ spec.sees name_kinds self.now }
    {
        self.sees_any(&NAME_KINDS)
    }

    #[tactic(auto, unfolding(crate::specs::Reading::next))]
    fn skip(&mut self)
        ensures { self.new ≡ reading.next self.old }
    {
        if let [_, rest @ ..] = self.rest {
            self.rest = rest;
            self.kind = ahead(rest);
        }
    }

    /// Whether the next token is of the kind, which is then read.
    pub fn eat(&mut self, kind: Kind) -> bool
        ensures found { result ≡ spec.sees (kind ∷ []) self.old }
        ensures after { self.new ≡ (if spec.sees (kind ∷ []) self.old then reading.next self.old else self.old) }
    {
        let found = self.sees(kind);
        if found {
            self.skip();
        }
        found
    }

    /// Reads a token of the kind.
    pub fn expect(&mut self, kind: Kind) -> Result<(), ReadStop>
        ensures { Reads (reading.read_word kind tt self.old) result self.new }
    {
        if self.eat(kind) {
            Ok(())
        } else {
            Err(ReadStop::NoTree)
        }
    }

    /// Whether the token that stands so many tokens later is of one of the kinds.
    pub fn sees_later(&self, skipped: usize, kinds: &[Kind]) -> bool
        ensures { result ≡ spec.sees kinds.now (drop skipped self.now) }
    {
        if skipped > self.rest.len() {
            return false;
        }
        begins(&self.rest[skipped..], kinds)
    }

    /// Reads a number.
    #[tactic(auto, unfolding(crate::specs::Reading::read_token, crate::specs::Reading::next, crate::specs::Forms::sees))]
    pub fn number(&mut self) -> Result<u64, ReadStop>
        ensures { Reads (reading.read_token (kinds.NumberLiteral ∷ []) outcome.number_of self.old) result self.new }
    {
        match self.rest {
            [first, ..] if self.sees_any(&[Kind::NumberLiteral]) => match number_of(first) {
                Some(number) => {
                    self.skip();
                    Ok(number)
                }
                None => Err(ReadStop::NoTree),
            },
            _ => Err(ReadStop::NoTree),
        }
    }

    /// Reads a string, of which it gives the content.
    #[tactic(auto, unfolding(crate::specs::Reading::read_token, crate::specs::Reading::next, crate::specs::Forms::sees))]
    pub fn content(&mut self, alloc: Global) -> Result<Bytes, ReadStop>
        ensures { Reads (reading.read_token (kinds.TextLiteral ∷ []) outcome.content_of self.old) result self.new }
    {
        match self.rest {
            [first, ..] if self.sees_any(&[Kind::TextLiteral]) => match content_of(alloc, first)? {
                Some(content) => {
                    self.skip();
                    Ok(content)
                }
                None => Err(ReadStop::NoTree),
            },
            _ => Err(ReadStop::NoTree),
        }
    }

    /// Reads a name.
    #[tactic(auto, unfolding(crate::specs::Kinds::name_kinds))]
    pub fn name(&mut self, alloc: Global) -> Result<Name, ReadStop>
        ensures { Reads (reading.read_token name_kinds outcome.named_by self.old) result self.new }
    {
        self.name_among(alloc, &NAME_KINDS)
    }

    /// Reads a name, or nothing where none stands there.
    pub fn maybe_name(&mut self, alloc: Global) -> Result<Option<Name>, ReadStop>
        ensures { Reads (outcome.maybe_named self.old) result self.new }
    {
        if self.sees_name() {
            Ok(Some(self.name(alloc)?))
        } else {
            Ok(None)
        }
    }

    /// Reads a name that is a word of none of the kinds.
    pub fn name_but(&mut self, alloc: Global, left_out: &[Kind]) -> Result<Name, ReadStop>
        ensures { Reads (reading.read_token (names_but left_out.now) outcome.named_by self.old) result self.new }
    {
        if self.sees_any(left_out) {
            Err(ReadStop::NoTree)
        } else {
            self.name(alloc)
        }
    }

    /// Reads a name that is a word of one of the kinds.
    #[tactic(auto, unfolding(crate::specs::Reading::read_token, crate::specs::Reading::next, crate::specs::Forms::sees))]
    pub fn name_among(&mut self, alloc: Global, kinds: &[Kind]) -> Result<Name, ReadStop>
        ensures { Reads (reading.read_token kinds.now outcome.named_by self.old) result self.new }
    {
        match self.rest {
            [first, ..] if self.sees_any(kinds) => match named_by(alloc, first)? {
                Some(name) => {
                    self.skip();
                    Ok(name)
                }
                None => Err(ReadStop::NoTree),
            },
            _ => Err(ReadStop::NoTree),
        }
    }
}

/// Whether the first token is of one of the kinds.
#[tactic(auto, unfolding(crate::specs::Forms::sees))]
fn begins(tokens: &[Token], kinds: &[Kind]) -> bool
    ensures { result ≡ spec.sees kinds.now tokens.now }
{
    match tokens {
        [first, ..] => is_among(kind_of(first), kinds),
        [] => false,
    }
}

/// The kind of the first token.
fn ahead(tokens: &[Token]) -> Option<Kind>
    ensures { result ≡ spec.ahead tokens.now }
{
    match tokens {
        [first, ..] => Some(kind_of(first)),
        [] => None,
    }
}

fn is_among(kind: Kind, mut kinds: &[Kind]) -> bool
    ensures { result ≡ member kind kinds.entry.now }
{
    while let [first, rest @ ..] = kinds {
        if is_same(kind, *first) {
            return true;
        }
        kinds = rest;
    }
    false
}

/// The number that a token stands for.
#[tactic(auto, unfolding(crate::specs::Outcome::number_of))]
fn number_of(token: &Token) -> Option<u64>
    ensures { result ≡ outcome.number_of token.now }
{
    match &token.what {
        TokenKind::Number(number) => Some(*number),
        _ => None,
    }
}

/// The content of a string.
#[tactic(auto, unfolding(crate::specs::Outcome::content_of))]
fn content_of(alloc: Global, token: &Token) -> Result<Option<Bytes>, NoMemory>
    ensures { IfOk result (λ content. content ≡ outcome.content_of token.now) }
{
    match &token.what {
        TokenKind::Text(content) => Ok(Some(Bytes::from_slice(alloc, content.as_slice())?)),
        _ => Ok(None),
    }
}

/// The name that a word spells.
#[tactic(auto, unfolding(crate::specs::Outcome::named_by))]
fn named_by(alloc: Global, token: &Token) -> Result<Option<Name>, NoMemory>
    ensures { IfOk result (λ name. name ≡ outcome.named_by token.now) }
{
    match &token.what {
        TokenKind::Word(word) => Name::of(alloc, word.as_slice()),
        _ => Ok(None),
    }
}
