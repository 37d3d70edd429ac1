//! What the grammar tells apart: each of its words, each symbol, names, numbers and strings.

ghost use Rattle.std.specs.Prelude.{◌≡◌, map};
ghost use Rattle.ebr_grammar.specs.Kinds as spec;

use ebr_lexer::{Symbol, Token, TokenKind};

/// What a token is to the grammar.
///
/// A word of the grammar has a kind of its own, whether it is reserved or not.
#[derive(Clone, Copy)]
pub enum Kind {
    /// A word that the grammar doesn't use.
    Name,
    NumberLiteral,
    TextLiteral,
    Add,
    After,
    Alter,
    And,
    Apply,
    As,
    Asc,
    AutonomousTransaction,
    Before,
    Begin,
    Between,
    Body,
    Boolean,
    By,
    Byte,
    Call,
    Cascade,
    Char,
    Child,
    Close,
    Commit,
    Constant,
    Constraint,
    Continue,
    Count,
    Create,
    Crossedition,
    Cursor,
    Database,
    DbmsOutput,
    Declare,
    Default,
    Delete,
    Deleting,
    Desc,
    Disable,
    Drop,
    Dual,
    Each,
    Edition,
    Editionable,
    Editioning,
    Else,
    Elsif,
    Enable,
    End,
    Exception,
    ExceptionInit,
    Exit,
    False,
    Fetch,
    For,
    Forward,
    Found,
    From,
    Function,
    If,
    In,
    Insert,
    Inserting,
    Integer,
    Into,
    Is,
    Isopen,
    Key,
    Like,
    Loop,
    Max,
    Min,
    New,
    Not,
    Notfound,
    Nowait,
    Null,
    Number,
    Of,
    Old,
    On,
    Open,
    Or,
    Order,
    Others,
    Out,
    Package,
    Pragma,
    Primary,
    Procedure,
    PutLine,
    Raise,
    RaiseApplicationError,
    Replace,
    Return,
    Reverse,
    Rollback,
    Row,
    Rowcount,
    Savepoint,
    Select,
    Session,
    Set,
    Sql,
    Sqlcode,
    Sum,
    Table,
    Then,
    To,
    Trigger,
    True,
    Trunc,
    /// `TYPE`
    TypeWord,
    Update,
    Updating,
    Values,
    Varchar2,
    View,
    When,
    Where,
    While,
    Work,
    Assign,
    Range,
    NotEqual,
    AtMost,
    AtLeast,
    Concat,
    LeftParen,
    RightParen,
    Comma,
    Semicolon,
    Dot,
    Equal,
    Less,
    Greater,
    Plus,
    Minus,
    Star,
    Slash,
    Colon,
    Percent,
}

/// The words of the grammar that have 2 bytes.
const TWO: [(&[u8], Kind); 9] = [
    (b"AS", Kind::As),
    (b"BY", Kind::By),
    (b"IF", Kind::If),
    (b"IN", Kind::In),
    (b"IS", Kind::Is),
    (b"OF", Kind::Of),
    (b"ON", Kind::On),
    (b"OR", Kind::Or),
    (b"TO", Kind::To),
];

/// The words of the grammar that have 3 bytes.
const THREE: [(&[u8], Kind); 16] = [
    (b"ADD", Kind::Add),
    (b"AND", Kind::And),
    (b"ASC", Kind::Asc),
    (b"END", Kind::End),
    (b"FOR", Kind::For),
    (b"KEY", Kind::Key),
    (b"MAX", Kind::Max),
    (b"MIN", Kind::Min),
    (b"NEW", Kind::New),
    (b"NOT", Kind::Not),
    (b"OLD", Kind::Old),
    (b"OUT", Kind::Out),
    (b"ROW", Kind::Row),
    (b"SET", Kind::Set),
    (b"SQL", Kind::Sql),
    (b"SUM", Kind::Sum),
];

/// The words of the grammar that have 4 bytes.
const FOUR: [(&[u8], Kind); 22] = [
    (b"BODY", Kind::Body),
    (b"BYTE", Kind::Byte),
    (b"CALL", Kind::Call),
    (b"CHAR", Kind::Char),
    (b"DESC", Kind::Desc),
    (b"DROP", Kind::Drop),
    (b"DUAL", Kind::Dual),
    (b"EACH", Kind::Each),
    (b"ELSE", Kind::Else),
    (b"EXIT", Kind::Exit),
    (b"FROM", Kind::From),
    (b"INTO", Kind::Into),
    (b"LIKE", Kind::Like),
    (b"LOOP", Kind::Loop),
    (b"NULL", Kind::Null),
    (b"OPEN", Kind::Open),
    (b"THEN", Kind::Then),
    (b"TRUE", Kind::True),
    (b"TYPE", Kind::TypeWord),
    (b"VIEW", Kind::View),
    (b"WHEN", Kind::When),
    (b"WORK", Kind::Work),
];

/// The words of the grammar that have 5 bytes.
const FIVE: [(&[u8], Kind); 17] = [
    (b"AFTER", Kind::After),
    (b"ALTER", Kind::Alter),
    (b"APPLY", Kind::Apply),
    (b"BEGIN", Kind::Begin),
    (b"CHILD", Kind::Child),
    (b"CLOSE", Kind::Close),
    (b"COUNT", Kind::Count),
    (b"ELSIF", Kind::Elsif),
    (b"FALSE", Kind::False),
    (b"FETCH", Kind::Fetch),
    (b"FOUND", Kind::Found),
    (b"ORDER", Kind::Order),
    (b"RAISE", Kind::Raise),
    (b"TABLE", Kind::Table),
    (b"TRUNC", Kind::Trunc),
    (b"WHERE", Kind::Where),
    (b"WHILE", Kind::While),
];

/// The words of the grammar that have 6 bytes.
const SIX: [(&[u8], Kind); 16] = [
    (b"BEFORE", Kind::Before),
    (b"COMMIT", Kind::Commit),
    (b"CREATE", Kind::Create),
    (b"CURSOR", Kind::Cursor),
    (b"DELETE", Kind::Delete),
    (b"ENABLE", Kind::Enable),
    (b"INSERT", Kind::Insert),
    (b"ISOPEN", Kind::Isopen),
    (b"NOWAIT", Kind::Nowait),
    (b"NUMBER", Kind::Number),
    (b"OTHERS", Kind::Others),
    (b"PRAGMA", Kind::Pragma),
    (b"RETURN", Kind::Return),
    (b"SELECT", Kind::Select),
    (b"UPDATE", Kind::Update),
    (b"VALUES", Kind::Values),
];

/// The words of the grammar that have 7 bytes.
const SEVEN: [(&[u8], Kind); 16] = [
    (b"BETWEEN", Kind::Between),
    (b"BOOLEAN", Kind::Boolean),
    (b"CASCADE", Kind::Cascade),
    (b"DECLARE", Kind::Declare),
    (b"DEFAULT", Kind::Default),
    (b"DISABLE", Kind::Disable),
    (b"EDITION", Kind::Edition),
    (b"FORWARD", Kind::Forward),
    (b"INTEGER", Kind::Integer),
    (b"PACKAGE", Kind::Package),
    (b"PRIMARY", Kind::Primary),
    (b"REPLACE", Kind::Replace),
    (b"REVERSE", Kind::Reverse),
    (b"SESSION", Kind::Session),
    (b"SQLCODE", Kind::Sqlcode),
    (b"TRIGGER", Kind::Trigger),
];

/// The words of the grammar that have 8 bytes.
const EIGHT: [(&[u8], Kind); 11] = [
    (b"CONSTANT", Kind::Constant),
    (b"CONTINUE", Kind::Continue),
    (b"DATABASE", Kind::Database),
    (b"DELETING", Kind::Deleting),
    (b"FUNCTION", Kind::Function),
    (b"NOTFOUND", Kind::Notfound),
    (b"PUT_LINE", Kind::PutLine),
    (b"ROLLBACK", Kind::Rollback),
    (b"ROWCOUNT", Kind::Rowcount),
    (b"UPDATING", Kind::Updating),
    (b"VARCHAR2", Kind::Varchar2),
];

/// The words of the grammar that have 9 bytes.
const NINE: [(&[u8], Kind); 4] = [
    (b"EXCEPTION", Kind::Exception),
    (b"INSERTING", Kind::Inserting),
    (b"PROCEDURE", Kind::Procedure),
    (b"SAVEPOINT", Kind::Savepoint),
];

/// The words of the grammar that have 10 bytes.
const TEN: [(&[u8], Kind); 2] = [
    (b"CONSTRAINT", Kind::Constraint),
    (b"EDITIONING", Kind::Editioning),
];

/// The words of the grammar that have 11 bytes.
const ELEVEN: [(&[u8], Kind); 2] = [
    (b"DBMS_OUTPUT", Kind::DbmsOutput),
    (b"EDITIONABLE", Kind::Editionable),
];

/// The words of the grammar that have 12 bytes.
const TWELVE: [(&[u8], Kind); 1] = [(b"CROSSEDITION", Kind::Crossedition)];

/// The words of the grammar that have 14 bytes.
const FOURTEEN: [(&[u8], Kind); 1] = [(b"EXCEPTION_INIT", Kind::ExceptionInit)];

/// The words of the grammar that have 22 bytes.
const TWENTY_TWO: [(&[u8], Kind); 1] = [(b"AUTONOMOUS_TRANSACTION", Kind::AutonomousTransaction)];

/// The words of the grammar that have 23 bytes.
const TWENTY_THREE: [(&[u8], Kind); 1] = [(
    b"RAISE_APPLICATION_ERROR",
    Kind::RaiseApplicationError,
)];

/// The kinds of the words that are no reserved words, so that they are names as well.
pub const NAME_KINDS: [Kind; 56] = [
    Kind::Name,
    Kind::Add,
    Kind::After,
    Kind::Apply,
    Kind::AutonomousTransaction,
    Kind::Before,
    Kind::Body,
    Kind::Boolean,
    Kind::Byte,
    Kind::Call,
    Kind::Cascade,
    Kind::Char,
    Kind::Child,
    Kind::Constant,
    Kind::Constraint,
    Kind::Count,
    Kind::Crossedition,
    Kind::Database,
    Kind::Default,
    Kind::Disable,
    Kind::Each,
    Kind::Edition,
    Kind::Editionable,
    Kind::Editioning,
    Kind::Enable,
    Kind::ExceptionInit,
    Kind::Forward,
    Kind::Found,
    Kind::Integer,
    Kind::Isopen,
    Kind::Key,
    Kind::Max,
    Kind::Min,
    Kind::New,
    Kind::Notfound,
    Kind::Nowait,
    Kind::Number,
    Kind::Of,
    Kind::Old,
    Kind::Others,
    Kind::Out,
    Kind::Package,
    Kind::Primary,
    Kind::PutLine,
    Kind::Replace,
    Kind::Reverse,
    Kind::Row,
    Kind::Rowcount,
    Kind::Session,
    Kind::Sum,
    Kind::To,
    Kind::Trigger,
    Kind::Trunc,
    Kind::TypeWord,
    Kind::Varchar2,
    Kind::Work,
];

/// The kind of a word in upper case.
#[tactic(auto, unfolding(crate::specs::Kinds::word_kind))]
fn word_kind(word: &[u8]) -> Kind
    ensures { result ≡ spec.word_kind word.now }
{
    match word.len() {
        2 => lookup(&TWO, word),
        3 => lookup(&THREE, word),
        4 => lookup(&FOUR, word),
        5 => lookup(&FIVE, word),
        6 => lookup(&SIX, word),
        7 => lookup(&SEVEN, word),
        8 => lookup(&EIGHT, word),
        9 => lookup(&NINE, word),
        10 => lookup(&TEN, word),
        11 => lookup(&ELEVEN, word),
        12 => lookup(&TWELVE, word),
        14 => lookup(&FOURTEEN, word),
        22 => lookup(&TWENTY_TWO, word),
        23 => lookup(&TWENTY_THREE, word),
        _ => Kind::Name,
    }
}

fn lookup(mut table: &[(&[u8], Kind)], word: &[u8]) -> Kind
    ensures { result ≡ spec.lookup (map (λ k. (k.0.now, k.1)) table.entry.now) word.now }
{
    while let [entry, rest @ ..] = table {
        if entry.0 == word {
            return entry.1;
        }
        table = rest;
    }
    Kind::Name
}

fn symbol_kind(symbol: Symbol) -> Kind
    ensures { result ≡ spec.symbol_kind symbol }
{
    match symbol {
        Symbol::Assign => Kind::Assign,
        Symbol::Range => Kind::Range,
        Symbol::NotEqual => Kind::NotEqual,
        Symbol::AtMost => Kind::AtMost,
        Symbol::AtLeast => Kind::AtLeast,
        Symbol::Concat => Kind::Concat,
        Symbol::LeftParen => Kind::LeftParen,
        Symbol::RightParen => Kind::RightParen,
        Symbol::Comma => Kind::Comma,
        Symbol::Semicolon => Kind::Semicolon,
        Symbol::Dot => Kind::Dot,
        Symbol::Equal => Kind::Equal,
        Symbol::Less => Kind::Less,
        Symbol::Greater => Kind::Greater,
        Symbol::Plus => Kind::Plus,
        Symbol::Minus => Kind::Minus,
        Symbol::Star => Kind::Star,
        Symbol::Slash => Kind::Slash,
        Symbol::Colon => Kind::Colon,
        Symbol::Percent => Kind::Percent,
    }
}

/// The kind of a token.
#[tactic(auto, unfolding(crate::specs::Kinds::kind_of))]
pub fn kind_of(token: &Token) -> Kind
    ensures { result ≡ spec.kind_of token.now }
{
    match &token.what {
        TokenKind::Word(word) => word_kind(word.as_slice()),
        TokenKind::Number(_) => Kind::NumberLiteral,
        TokenKind::Text(_) => Kind::TextLiteral,
        TokenKind::Symbol(symbol) => symbol_kind(*symbol),
    }
}

/// Whether two kinds are the same.
pub fn is_same(a: Kind, b: Kind) -> bool
    ensures { result ≡ spec.same a b }
{
    a == b
}
