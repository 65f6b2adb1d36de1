ghost use Rattle.std.specs.Prelude.{◌≡◌};
ghost use Rattle.flight_syntax.specs.Lexicon.{spelled, sign_spelled, key_number, sign_number, so_spelled, keyword_of, sign_of};

use flight_syntax::{Keyword, Punctuator};

/// The keywords.
const KEYWORDS: [Keyword; 25] = [
    Keyword::Null,
    Keyword::Undefined,
    Keyword::True,
    Keyword::False,
    Keyword::Map,
    Keyword::Set,
    Keyword::Date,
    Keyword::Symbol,
    Keyword::Use,
    Keyword::Promise,
    Keyword::Stream,
    Keyword::Action,
    Keyword::With,
    Keyword::Throw,
    Keyword::Let,
    Keyword::In,
    Keyword::If,
    Keyword::Then,
    Keyword::Else,
    Keyword::For,
    Keyword::Give,
    Keyword::Server,
    Keyword::Client,
    Keyword::NotANumber,
    Keyword::Infinity,
];

/// The marks.
const SIGNS: [Punctuator; 21] = [
    Punctuator::OpenParen,
    Punctuator::CloseParen,
    Punctuator::OpenBracket,
    Punctuator::CloseBracket,
    Punctuator::OpenBrace,
    Punctuator::CloseBrace,
    Punctuator::Comma,
    Punctuator::Semicolon,
    Punctuator::Colon,
    Punctuator::Dot,
    Punctuator::Assign,
    Punctuator::Equal,
    Punctuator::And,
    Punctuator::Or,
    Punctuator::Plus,
    Punctuator::Minus,
    Punctuator::Times,
    Punctuator::Less,
    Punctuator::Greater,
    Punctuator::LessSlash,
    Punctuator::SlashGreater,
];

/// How a keyword is spelled.
pub fn spelled(keyword: Keyword) -> &'static str
    ensures { result.now ≡ spelled keyword }
{
    match keyword {
        Keyword::Null => "null",
        Keyword::Undefined => "undefined",
        Keyword::True => "true",
        Keyword::False => "false",
        Keyword::Map => "map",
        Keyword::Set => "set",
        Keyword::Date => "date",
        Keyword::Symbol => "symbol",
        Keyword::Use => "use",
        Keyword::Promise => "promise",
        Keyword::Stream => "stream",
        Keyword::Action => "action",
        Keyword::With => "with",
        Keyword::Throw => "throw",
        Keyword::Let => "let",
        Keyword::In => "in",
        Keyword::If => "if",
        Keyword::Then => "then",
        Keyword::Else => "else",
        Keyword::For => "for",
        Keyword::Give => "give",
        Keyword::Server => "server",
        Keyword::Client => "client",
        Keyword::NotANumber => "NaN",
        Keyword::Infinity => "Infinity",
    }
}

/// How a mark is spelled.
fn sign_spelled(sign: Punctuator) -> &'static str
    ensures { result.now ≡ sign_spelled sign }
{
    match sign {
        Punctuator::OpenParen => "(",
        Punctuator::CloseParen => ")",
        Punctuator::OpenBracket => "[",
        Punctuator::CloseBracket => "]",
        Punctuator::OpenBrace => "{",
        Punctuator::CloseBrace => "}",
        Punctuator::Comma => ",",
        Punctuator::Semicolon => ";",
        Punctuator::Colon => ":",
        Punctuator::Dot => ".",
        Punctuator::Assign => "=",
        Punctuator::Equal => "==",
        Punctuator::And => "&&",
        Punctuator::Or => "||",
        Punctuator::Plus => "+",
        Punctuator::Minus => "-",
        Punctuator::Times => "*",
        Punctuator::Less => "<",
        Punctuator::Greater => ">",
        Punctuator::LessSlash => "</",
        Punctuator::SlashGreater => "/>",
    }
}

/// The keyword that a name is, if it is one.
pub fn keyword_of(name: &[u8]) -> Option<Keyword>
    ensures { result ≡ keyword_of name.now }
{
    keyword_among(KEYWORDS.as_slice(), name)
}

/// The first of some keywords that is so spelled.
fn keyword_among(keywords: &[Keyword], name: &[u8]) -> Option<Keyword>
    ensures { result ≡ so_spelled spelled name.now keywords.now }
{
    for keyword in keywords {
        if spelled(*keyword).as_bytes() == name {
            return Some(*keyword);
        }
    }
    None
}

/// The mark that is so spelled, if there is one.
pub fn sign_of(bytes: &[u8]) -> Option<Punctuator>
    ensures { result ≡ sign_of bytes.now }
{
    sign_among(SIGNS.as_slice(), bytes)
}

/// The first of some marks that is so spelled.
fn sign_among(signs: &[Punctuator], bytes: &[u8]) -> Option<Punctuator>
    ensures { result ≡ so_spelled sign_spelled bytes.now signs.now }
{
    for sign in signs {
        if sign_spelled(*sign).as_bytes() == bytes {
            return Some(*sign);
        }
    }
    None
}

/// The number of a keyword.
pub fn key_number(keyword: Keyword) -> u8
    ensures { result ≡ key_number keyword }
{
    match keyword {
        Keyword::Null => 0,
        Keyword::Undefined => 1,
        Keyword::True => 2,
        Keyword::False => 3,
        Keyword::Map => 4,
        Keyword::Set => 5,
        Keyword::Date => 6,
        Keyword::Symbol => 7,
        Keyword::Use => 8,
        Keyword::Promise => 9,
        Keyword::Stream => 10,
        Keyword::Action => 11,
        Keyword::With => 12,
        Keyword::Throw => 13,
        Keyword::Let => 14,
        Keyword::In => 15,
        Keyword::If => 16,
        Keyword::Then => 17,
        Keyword::Else => 18,
        Keyword::For => 19,
        Keyword::Give => 20,
        Keyword::Server => 21,
        Keyword::Client => 22,
        Keyword::NotANumber => 23,
        Keyword::Infinity => 24,
    }
}

/// The number of a mark.
pub fn sign_number(sign: Punctuator) -> u8
    ensures { result ≡ sign_number sign }
{
    match sign {
        Punctuator::OpenParen => 0,
        Punctuator::CloseParen => 1,
        Punctuator::OpenBracket => 2,
        Punctuator::CloseBracket => 3,
        Punctuator::OpenBrace => 4,
        Punctuator::CloseBrace => 5,
        Punctuator::Comma => 6,
        Punctuator::Semicolon => 7,
        Punctuator::Colon => 8,
        Punctuator::Dot => 9,
        Punctuator::Assign => 10,
        Punctuator::Equal => 11,
        Punctuator::And => 12,
        Punctuator::Or => 13,
        Punctuator::Plus => 14,
        Punctuator::Minus => 15,
        Punctuator::Times => 16,
        Punctuator::Less => 17,
        Punctuator::Greater => 18,
        Punctuator::LessSlash => 19,
        Punctuator::SlashGreater => 20,
    }
}
