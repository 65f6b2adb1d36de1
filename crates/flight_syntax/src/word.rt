/// A keyword. No variable, component or action has its name; a property may.
#[derive(Clone, Copy)]
pub enum Keyword {
    Null,
    Undefined,
    True,
    False,
    Map,
    Set,
    Date,
    Symbol,
    Use,
    Promise,
    Stream,
    Action,
    With,
    Throw,
    Let,
    In,
    If,
    Then,
    Else,
    For,
    Give,
    Server,
    Client,
    NotANumber,
    Infinity,
}

/// A mark.
#[derive(Clone, Copy)]
pub enum Punctuator {
    /// `(`.
    OpenParen,
    /// `)`.
    CloseParen,
    /// `[`.
    OpenBracket,
    /// `]`.
    CloseBracket,
    /// `{`.
    OpenBrace,
    /// `}`.
    CloseBrace,
    /// `,`.
    Comma,
    /// `;`.
    Semicolon,
    /// `:`.
    Colon,
    /// `.`.
    Dot,
    /// `=`.
    Assign,
    /// `==`.
    Equal,
    /// `&&`.
    And,
    /// `||`.
    Or,
    /// `+`.
    Plus,
    /// `-`.
    Minus,
    /// `*`.
    Times,
    /// `<`.
    Less,
    /// `>`.
    Greater,
    /// `</`.
    LessSlash,
    /// `/>`.
    SlashGreater,
}
