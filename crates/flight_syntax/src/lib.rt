//! The component language: its tokens, and the trees of its programs.
//!
//! [`tokens`] reads the tokens of a text, or finds its first fault. What a token is, is said in
//! `specs/Pieces.antt`, and what the tokens of a whole text are in `specs/Tokens.antt`: a relation on the
//! text, which no text meets in two ways ([`one_reading`]). A [`Token`] is a place of the text; its methods
//! give what stands there.
//!
//! A [`Program`] is the tree of a whole program, with its names resolved, and a [`Script`] is the data that it
//! is rendered over. Contracts see an [`Expr`] as a term (`specs/Term.antt`), which has no place in memory.
//! `specs/Derives.antt` says which program a text is: its tokens as words (`specs/Lexicon.antt`) spell a tree
//! with names by the productions (`specs/Grammar.antt`), none of whose names is at fault (`specs/Faults.antt`),
//! and which stand for what `specs/Scope.antt` says.
//!
//! The language is this project's own. Its texts are JSON strings (RFC 8259), as `serde_json` reads them.
#![tactic(auto)]

mod expr;
mod lex;
mod mark;
mod name;
mod number;
mod piece;
mod program;
mod script;
mod string;
mod token;
mod word;

pub use expr::{Expr, Op, PairExpr, Postfix, PropExpr, Tag};
pub use lex::{one_reading, tokens};
pub use name::{is_lower, is_plain_name};
pub use program::{Declared, Program};
pub use script::{Data, Flowing, Outcome, Script, Seen};
pub use token::{LexFault, LexKind, Lexed, Token, TokenKind};
pub use word::{Keyword, Punctuator};
