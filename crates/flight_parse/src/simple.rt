ghost use Rattle.flight_syntax.specs.Lexicon as lexicon;
ghost use Rattle.flight_grammar.specs.Reading.{by_arm, by_word};
ghost use Rattle.flight_grammar.specs.Reader as reader;
ghost use Rattle.flight_parse.specs.Code.{words, tree_of, simple_arm, Gives};

use crate::lexeme::Lexeme;
use crate::stop::{Stop, refused, unexpected};
use crate::terminal::key_constant;
use crate::tree::Tree;
use flight_syntax::Keyword;
use flight_value::{Atom, Wide};

/// An atom of one token that is no keyword.
pub fn simple_atom(lexemes: &[Lexeme]) -> Result<(Tree, &[Lexeme]), Stop>
    ensures { Gives (λ x. (tree_of x.0, words x.1.now)) result (by_word simple_arm (words lexemes.now)) }
{
    match lexemes {
        [Lexeme::Lower(name), rest @ ..] => Ok((Tree::Variable(name.copy()?), rest)),
        [Lexeme::Upper(name), rest @ ..] => Ok((Tree::Client(name.copy()?), rest)),
        [Lexeme::Number(numeral), rest @ ..] => Ok((Tree::Atom(Atom::Whole(numeral.value)), rest)),
        [Lexeme::Big(numeral), rest @ ..] => Ok((
            Tree::Atom(Atom::Big(Wide::new(numeral.value))),
            rest,
        )),
        [Lexeme::Literal(value), rest @ ..] => {
            Ok((Tree::Atom(Atom::Text(value.bytes.clone()?)), rest))
        }
        _ => Err(unexpected(lexemes)),
    }
}

/// Behind a keyword, the constant that it is.
pub fn constant(keyword: Keyword, at: u32, rest: &[Lexeme]) -> Result<(Tree, &[Lexeme]), Stop>
    ensures { Gives (λ x. (tree_of x.0, words x.1.now)) result
        (by_arm (reader.constant_arm (lexicon.constant_of (lexicon.key keyword at))) (lexicon.key keyword at) (words rest.now)) }
{
    match key_constant(keyword) {
        Some(atom) => Ok((Tree::Atom(atom), rest)),
        None => Err(refused(rest)),
    }
}
