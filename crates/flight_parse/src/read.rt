ghost use Rattle.std.specs.Prelude.{◌≡◌, ◌≤◌, IfOk, IfErr, length, map};
ghost use Rattle.std.specs.Str.{IsUtf8};
ghost use Rattle.flight_grammar.specs.Outcome.{IsSpelled, place_of, start_of};
ghost use Rattle.flight_parse.specs.Declarations.{declaration_of};
ghost use Rattle.flight_parse.specs.Reports.{IsFaultOf};

use crate::declaration::{Declaration, program};
use crate::fault::TreeFault;
use crate::lexeme::lexemes;
use crate::stop::Stop;
use flight_grammar::reads_programs;
use flight_syntax::{Token, tokens};
use std::alloc::Global;

/// The declarations that a text of at most 1,048,576 bytes spells, or its first fault: of its tokens, else the
/// first token that no program continues with, or the end of the text, or where the nesting or the postfixes
/// pass 100.
#[tactic(auto, using(crate::proofs::Spelled::spelled, crate::proofs::Spelled::stops))]
pub fn declarations(alloc: Global, bytes: &[u8]) -> Result<Vec<Declaration>, TreeFault>
    requires utf8 { IsUtf8 bytes.now }
    requires within { length bytes.now ≤ 1048576 }
    ensures ok { IfOk result (λ declared. IsSpelled bytes.now (map declaration_of declared.items)) }
    ensures fault { IfErr result (IsFaultOf bytes.now) }
{
    let tokens = tokens(alloc, bytes)?;
    let lexemes = lexemes(alloc, bytes, tokens.as_slice())?;
    reads_programs();
    match program(alloc, lexemes.as_slice()) {
        Ok(declarations) => Ok(declarations),
        Err(Stop::Memory) => Err(TreeFault::Memory),
        Err(Stop::Fault { too_deep, left }) => {
            let at = place(bytes, tokens.as_slice(), left);
            if too_deep {
                Err(TreeFault::TooDeep { at })
            } else {
                Err(TreeFault::Unexpected { at })
            }
        }
    }
}

/// Where the last so many tokens of a text begin, or its end.
fn place(bytes: &[u8], tokens: &[Token], left: usize) -> u32
    requires within { length bytes.now ≤ 1048576 }
    ensures { result ≡ place_of bytes.now tokens.now left }
{
    let passed = tokens.len().saturating_sub(left);
    start(&tokens[passed..], bytes.len())
}

/// Where tokens begin, or the end of the text where there are none.
fn start(tokens: &[Token], end: usize) -> u32
    requires within { end ≤ 1048576 }
    ensures { result ≡ start_of end tokens.now }
{
    match tokens {
        [token, ..] => token.from,
        [] => end as u32,
    }
}
