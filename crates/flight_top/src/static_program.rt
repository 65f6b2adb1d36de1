ghost use Rattle.std.specs.Prelude.{◌≡◌, ◌≤◌, length, IfOk, IsUtf8};
ghost use Rattle.serde_json.specs.View.{view};
ghost use Rattle.flight_top.specs.Static.{Static, IsStatic};
ghost use Rattle.flight_top.specs.Drawn.{ordered};
ghost use Rattle.flight_top.specs.StaticReader.{Gives, AreOfText, words_from, opening, program, json_of};
ghost use Rattle.flight_top.specs.StaticRow.{IsRowJson};

use crate::static_code::{Code, Unbuilt};
use crate::static_read::{mark, value};
use crate::static_word::want;
use flight_syntax::TokenKind::Name;
use flight_syntax::{Lexed, one_reading, tokens};
use serde_json::Value;
use std::alloc::Global;

/// The most bytes of a program.
const MOST_PROGRAM: usize = 65_536;

/// So many uses of a value may be nested.
const MOST_VALUES: u32 = 40;

/// Behind `server App() =`, with which a program begins.
fn opening(code: &Code) -> Result<usize, Unbuilt>
    requires { AreOfText code.now }
    ensures { Gives (words_from code.now) result (opening (words_from code.now 0)) }
{
    let at = want(code, 0, Name, "server").ok_or(Unbuilt::NotBuilt)?;
    let at = want(code, at, Name, "App").ok_or(Unbuilt::NotBuilt)?;
    let at = mark(code, at, "(")?;
    let at = mark(code, at, ")")?;
    mark(code, at, "=")
}

/// The JSON of the tree that a program declares.
#[tactic(auto, using(crate::proofs::StaticWords::ended_at, crate::proofs::StaticWords::not_ended))]
fn program(alloc: Global, code: &Code) -> Result<Value, Unbuilt>
    requires { AreOfText code.now }
    ensures { Gives view result (program (words_from code.now 0)) }
{
    let at = opening(code)?;
    let (found, end) = value(alloc, MOST_VALUES, code, at)?;
    let end = mark(code, end, ";")?;
    if end < code.tokens.len() {
        return Err(Unbuilt::NotBuilt);
    }
    Ok(found)
}

/// The JSON of the tree that the bytes declare, as it is written in a row.
pub fn static_json(alloc: Global, input: &[u8]) -> Result<Value, Unbuilt>
    ensures tree { IfOk result (λ json. (tree : Static) × IsStatic input.now tree × (view json ≡ json_of (ordered tree))) }
    ensures row { IfOk result (λ json. IsRowJson (view json)) }
    ensures refused { result ≡ Err Unbuilt.NotBuilt → (tree : Static) → ¬ (IsStatic input.now tree) }
{
    if input.len() > MOST_PROGRAM {
        return Err(Unbuilt::NotBuilt);
    }
    if simdutf8::compat::from_utf8(input).is_err() {
        return Err(Unbuilt::NotBuilt);
    }
    one_reading();
    match tokens(alloc, input) {
        Ok(tokens) => program(
            alloc,
            &Code {
                text: input,
                tokens: tokens.as_slice(),
            },
        ),
        Err(Lexed::Fault(_)) => Err(Unbuilt::NotBuilt),
        Err(Lexed::Memory) => Err(Unbuilt::Memory),
    }
}
