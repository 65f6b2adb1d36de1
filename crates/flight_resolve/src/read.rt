ghost use Rattle.std.specs.Prelude.{◌≤◌, ℕ, List, IfOk, IfErr, length, map};
ghost use Rattle.std.specs.Str.{IsUtf8};
ghost use Rattle.flight_syntax.specs.Derives.{said};
ghost use Rattle.flight_grammar.specs.Outcome as outcome;
ghost use Rattle.flight_grammar.specs.Outcome.{ComesTo, IsSpelled};
ghost use Rattle.flight_parse.specs.Declarations.{declaration_of};
ghost use Rattle.flight_resolve.specs.Reports.{IsParseFault};

use crate::fault::ParseFault;
use crate::program::{first_fault, has_app, program};
use crate::tables::tables_of;
use flight_parse::{Declaration, declarations};
use flight_syntax::Program;
use std::alloc::Global;

/// The program that a text of at most 1,048,576 bytes is, or its first fault: of its tokens; else of its form; else of
/// its names; else that no server component is named `App`.
pub fn parse(alloc: Global, bytes: &[u8]) -> Result<Program, ParseFault>
    requires utf8 { IsUtf8 bytes.now }
    requires within { length bytes.now ≤ 1048576 }
    ensures ok { IfOk result (λ program. ComesTo bytes.now (outcome.program (map said program.declared))) }
    ensures fault { IfErr result (IsParseFault bytes.now) }
{
    let declared = declarations(alloc, bytes)?;
    resolved(alloc, declared.as_slice())
}

/// The program that declarations are, or the first fault of their names.
fn resolved(alloc: Global, declared: &[Declaration]) -> Result<Program, ParseFault>
    ensures ok { (text : List ℕ) → IsSpelled text (map declaration_of declared.now) → IfOk result (λ program. ComesTo text (outcome.program (map said program.declared))) }
    ensures fault { (text : List ℕ) → IsSpelled text (map declaration_of declared.now) → IfErr result (IsParseFault text) }
{
    let tables = tables_of(alloc, declared)?;
    let found = first_fault(alloc, declared, &tables)?;
    if let Some(fault) = found {
        return Err(ParseFault::from(fault));
    }
    if !has_app(declared) {
        return Err(ParseFault::NoApp);
    }
    let program = program(alloc, declared, &tables)?;
    Ok(program)
}
