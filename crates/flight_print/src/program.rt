ghost use Rattle.std.specs.Prelude.{◌≡◌, ◌++◌, ℕ, List, IfOk, OnOk, false, map, string_bytes};
ghost use Rattle.flight_syntax.specs.Derives.{Derives, said};
ghost use Rattle.flight_syntax.specs.Term.{term};
ghost use Rattle.flight_print.specs.Text.{params_text, line_end, body_text, said_text, each_text, term_text, program_text};
ghost use Rattle.flight_print.specs.Scope.{declared_names};

use crate::expression::write_expr;
use crate::names::Names;
use crate::words::{write_comma, write_word};
use flight_syntax::{Declared, Expr, Program};
use flight_value::{Memory, Text};
use std::alloc::Global;

/// A text from which the language derives the program again. The program is one that some text is.
#[tactic(auto, using(crate::proofs::Programs::printed_again))]
pub fn print_program(alloc: Global, program: &Program) -> Result<Text, Memory>
    requires { (source : List ℕ) × Derives source program.now.declared }
    ensures { IfOk result (λ text. Derives text program.now.declared) }
{
    written(alloc, program.declared.as_slice())
}

/// The text of declarations.
#[tactic(auto, using(crate::proofs::Written::program_written))]
fn written(alloc: Global, declared: &[Declared]) -> Result<Text, Memory>
    ensures { IfOk result (λ text. text ≡ program_text (map said declared.now)) }
{
    let mut out = String::new(alloc);
    write_each(alloc, &mut out, declared)?;
    Text::from_string(out)
}

/// Appends declarations.
fn write_each(alloc: Global, out: &mut String, declared: &[Declared]) -> Result<(), Memory>
    ensures { OnOk result (string_bytes out.new ≡ string_bytes out.old ++ each_text (declared_names declared.now) (map said declared.now)) }
{
    for one in declared {
        write_declared(alloc, out, declared, one)?;
    }
    Ok(())
}

/// Appends a declaration, one of these.
fn write_declared(
    alloc: Global,
    out: &mut String,
    declared: &[Declared],
    one: &Declared,
) -> Result<(), Memory>
    ensures { OnOk result (string_bytes out.new ≡ string_bytes out.old ++ said_text (declared_names declared.now) (said one.now)) }
{
    match one {
        Declared::Server { name, params, body } => {
            write_word(out, "server")?;
            write_body(alloc, out, declared, name, params.as_slice(), body)
        }
        Declared::Client { name, import } => {
            write_word(out, "client")?;
            write_word(out, name.as_str())?;
            write_word(out, "=")?;
            out.push_str(import.as_str())?;
            write_end(out)
        }
        Declared::Action { name, params, body } => {
            write_word(out, "action")?;
            write_body(alloc, out, declared, name, params.as_slice(), body)
        }
    }
}

/// Appends a name, parameters and a body.
fn write_body(
    alloc: Global,
    out: &mut String,
    declared: &[Declared],
    name: &Text,
    params: &[Text],
    body: &Expr,
) -> Result<(), Memory>
    ensures { OnOk result (string_bytes out.new ≡ string_bytes out.old ++ body_text (declared_names declared.now) name.now params.now (term body.now)) }
{
    write_word(out, name.as_str())?;
    write_word(out, "(")?;
    write_params(out, params)?;
    write_word(out, ")")?;
    write_word(out, "=")?;
    write_alone(alloc, out, declared, params, body)?;
    write_end(out)
}

/// Appends an expression under parameters.
fn write_alone(
    alloc: Global,
    out: &mut String,
    declared: &[Declared],
    params: &[Text],
    body: &Expr,
) -> Result<(), Memory>
    ensures { OnOk result (string_bytes out.new ≡ string_bytes out.old ++ term_text (declared_names declared.now) params.now (term body.now)) }
{
    let names = Names { declared, params };
    let locals = Vec::new(alloc);
    write_expr(alloc, out, &names, locals.as_slice(), body)
}

/// Appends parameters with commas between.
fn write_params(out: &mut String, params: &[Text]) -> Result<(), Memory>
    ensures { OnOk result (string_bytes out.new ≡ string_bytes out.old ++ params_text false params.now) }
{
    for (at, param) in params.iter().enumerate() {
        write_comma(out, at > 0)?;
        write_word(out, param.as_str())?;
    }
    Ok(())
}

/// Ends a declaration, and its line.
fn write_end(out: &mut String) -> Result<(), Memory>
    ensures { OnOk result (string_bytes out.new ≡ string_bytes out.old ++ line_end) }
{
    out.push_str(";\n")?;
    Ok(())
}
