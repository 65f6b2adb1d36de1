ghost use Rattle.std.specs.Prelude.{◌≡◌, ◌++◌, OnOk, string_bytes};
ghost use Rattle.flight_print.specs.Text.{atom_text, op_text};
ghost use Rattle.flight_value.specs.declared.graph.Atom.TheVariants as atoms;

use crate::words::{write_literal, write_number, write_word};
use flight_syntax::Op;
use flight_value::{Atom, Constant, Memory};

/// Appends a literal. An atom that no text says is left out.
pub fn write_atom(out: &mut String, atom: &Atom) -> Result<(), Memory>
    ensures { OnOk result (string_bytes out.new ≡ string_bytes out.old ++ atom_text atom.now) }
{
    match atom {
        Atom::Null => write_word(out, "null"),
        Atom::Undefined => write_word(out, "undefined"),
        Atom::Bool(true) => write_word(out, "true"),
        Atom::Bool(false) => write_word(out, "false"),
        Atom::Whole(number) => write_whole(out, *number),
        Atom::Big(number) => write_big(out, number.get()),
        Atom::Text(text) => write_literal(out, text),
        Atom::Date(date) => {
            write_word(out, "date")?;
            write_literal(out, date)
        }
        Atom::Symbol(name) => {
            write_word(out, "symbol")?;
            write_literal(out, name)
        }
        Atom::Constant(constant) => write_constant(out, *constant),
        Atom::Import(_) | Atom::Failed(_) | Atom::Pending => Ok(()),
    }
}

/// Appends a whole number, with its sign as a word of its own.
fn write_whole(out: &mut String, number: i64) -> Result<(), Memory>
    ensures { OnOk result (string_bytes out.new ≡ string_bytes out.old ++ atom_text (atoms.Whole number)) }
{
    if number < 0 {
        write_word(out, "-")?;
    }
    write_number(out, number.unsigned_abs(), "")
}

/// Appends a big number, with its sign as a word of its own.
fn write_big(out: &mut String, number: i128) -> Result<(), Memory>
    ensures { OnOk result (string_bytes out.new ≡ string_bytes out.old ++ atom_text (atoms.Big number)) }
{
    if number < 0 {
        write_word(out, "-")?;
    }
    write_number(out, number.unsigned_abs(), "n")
}

/// Appends a number that JSON cannot spell.
fn write_constant(out: &mut String, constant: Constant) -> Result<(), Memory>
    ensures { OnOk result (string_bytes out.new ≡ string_bytes out.old ++ atom_text (atoms.Constant constant)) }
{
    match constant {
        Constant::NotANumber => write_word(out, "NaN"),
        Constant::Infinity => write_word(out, "Infinity"),
        Constant::MinusInfinity => {
            write_word(out, "-")?;
            write_word(out, "Infinity")
        }
        Constant::MinusZero => {
            write_word(out, "-")?;
            write_word(out, "0")
        }
    }
}

/// The mark of an operator.
pub fn op_word(op: Op) -> &'static str
    ensures { result.now ≡ op_text op }
{
    match op {
        Op::Plus => "+",
        Op::Minus => "-",
        Op::Times => "*",
        Op::Equal => "==",
        Op::Less => "<",
        Op::And => "&&",
        Op::Or => "||",
    }
}
