ghost use Rattle.std.specs.Prelude.{◌≡◌};
ghost use Rattle.flight_syntax.specs.Term.{term};
ghost use Rattle.flight_syntax.specs.Term as terms;
ghost use Rattle.flight_print.specs.Text.{shape_of};
ghost use Rattle.flight_print.specs.Forms.{shape_seen};

use flight_syntax::Expr;
use flight_value::{Atom, Text};

/// How an attribute's value and a child stand.
pub enum Shape<'a> {
    /// A text, without braces.
    Bare(&'a Text),
    /// An element, which as a child has no braces.
    Element,
    /// In braces.
    Other,
}

/// How an expression stands as an attribute's value or as a child.
#[cycle(shape)]
pub fn shape_of(expr: &Expr) -> Shape<'_>
    ensures { shape_seen result ≡ shape_of (term expr.now) }
{
    match expr {
        Expr::Atom(atom) => shape_of_atom(atom),
        Expr::Element { .. } => Shape::Element,
        Expr::Postfixed { of, postfixes } => {
            if postfixes.as_slice().is_empty() {
                shape_of(of.get())
            } else {
                Shape::Other
            }
        }
        _ => Shape::Other,
    }
}

/// How a literal stands.
fn shape_of_atom(atom: &Atom) -> Shape<'_>
    ensures { shape_seen result ≡ shape_of (terms.atom atom.now) }
{
    match atom {
        Atom::Text(text) => Shape::Bare(text),
        _ => Shape::Other,
    }
}
