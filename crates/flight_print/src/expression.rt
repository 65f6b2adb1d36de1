ghost use Rattle.std.specs.Prelude.{◌≡◌, ◌++◌, ◌∷◌, [], OnOk, false, map, string_bytes};
ghost use Rattle.flight_syntax.specs.Term.{term, prop, pair, post, terms_of, props_of, pairs_of};
ghost use Rattle.flight_print.specs.Text.{word, bracketed, shape_of, braced, given_text, child_text, term_text, terms_text, props_text, pairs_text, attrs_text, children_text};
ghost use Rattle.flight_print.specs.Scope.{declared_names, scope_of, post_text, posts_text, prop_text, pair_text, attr_text, ending_text};

use crate::atom::{op_word, write_atom};
use crate::names::{Names, declared_name, tag_word, variable_name, with_local};
use crate::shape::{Shape, shape_of};
use crate::words::{write_comma, write_literal, write_word};
use flight_syntax::{Expr, PairExpr, Postfix, PropExpr, Tag};
use flight_value::{Memory, Text};
use std::alloc::Global;

/// Appends an expression, under the names of the declarations and of the variables in scope.
#[cycle(print)]
pub fn write_expr<'a>(
    alloc: Global,
    out: &mut String,
    names: &Names<'a>,
    locals: &[&'a Text],
    expr: &'a Expr,
) -> Result<(), Memory>
    ensures { OnOk result (string_bytes out.new ≡ string_bytes out.old ++ term_text (declared_names names.now.declared.now) (scope_of names.now locals.now) (term expr.now)) }
{
    match expr {
        Expr::Let { name, value, then } => {
            write_word(out, "let")?;
            write_local(alloc, out, names, locals, name, "=", value.get())?;
            write_inner(alloc, out, names, locals, "in", name, then.get())
        }
        Expr::If { test, yes, no } => {
            write_after(alloc, out, names, locals, "if", test.get())?;
            write_after(alloc, out, names, locals, "then", yes.get())?;
            write_after(alloc, out, names, locals, "else", no.get())
        }
        Expr::For { name, over, give } => {
            write_word(out, "for")?;
            write_local(alloc, out, names, locals, name, "in", over.get())?;
            write_inner(alloc, out, names, locals, "give", name, give.get())
        }
        Expr::Throw(value) => write_after(alloc, out, names, locals, "throw", value.get()),
        Expr::Postfixed { of, postfixes } => {
            write_expr(alloc, out, names, locals, of.get())?;
            write_postfixes(alloc, out, names, locals, postfixes.as_slice())
        }
        Expr::Atom(value) => write_atom(out, value),
        Expr::Variable(number) => write_word(out, variable_name(names, locals, *number)),
        Expr::Client(number) => write_word(out, declared_name(names, *number)),
        Expr::Array(items) => write_list(alloc, out, names, locals, items.as_slice()),
        Expr::Object(props) => write_object(alloc, out, names, locals, props.as_slice()),
        Expr::Map(pairs) => {
            write_word(out, "map")?;
            write_entries(alloc, out, names, locals, pairs.as_slice())
        }
        Expr::Set(items) => {
            write_word(out, "set")?;
            write_list(alloc, out, names, locals, items.as_slice())
        }
        Expr::Source(name) => write_named(out, "use", name),
        Expr::Promise(name) => write_named(out, "promise", name),
        Expr::Stream(name) => write_named(out, "stream", name),
        Expr::Action { action, bound } => {
            write_two(out, "action", declared_name(names, *action))?;
            match bound {
                None => Ok(()),
                Some(bound) => {
                    write_word(out, "with")?;
                    write_list(alloc, out, names, locals, bound.as_slice())
                }
            }
        }
        Expr::Paren(inside) => {
            write_after(alloc, out, names, locals, "(", inside.get())?;
            write_word(out, ")")
        }
        Expr::Binary { op, left, right } => {
            write_after(alloc, out, names, locals, "(", left.get())?;
            write_after(alloc, out, names, locals, op_word(*op), right.get())?;
            write_word(out, ")")
        }
        Expr::Element {
            tag,
            attrs,
            children,
        } => {
            write_two(out, "<", tag_word(names, tag))?;
            write_attrs(alloc, out, names, locals, attrs.as_slice())?;
            write_ending(alloc, out, names, locals, tag, children.as_slice())
        }
    }
}

/// Appends a word and a name.
fn write_named(out: &mut String, keyword: &str, name: &Text) -> Result<(), Memory>
    ensures { OnOk result (string_bytes out.new ≡ string_bytes out.old ++ (word keyword.now ++ word name.now)) }
{
    write_two(out, keyword, name.as_str())
}

/// Appends two words.
fn write_two(out: &mut String, first: &str, second: &str) -> Result<(), Memory>
    ensures { OnOk result (string_bytes out.new ≡ string_bytes out.old ++ (word first.now ++ word second.now)) }
{
    write_word(out, first)?;
    write_word(out, second)
}

/// Appends a word and an expression.
#[cycle(print)]
fn write_after<'a>(
    alloc: Global,
    out: &mut String,
    names: &Names<'a>,
    locals: &[&'a Text],
    before: &str,
    expr: &'a Expr,
) -> Result<(), Memory>
    ensures { OnOk result (string_bytes out.new ≡ string_bytes out.old ++ (word before.now ++ term_text (declared_names names.now.declared.now) (scope_of names.now locals.now) (term expr.now))) }
{
    write_word(out, before)?;
    write_expr(alloc, out, names, locals, expr)
}

/// Appends the name of a variable, a word, and what it stands for or goes over.
#[cycle(print)]
fn write_local<'a>(
    alloc: Global,
    out: &mut String,
    names: &Names<'a>,
    locals: &[&'a Text],
    name: &'a Text,
    between: &str,
    value: &'a Expr,
) -> Result<(), Memory>
    ensures { OnOk result (string_bytes out.new ≡ string_bytes out.old ++ (word name.now ++ (word between.now ++ term_text (declared_names names.now.declared.now) (scope_of names.now locals.now) (term value.now)))) }
{
    write_word(out, name.as_str())?;
    write_word(out, between)?;
    write_expr(alloc, out, names, locals, value)
}

/// Appends a word, and an expression with one variable more in scope.
#[cycle(print)]
fn write_inner<'a>(
    alloc: Global,
    out: &mut String,
    names: &Names<'a>,
    locals: &[&'a Text],
    before: &str,
    name: &'a Text,
    expr: &'a Expr,
) -> Result<(), Memory>
    ensures { OnOk result (string_bytes out.new ≡ string_bytes out.old ++ (word before.now ++ term_text (declared_names names.now.declared.now) (scope_of names.now locals.now ++ name.now ∷ []) (term expr.now))) }
{
    let inner = with_local(alloc, locals, name)?;
    write_after(alloc, out, names, inner.as_slice(), before, expr)
}

/// Appends postfixes.
#[cycle(print)]
fn write_postfixes<'a>(
    alloc: Global,
    out: &mut String,
    names: &Names<'a>,
    locals: &[&'a Text],
    postfixes: &'a [Postfix],
) -> Result<(), Memory>
    ensures { OnOk result (string_bytes out.new ≡ string_bytes out.old ++ posts_text (declared_names names.now.declared.now) (scope_of names.now locals.now) (map post postfixes.now)) }
{
    for postfix in postfixes {
        write_postfix(alloc, out, names, locals, postfix)?;
    }
    Ok(())
}

/// Appends a postfix.
#[cycle(print)]
fn write_postfix<'a>(
    alloc: Global,
    out: &mut String,
    names: &Names<'a>,
    locals: &[&'a Text],
    postfix: &'a Postfix,
) -> Result<(), Memory>
    ensures { OnOk result (string_bytes out.new ≡ string_bytes out.old ++ post_text (declared_names names.now.declared.now) (scope_of names.now locals.now) (post postfix.now)) }
{
    match postfix {
        Postfix::Member(name) => write_named(out, ".", name),
        Postfix::Index(at) => {
            write_after(alloc, out, names, locals, "[", at)?;
            write_word(out, "]")
        }
    }
}

/// Appends expressions with commas between, in brackets.
#[cycle(print)]
fn write_list<'a>(
    alloc: Global,
    out: &mut String,
    names: &Names<'a>,
    locals: &[&'a Text],
    items: &'a [Expr],
) -> Result<(), Memory>
    ensures { OnOk result (string_bytes out.new ≡ string_bytes out.old ++ bracketed (terms_text (declared_names names.now.declared.now) (scope_of names.now locals.now) false (terms_of (map term items.now)))) }
{
    write_word(out, "[")?;
    write_items(alloc, out, names, locals, items)?;
    write_word(out, "]")
}

/// Appends expressions with commas between.
#[cycle(print)]
fn write_items<'a>(
    alloc: Global,
    out: &mut String,
    names: &Names<'a>,
    locals: &[&'a Text],
    items: &'a [Expr],
) -> Result<(), Memory>
    ensures { OnOk result (string_bytes out.new ≡ string_bytes out.old ++ terms_text (declared_names names.now.declared.now) (scope_of names.now locals.now) false (terms_of (map term items.now))) }
{
    for (at, item) in items.iter().enumerate() {
        write_comma(out, at > 0)?;
        write_expr(alloc, out, names, locals, item)?;
    }
    Ok(())
}

/// Appends an object.
#[cycle(print)]
fn write_object<'a>(
    alloc: Global,
    out: &mut String,
    names: &Names<'a>,
    locals: &[&'a Text],
    props: &'a [PropExpr],
) -> Result<(), Memory>
    ensures { OnOk result (string_bytes out.new ≡ string_bytes out.old ++ braced (props_text (declared_names names.now.declared.now) (scope_of names.now locals.now) false (props_of (map prop props.now)))) }
{
    write_word(out, "{")?;
    write_props(alloc, out, names, locals, props)?;
    write_word(out, "}")
}

/// Appends properties with commas between.
#[cycle(print)]
fn write_props<'a>(
    alloc: Global,
    out: &mut String,
    names: &Names<'a>,
    locals: &[&'a Text],
    props: &'a [PropExpr],
) -> Result<(), Memory>
    ensures { OnOk result (string_bytes out.new ≡ string_bytes out.old ++ props_text (declared_names names.now.declared.now) (scope_of names.now locals.now) false (props_of (map prop props.now))) }
{
    for (at, prop) in props.iter().enumerate() {
        write_comma(out, at > 0)?;
        write_prop(alloc, out, names, locals, prop)?;
    }
    Ok(())
}

/// Appends a property.
#[cycle(print)]
fn write_prop<'a>(
    alloc: Global,
    out: &mut String,
    names: &Names<'a>,
    locals: &[&'a Text],
    one: &'a PropExpr,
) -> Result<(), Memory>
    ensures { OnOk result (string_bytes out.new ≡ string_bytes out.old ++ prop_text (declared_names names.now.declared.now) (scope_of names.now locals.now) (prop one.now)) }
{
    write_literal(out, &one.name)?;
    write_after(alloc, out, names, locals, ":", &one.value)
}

/// Appends the entries of a map with commas between, in brackets.
#[cycle(print)]
fn write_entries<'a>(
    alloc: Global,
    out: &mut String,
    names: &Names<'a>,
    locals: &[&'a Text],
    pairs: &'a [PairExpr],
) -> Result<(), Memory>
    ensures { OnOk result (string_bytes out.new ≡ string_bytes out.old ++ bracketed (pairs_text (declared_names names.now.declared.now) (scope_of names.now locals.now) false (pairs_of (map pair pairs.now)))) }
{
    write_word(out, "[")?;
    write_pairs(alloc, out, names, locals, pairs)?;
    write_word(out, "]")
}

/// Appends the entries of a map with commas between.
#[cycle(print)]
fn write_pairs<'a>(
    alloc: Global,
    out: &mut String,
    names: &Names<'a>,
    locals: &[&'a Text],
    pairs: &'a [PairExpr],
) -> Result<(), Memory>
    ensures { OnOk result (string_bytes out.new ≡ string_bytes out.old ++ pairs_text (declared_names names.now.declared.now) (scope_of names.now locals.now) false (pairs_of (map pair pairs.now))) }
{
    for (at, pair) in pairs.iter().enumerate() {
        write_comma(out, at > 0)?;
        write_pair(alloc, out, names, locals, pair)?;
    }
    Ok(())
}

/// Appends an entry of a map.
#[cycle(print)]
fn write_pair<'a>(
    alloc: Global,
    out: &mut String,
    names: &Names<'a>,
    locals: &[&'a Text],
    one: &'a PairExpr,
) -> Result<(), Memory>
    ensures { OnOk result (string_bytes out.new ≡ string_bytes out.old ++ pair_text (declared_names names.now.declared.now) (scope_of names.now locals.now) (pair one.now)) }
{
    write_after(alloc, out, names, locals, "[", &one.key)?;
    write_after(alloc, out, names, locals, ",", &one.value)?;
    write_word(out, "]")
}

/// Appends attributes.
#[cycle(print)]
fn write_attrs<'a>(
    alloc: Global,
    out: &mut String,
    names: &Names<'a>,
    locals: &[&'a Text],
    attrs: &'a [PropExpr],
) -> Result<(), Memory>
    ensures { OnOk result (string_bytes out.new ≡ string_bytes out.old ++ attrs_text (declared_names names.now.declared.now) (scope_of names.now locals.now) (props_of (map prop attrs.now))) }
{
    for attr in attrs {
        write_attr(alloc, out, names, locals, attr)?;
    }
    Ok(())
}

/// Appends an attribute.
#[cycle(print)]
fn write_attr<'a>(
    alloc: Global,
    out: &mut String,
    names: &Names<'a>,
    locals: &[&'a Text],
    attr: &'a PropExpr,
) -> Result<(), Memory>
    ensures { OnOk result (string_bytes out.new ≡ string_bytes out.old ++ attr_text (declared_names names.now.declared.now) (scope_of names.now locals.now) (prop attr.now)) }
{
    out.push_str(attr.name.as_str())?;
    write_word(out, "=")?;
    write_given(alloc, out, names, locals, &attr.value)
}

/// Appends the value of an attribute.
#[cycle(print)]
fn write_given<'a>(
    alloc: Global,
    out: &mut String,
    names: &Names<'a>,
    locals: &[&'a Text],
    value: &'a Expr,
) -> Result<(), Memory>
    ensures { OnOk result (string_bytes out.new ≡ string_bytes out.old ++ given_text (shape_of (term value.now)) (term_text (declared_names names.now.declared.now) (scope_of names.now locals.now) (term value.now))) }
{
    match shape_of(value) {
        Shape::Bare(text) => write_literal(out, text),
        Shape::Element | Shape::Other => write_braced(alloc, out, names, locals, value),
    }
}

/// Appends an expression in braces.
#[cycle(print)]
fn write_braced<'a>(
    alloc: Global,
    out: &mut String,
    names: &Names<'a>,
    locals: &[&'a Text],
    value: &'a Expr,
) -> Result<(), Memory>
    ensures { OnOk result (string_bytes out.new ≡ string_bytes out.old ++ braced (term_text (declared_names names.now.declared.now) (scope_of names.now locals.now) (term value.now))) }
{
    write_after(alloc, out, names, locals, "{", value)?;
    write_word(out, "}")
}

/// Appends the end of an element: its children and its closing tag, where it has children.
#[cycle(print)]
fn write_ending<'a>(
    alloc: Global,
    out: &mut String,
    names: &Names<'a>,
    locals: &[&'a Text],
    tag: &'a Tag,
    children: &'a [Expr],
) -> Result<(), Memory>
    ensures { OnOk result (string_bytes out.new ≡ string_bytes out.old ++ ending_text (declared_names names.now.declared.now) (scope_of names.now locals.now) tag.now (terms_of (map term children.now))) }
{
    if children.is_empty() {
        return write_word(out, "/>");
    }
    write_word(out, ">")?;
    write_children(alloc, out, names, locals, children)?;
    write_two(out, "</", tag_word(names, tag))?;
    write_word(out, ">")
}

/// Appends children.
#[cycle(print)]
fn write_children<'a>(
    alloc: Global,
    out: &mut String,
    names: &Names<'a>,
    locals: &[&'a Text],
    children: &'a [Expr],
) -> Result<(), Memory>
    ensures { OnOk result (string_bytes out.new ≡ string_bytes out.old ++ children_text (declared_names names.now.declared.now) (scope_of names.now locals.now) (terms_of (map term children.now))) }
{
    for child in children {
        write_child(alloc, out, names, locals, child)?;
    }
    Ok(())
}

/// Appends a child.
#[cycle(print)]
fn write_child<'a>(
    alloc: Global,
    out: &mut String,
    names: &Names<'a>,
    locals: &[&'a Text],
    child: &'a Expr,
) -> Result<(), Memory>
    ensures { OnOk result (string_bytes out.new ≡ string_bytes out.old ++ child_text (shape_of (term child.now)) (term_text (declared_names names.now.declared.now) (scope_of names.now locals.now) (term child.now))) }
{
    match shape_of(child) {
        Shape::Bare(text) => write_literal(out, text),
        Shape::Element => write_expr(alloc, out, names, locals, child),
        Shape::Other => write_braced(alloc, out, names, locals, child),
    }
}
