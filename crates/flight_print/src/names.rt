ghost use Rattle.std.specs.Prelude.{◌≡◌, ◌++◌, ◌∷◌, [], IfOk, map};
ghost use Rattle.flight_syntax.specs.Derives.{said};
ghost use Rattle.flight_print.specs.Text.{name_at, said_name, tag_name};
ghost use Rattle.flight_print.specs.Scope.{declared_names, scope_of};

use flight_syntax::{Declared, Tag};
use flight_value::{Memory, Text};
use std::alloc::Global;

/// What the numbers in the body of a declaration name.
#[derive(Clone, Copy)]
pub struct Names<'a> {
    pub declared: &'a [Declared],
    pub params: &'a [Text],
}

/// The name of a declaration.
pub fn name_of(declared: &Declared) -> &str
    ensures { result.now ≡ said_name (said declared.now) }
{
    match declared {
        Declared::Server { name, .. }
        | Declared::Client { name, .. }
        | Declared::Action { name, .. } => name.as_str(),
    }
}

/// The name of the declaration that has the number.
pub fn declared_name<'a>(names: &Names<'a>, number: u32) -> &'a str
    ensures { result.now ≡ name_at (declared_names names.now.declared.now) number }
{
    match names.declared.get(number as usize) {
        Some(declared) => name_of(declared),
        None => "",
    }
}

/// The name of the variable that has the number: the parameters, then the locals.
pub fn variable_name<'a>(names: &Names<'a>, locals: &[&'a Text], number: u32) -> &'a str
    ensures { result.now ≡ name_at (scope_of names.now locals.now) number }
{
    let number = number as usize;
    let params = names.params.len();
    if number < params {
        names.params[number].as_str()
    } else {
        local_name(locals, number - params)
    }
}

/// The name of a local.
fn local_name<'a>(locals: &[&'a Text], at: usize) -> &'a str
    ensures { result.now ≡ name_at (map (λ n. n.now) locals.now) at }
{
    match locals.get(at) {
        Some(name) => name.as_str(),
        None => "",
    }
}

/// What a tag is called.
pub fn tag_word<'a>(names: &Names<'a>, tag: &'a Tag) -> &'a str
    ensures { result.now ≡ tag_name (declared_names names.now.declared.now) tag.now }
{
    match tag {
        Tag::Host(name) => name.as_str(),
        Tag::Server(number) | Tag::Client(number) => declared_name(names, *number),
        Tag::Suspense => "Suspense",
    }
}

/// One local more, inside the others.
pub fn with_local<'a>(
    alloc: Global,
    locals: &[&'a Text],
    name: &'a Text,
) -> Result<Vec<&'a Text>, Memory>
    ensures { IfOk result (λ more. map (λ n. n.now) more.items ≡ map (λ n. n.now) locals.now ++ name.now ∷ []) }
{
    let mut more = Vec::with_capacity(alloc, locals.len() + 1)?;
    for local in locals {
        more.push(*local)?;
    }
    more.push(name)?;
    Ok(more)
}
