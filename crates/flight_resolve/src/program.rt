ghost use Rattle.std.specs.Prelude.{◌≡◌, ◌++◌, ◌∷◌, ◌||◌, [], IfOk, List, map, option_map};
ghost use Rattle.std.specs.List.{AllZip};
ghost use Rattle.flight_syntax.specs.Tree as tree;
ghost use Rattle.flight_syntax.specs.Faults as faults;
ghost use Rattle.flight_syntax.specs.Meaning.{meaning};
ghost use Rattle.flight_syntax.specs.Term.{term};
ghost use Rattle.flight_syntax.specs.Derives.{said, bytes_of};
ghost use Rattle.flight_parse.specs.Code.{placed, tree_of};
ghost use Rattle.flight_parse.specs.Declarations.{declaration_of};
ghost use Rattle.flight_resolve.specs.Names.{AreTables, IsFirst};
ghost use Rattle.flight_resolve.specs.Kept.{IsKept};
ghost use Rattle.flight_resolve.specs.Seen.{with_some};

use crate::body::{Body, positions};
use crate::faults::in_tree;
use crate::import::compact;
use crate::meaning::expr_of;
use crate::name_fault::{NameFault, first_of};
use crate::repeated::repeated;
use crate::tables::Tables;
use flight_parse::{Declaration, Name, Tree};
use flight_syntax::{Declared, Expr, Program};
use flight_value::{List, Memory, Text};
use std::alloc::Global;

/// The first fault of a program's names.
pub fn first_fault(
    alloc: Global,
    declared: &[Declaration],
    tables: &Tables,
) -> Result<Option<NameFault>, Memory>
    requires { AreTables tables.now (map declaration_of declared.now) }
    ensures { IfOk result (λ fault. IsFirst fault (faults.program_faults (map declaration_of declared.now))) }
{
    let components = components_twice(alloc, declared)?;
    let actions = actions_twice(alloc, declared)?;
    let bodies = in_declarations(alloc, declared, tables)?;
    Ok(first_of(components, first_of(actions, bodies)))
}

/// The first component whose name another has before it.
fn components_twice(alloc: Global, declared: &[Declaration]) -> Result<Option<NameFault>, Memory>
    ensures { IfOk result (λ fault. IsFirst fault (faults.repeated [] (faults.components (map declaration_of declared.now)))) }
{
    let names = components(alloc, declared)?;
    repeated(alloc, names.as_slice())
}

/// The first action whose name another has before it.
fn actions_twice(alloc: Global, declared: &[Declaration]) -> Result<Option<NameFault>, Memory>
    ensures { IfOk result (λ fault. IsFirst fault (faults.repeated [] (faults.actions (map declaration_of declared.now)))) }
{
    let names = actions(alloc, declared)?;
    repeated(alloc, names.as_slice())
}

/// The names of the components.
fn components(alloc: Global, declared: &[Declaration]) -> Result<Vec<&Name>, Memory>
    ensures { IfOk result (λ names. map (λ n. placed n.now) names.items ≡ faults.components (map declaration_of declared.now)) }
{
    let mut names = Vec::new(alloc);
    for declaration in declared {
        if let Some(name) = component(declaration) {
            names.push(name)?;
        }
    }
    Ok(names)
}

/// The name of a component.
fn component(declaration: &Declaration) -> Option<&Name>
    ensures { (rest : List tree.Declaration) → faults.components (declaration_of declaration.now ∷ rest) ≡ with_some (option_map (λ n. placed n.now) result) (faults.components rest) }
{
    match declaration {
        Declaration::Server { name, .. } | Declaration::Client { name, .. } => Some(name),
        Declaration::Action { .. } => None,
    }
}

/// The names of the actions.
fn actions(alloc: Global, declared: &[Declaration]) -> Result<Vec<&Name>, Memory>
    ensures { IfOk result (λ names. map (λ n. placed n.now) names.items ≡ faults.actions (map declaration_of declared.now)) }
{
    let mut names = Vec::new(alloc);
    for declaration in declared {
        if let Some(name) = action(declaration) {
            names.push(name)?;
        }
    }
    Ok(names)
}

/// The name of an action.
fn action(declaration: &Declaration) -> Option<&Name>
    ensures { (rest : List tree.Declaration) → faults.actions (declaration_of declaration.now ∷ rest) ≡ with_some (option_map (λ n. placed n.now) result) (faults.actions rest) }
{
    match declaration {
        Declaration::Action { name, .. } => Some(name),
        Declaration::Server { .. } | Declaration::Client { .. } => None,
    }
}

/// The first fault in the declarations themselves.
fn in_declarations(
    alloc: Global,
    declared: &[Declaration],
    tables: &Tables,
) -> Result<Option<NameFault>, Memory>
    requires { AreTables tables.now (map declaration_of declared.now) }
    ensures { IfOk result (λ fault. IsFirst fault (faults.each_faults (map declaration_of declared.now) (map declaration_of declared.now))) }
{
    let mut first = None;
    for declaration in declared {
        let fault = in_declaration(alloc, declared, tables, declaration)?;
        first = first_of(first, fault);
    }
    Ok(first)
}

/// The first fault in a declaration.
fn in_declaration(
    alloc: Global,
    declared: &[Declaration],
    tables: &Tables,
    declaration: &Declaration,
) -> Result<Option<NameFault>, Memory>
    requires { AreTables tables.now (map declaration_of declared.now) }
    ensures { IfOk result (λ fault. IsFirst fault (faults.declaration_faults (map declaration_of declared.now) (declaration_of declaration.now))) }
{
    match declaration {
        Declaration::Server { params, body, .. } | Declaration::Action { params, body, .. } => {
            in_body(alloc, declared, tables, params.as_slice(), body)
        }
        Declaration::Client { .. } => Ok(None),
    }
}

/// The first fault in parameters and the body under them.
fn in_body(
    alloc: Global,
    declared: &[Declaration],
    tables: &Tables,
    params: &[Name],
    tree: &Tree,
) -> Result<Option<NameFault>, Memory>
    requires { AreTables tables.now (map declaration_of declared.now) }
    ensures { IfOk result (λ fault. IsFirst fault (faults.repeated [] (map placed params.now) ++ faults.faults (map declaration_of declared.now) (map placed params.now) (tree_of tree.now))) }
{
    let twice = params_twice(alloc, params)?;
    let numbers = positions(alloc, params)?;
    let body = Body {
        declared,
        tables,
        params,
        numbers: &numbers,
    };
    let locals = Vec::new(alloc);
    let fault = in_tree(alloc, &body, locals.as_slice(), tree)?;
    Ok(first_of(twice, fault))
}

/// The first parameter whose name another has before it.
fn params_twice(alloc: Global, params: &[Name]) -> Result<Option<NameFault>, Memory>
    ensures { IfOk result (λ fault. IsFirst fault (faults.repeated [] (map placed params.now))) }
{
    let names = references(alloc, params)?;
    repeated(alloc, names.as_slice())
}

/// Names, each behind a reference.
fn references(alloc: Global, names: &[Name]) -> Result<Vec<&Name>, Memory>
    ensures { IfOk result (λ out. map (λ n. placed n.now) out.items ≡ map placed names.now) }
{
    let out = each(alloc, names)?;
    Ok(out)
}

/// Each name behind a reference.
fn each(alloc: Global, names: &[Name]) -> Result<Vec<&Name>, Memory>
    ensures { IfOk result (λ out. map (λ n. n.now) out.items ≡ names.now) }
{
    let mut out = Vec::with_capacity(alloc, names.len())?;
    for name in names {
        out.push(name)?;
    }
    Ok(out)
}

/// Whether a server component is named `App`.
pub fn has_app(declared: &[Declaration]) -> bool
    ensures { result ≡ faults.has_app (map declaration_of declared.now) }
{
    for declaration in declared {
        if is_app(declaration) {
            return true;
        }
    }
    false
}

/// Whether a declaration is a server component named `App`.
fn is_app(declaration: &Declaration) -> bool
    ensures { (rest : List tree.Declaration) → faults.has_app (declaration_of declaration.now ∷ rest) ≡ result || faults.has_app rest }
{
    match declaration {
        Declaration::Server { name, .. } => name.bytes.as_str() == "App",
        Declaration::Client { .. } | Declaration::Action { .. } => false,
    }
}

/// The program that declarations are.
pub fn program(alloc: Global, declared: &[Declaration], tables: &Tables) -> Result<Program, Memory>
    requires { AreTables tables.now (map declaration_of declared.now) }
    ensures { IfOk result (λ program. AllZip (IsKept (map declaration_of declared.now)) (map declaration_of declared.now) (map said program.declared)) }
{
    let mut kept = Vec::with_capacity(alloc, declared.len())?;
    for declaration in declared {
        let declaration = declared_as(alloc, declared, tables, declaration)?;
        kept.push(declaration)?;
    }
    Ok(Program {
        declared: List::new(kept),
    })
}

/// A declaration as it is kept.
fn declared_as(
    alloc: Global,
    declared: &[Declaration],
    tables: &Tables,
    declaration: &Declaration,
) -> Result<Declared, Memory>
    requires { AreTables tables.now (map declaration_of declared.now) }
    ensures { IfOk result (λ kept. IsKept (map declaration_of declared.now) (declaration_of declaration.now) (said kept)) }
{
    match declaration {
        Declaration::Server { name, params, body } => {
            let name = name.bytes.clone()?;
            let names = texts(alloc, params.as_slice())?;
            let body = body_of(alloc, declared, tables, params.as_slice(), body)?;
            Ok(Declared::Server {
                name,
                params: names,
                body,
            })
        }
        Declaration::Client { name, import } => {
            let name = name.bytes.clone()?;
            let import = compact(alloc, import)?;
            Ok(Declared::Client { name, import })
        }
        Declaration::Action { name, params, body } => {
            let name = name.bytes.clone()?;
            let names = texts(alloc, params.as_slice())?;
            let body = body_of(alloc, declared, tables, params.as_slice(), body)?;
            Ok(Declared::Action {
                name,
                params: names,
                body,
            })
        }
    }
}

/// What a body means under its parameters.
fn body_of(
    alloc: Global,
    declared: &[Declaration],
    tables: &Tables,
    params: &[Name],
    tree: &Tree,
) -> Result<Expr, Memory>
    requires { AreTables tables.now (map declaration_of declared.now) }
    ensures { IfOk result (λ e. term e ≡ meaning (map declaration_of declared.now) (bytes_of (map placed params.now)) (tree_of tree.now)) }
{
    let numbers = positions(alloc, params)?;
    let body = Body {
        declared,
        tables,
        params,
        numbers: &numbers,
    };
    let locals = Vec::new(alloc);
    expr_of(alloc, &body, locals.as_slice(), tree)
}

/// The bytes of names.
fn texts(alloc: Global, names: &[Name]) -> Result<List<Text>, Memory>
    ensures { IfOk result (λ texts. texts ≡ bytes_of (map placed names.now)) }
{
    let mut texts = Vec::with_capacity(alloc, names.len())?;
    for name in names {
        texts.push(name.bytes.clone()?)?;
    }
    Ok(List::new(texts))
}
