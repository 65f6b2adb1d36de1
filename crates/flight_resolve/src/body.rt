ghost use Rattle.std.specs.Prelude.{◌≡◌, ◌+◌, ◌++◌, ◌∷◌, [], ℕ, List, IfOk, OnOk, length, map};
ghost use Rattle.flight_parse.specs.Code.{placed};
ghost use Rattle.flight_resolve.specs.Names.{Knows, IsKnown, variable_number, names_of};

use crate::tables::{Tables, find, put};
use flight_parse::{Declaration, Name};
use flight_value::{Memory, Text};
use std::alloc::Global;
use std::collections::HashMap;

/// What the names in the body of a declaration are looked up in.
#[derive(Drop)]
pub struct Body<'a> {
    pub declared: &'a [Declaration],
    pub tables: &'a Tables,
    pub params: &'a [Name],
    /// The parameters by their names, of two with one name the later.
    pub numbers: &'a HashMap<Text, u32>,
}

/// The positions of parameters by their names, of two with one name the later.
pub fn positions(alloc: Global, params: &[Name]) -> Result<HashMap<Text, u32>, Memory>
    ensures { IfOk result (λ numbers. Knows numbers (variable_number (map (λ n. n.bytes) params.now))) }
{
    let mut numbers = HashMap::new(alloc);
    for (at, name) in params.iter().enumerate() {
        add(&mut numbers, at, &name.bytes)?;
    }
    Ok(numbers)
}

/// One parameter more.
fn add(numbers: &mut HashMap<Text, u32>, at: usize, name: &Text) -> Result<(), Memory>
    ensures { (params : List (List ℕ)) → Knows numbers.old (variable_number params) → at ≡ length params → OnOk result (Knows numbers.new (variable_number (params ++ name.now ∷ []))) }
{
    put(numbers, name, at)
}

/// The number of the innermost variable of a name: the parameters from 0, then the locals.
pub fn variable(body: &Body<'_>, locals: &[&Name], name: &Text) -> Result<Option<u32>, Memory>
    requires { IsKnown body.now }
    ensures { IfOk result (λ number. number ≡ variable_number (names_of body.now locals.now) name.now) }
{
    let inner = local(locals, name);
    let outer = find(body.numbers, name);
    among(body.params.len(), inner, outer)
}

/// The number of a variable, by where it stands among the locals, or by its number among so many parameters.
#[tactic(auto, using(crate::proofs::Scopes::number_outside))]
fn among(params: usize, inner: Option<usize>, outer: Option<u32>) -> Result<Option<u32>, Memory>
    ensures { (before locals : List (List ℕ)) (q : List ℕ) → params ≡ length before → inner ≡ variable_number locals q → outer ≡ variable_number before q
        → IfOk result (λ number. number ≡ variable_number (before ++ locals) q) }
{
    let Some(at) = inner else {
        return Ok(outer);
    };
    let number = sum(at, params)?;
    Ok(Some(number))
}

/// The sum of two positions.
fn sum(at: usize, before: usize) -> Result<u32, Memory>
    ensures { IfOk result (λ number. number ≡ at + before) }
{
    let Some(number) = at.checked_add(before) else {
        return Err(Memory::past_limit());
    };
    match u32::try_from(number) {
        Ok(number) => Ok(number),
        Err(_) => Err(Memory::past_limit()),
    }
}

/// Where the innermost local of a name stands.
fn local(locals: &[&Name], name: &Text) -> Option<usize>
    ensures { result ≡ variable_number (map (λ n. n.now.bytes) locals.now) name.now }
{
    let mut found = None;
    for (at, local) in locals.iter().enumerate() {
        found = later(found, at, *local, name);
    }
    found
}

/// Where the innermost local of a name stands, with one local more.
#[tactic(auto, using(crate::proofs::Scopes::last_found, crate::proofs::Scopes::last_other))]
fn later(found: Option<usize>, at: usize, local: &Name, name: &Text) -> Option<usize>
    ensures { (locals : List (List ℕ)) → found ≡ variable_number locals name.now → at ≡ length locals → result ≡ variable_number (locals ++ local.now.bytes ∷ []) name.now }
{
    if local.bytes == *name {
        Some(at)
    } else {
        found
    }
}

/// One local more, inside the others.
pub fn with_local<'a>(
    alloc: Global,
    locals: &[&'a Name],
    name: &'a Name,
) -> Result<Vec<&'a Name>, Memory>
    ensures bytes { IfOk result (λ more. map (λ n. n.now.bytes) more.items ≡ map (λ n. n.now.bytes) locals.now ++ name.now.bytes ∷ []) }
    ensures placed { IfOk result (λ more. map (λ n. placed n.now) more.items ≡ map (λ n. placed n.now) locals.now ++ placed name.now ∷ []) }
{
    let mut more = Vec::with_capacity(alloc, locals.len())?;
    for local in locals {
        more.push(*local)?;
    }
    more.push(name)?;
    Ok(more)
}
