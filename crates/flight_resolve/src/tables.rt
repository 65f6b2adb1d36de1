ghost use Rattle.std.specs.Prelude.{◌≡◌, IfOk, OnOk, List, ℕ, Some, map, cond};
ghost use Rattle.std.specs.Str.{bytes_eq};
ghost use Rattle.std.specs.HashMap.{get};
ghost use Rattle.flight_syntax.specs.Scope.{number_of};
ghost use Rattle.flight_parse.specs.Declarations.{declaration_of};
ghost use Rattle.flight_resolve.specs.Names.{Knows, AreTables, is_kind};

use flight_parse::Declaration;
use flight_value::{Memory, Text};
use std::alloc::Global;
use std::collections::HashMap;

/// What a declaration declares.
#[derive(Clone, Copy)]
pub enum Kind {
    Server,
    Client,
    Action,
}

/// Where the components and the actions are declared, by their names: the position of the first declaration of each,
/// from 0.
#[derive(Drop)]
pub struct Tables {
    pub servers: HashMap<Text, u32>,
    pub clients: HashMap<Text, u32>,
    pub actions: HashMap<Text, u32>,
}

/// The tables of declarations.
pub fn tables_of(alloc: Global, declared: &[Declaration]) -> Result<Tables, Memory>
    ensures { IfOk result (λ tables. AreTables tables (map declaration_of declared.now)) }
{
    let servers = numbers(alloc, declared, Kind::Server)?;
    let clients = numbers(alloc, declared, Kind::Client)?;
    let actions = numbers(alloc, declared, Kind::Action)?;
    Ok(Tables {
        servers,
        clients,
        actions,
    })
}

/// Where the declarations of one kind stand, the first of each name. They are met from the last to the first.
fn numbers(
    alloc: Global,
    declared: &[Declaration],
    kind: Kind,
) -> Result<HashMap<Text, u32>, Memory>
    ensures { IfOk result (λ numbers. Knows numbers (λ q. number_of (is_kind kind q) (map declaration_of declared.now))) }
{
    let mut numbers = HashMap::new(alloc);
    let mut at = declared.len();
    while at > 0 {
        at -= 1;
        meet(&mut numbers, kind, &declared[at], at)?;
    }
    Ok(numbers)
}

/// A declaration takes the place of a later one of its name.
fn meet(
    numbers: &mut HashMap<Text, u32>,
    kind: Kind,
    declaration: &Declaration,
    at: usize,
) -> Result<(), Memory>
    ensures { OnOk result ((q : List ℕ) → get bytes_eq numbers.new q ≡ cond (is_kind kind q (declaration_of declaration.now)) (Some at) (get bytes_eq numbers.old q)) }
{
    match (kind, declaration) {
        (Kind::Server, Declaration::Server { name, .. }) => put(numbers, &name.bytes, at),
        (Kind::Client, Declaration::Client { name, .. }) => put(numbers, &name.bytes, at),
        (Kind::Action, Declaration::Action { name, .. }) => put(numbers, &name.bytes, at),
        _ => Ok(()),
    }
}

/// A name gets a number.
pub fn put(numbers: &mut HashMap<Text, u32>, name: &Text, number: usize) -> Result<(), Memory>
    ensures { OnOk result ((q : List ℕ) → get bytes_eq numbers.new q ≡ cond (bytes_eq name.now q) (Some number) (get bytes_eq numbers.old q)) }
{
    let Ok(number) = u32::try_from(number) else {
        return Err(Memory::past_limit());
    };
    numbers.insert(name.clone()?, number)?;
    Ok(())
}

/// The number of a name.
pub fn find(numbers: &HashMap<Text, u32>, name: &Text) -> Option<u32>
    ensures { result ≡ get bytes_eq numbers.now name.now }
{
    numbers.get(name).copied()
}
