ghost use Rattle.std.specs.Prelude.{map};
ghost use Rattle.std.proofs.Props.{props};
ghost use Rattle.flight_value.specs.Graph.{Ascend};

use flight_render::Ground;
use flight_syntax::Seen;
use flight_value::{List, Shared, Tables};
use std::alloc::Global;

/// Where a body is evaluated: over what, with which sources settled, at which address, with which tables, and up
/// to which cost. The sources and the streams ascend by the bytes of their names.
#[derive(Clone, Copy)]
pub struct Place<'a> {
    pub alloc: Global,
    pub over: &'a Ground,
    pub seen: &'a Seen,
    pub address: &'a Shared<List<u32>>,
    pub tables: &'a Tables,
    pub fuel: u32,
    ghost sources_ascend: { Ascend (map (λ d. d.name) over.now.script.sources) } by { Prim.hlevel props },
    ghost streams_ascend: { Ascend (map (λ f. f.name) over.now.script.streams) } by { Prim.hlevel props },
}
