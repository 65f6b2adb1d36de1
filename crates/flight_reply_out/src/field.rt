ghost use Rattle.std.specs.Prelude.{◌≡◌, ◌++◌, ◌∷◌, [], ◌<◌, length, IfOk, OnOk};
ghost use Rattle.json.specs.Print.{print};
ghost use Rattle.flight_reply_out.specs.Fields.{token_fields, value_fields, node_fields, fields_under};
ghost use Rattle.flight_reply_out.specs.Known.{IsGoodSlot, IsGoodNode};
ghost use Rattle.flight_reply_out.specs.Drawn.{IsDrawn};

use crate::home::{Home, has_entries};
use crate::write::{Drawn, write_in_place, write_slot, write_value};
use flight_payload::PayloadWriter;
use flight_reply::Field;
use flight_value::{List, Memory, Node, Slot};
use std::alloc::Global;

/// How many nodes may stand in one another in place.
const LEVELS: u32 = 40;

/// The fields of a canon whose homes are known: the root, and then the parts of each node.
pub fn write_fields(
    alloc: Global,
    out: &mut PayloadWriter,
    drawn: Drawn<'_>,
    root: &Slot,
) -> Result<List<Field>, Memory>
    requires drawn { IsDrawn drawn }
    requires good { IsGoodSlot (length drawn.nodes.now) root.now }
    requires empty { out.old ≡ [] }
    ensures { IfOk result (λ fields. fields ≡ fields_under drawn.entry.nodes.now drawn.entry.homes.now root.now) }
{
    let mut fields = Vec::new(alloc);
    write_slot(alloc, out, drawn, LEVELS, None, root)?;
    push_field(&mut fields, 0, out)?;
    for n in 0..drawn.nodes.len() {
        push_parts(alloc, &mut fields, out, drawn, n)?;
    }
    Ok(List::new(fields))
}

/// Appends the parts of a node.
fn push_parts(
    alloc: Global,
    fields: &mut Vec<Field>,
    out: &mut PayloadWriter,
    drawn: Drawn<'_>,
    n: usize,
) -> Result<(), Memory>
    requires drawn { IsDrawn drawn }
    requires within { n < length drawn.nodes.now }
    requires empty { out.old ≡ [] }
    ensures fields { OnOk result (fields.new.items ≡ fields.old.items ++ node_fields drawn.entry.nodes.now drawn.entry.homes.now n) }
    ensures empty { OnOk result (out.new ≡ []) }
{
    let node = &drawn.nodes[n];
    let home = &drawn.homes[n];
    push_token(alloc, fields, out, drawn, n, home, node)?;
    push_value(alloc, fields, out, drawn, n, home, node)
}

/// Appends the part that holds the token of a Map or a Set, if it has one.
fn push_token(
    alloc: Global,
    fields: &mut Vec<Field>,
    out: &mut PayloadWriter,
    drawn: Drawn<'_>,
    n: usize,
    home: &Home,
    node: &Node,
) -> Result<(), Memory>
    requires drawn { IsDrawn drawn }
    requires good { IsGoodNode (length drawn.nodes.now) node.now }
    requires empty { out.old ≡ [] }
    ensures fields { OnOk result (fields.new.items ≡ fields.old.items ++ token_fields drawn.entry.nodes.now drawn.entry.homes.now n home.now node.now) }
    ensures empty { OnOk result (out.new ≡ []) }
{
    if !has_entries(node) || !home.apart {
        return Ok(());
    }
    write_in_place(alloc, out, drawn, LEVELS, n, home, node)?;
    push_field(fields, home.place.id, out)
}

/// Appends the part that holds what is in a node, if it has one.
fn push_value(
    alloc: Global,
    fields: &mut Vec<Field>,
    out: &mut PayloadWriter,
    drawn: Drawn<'_>,
    n: usize,
    home: &Home,
    node: &Node,
) -> Result<(), Memory>
    requires drawn { IsDrawn drawn }
    requires good { IsGoodNode (length drawn.nodes.now) node.now }
    requires empty { out.old ≡ [] }
    ensures fields { OnOk result (fields.new.items ≡ fields.old.items ++ value_fields drawn.entry.nodes.now drawn.entry.homes.now n home.now node.now) }
    ensures empty { OnOk result (out.new ≡ []) }
{
    if !has_entries(node) && !home.apart {
        return Ok(());
    }
    write_value(alloc, out, drawn, LEVELS, n, node)?;
    push_field(fields, home.content, out)
}

/// Appends a part with what was written.
fn push_field(fields: &mut Vec<Field>, name: u32, out: &mut PayloadWriter) -> Result<(), Memory>
    ensures fields { OnOk result (fields.new.items ≡ fields.old.items ++ record { name = name; value = print out.old } ∷ []) }
    ensures empty { OnOk result (out.new ≡ []) }
{
    let value = out.take_text()?;
    fields.push(Field { name, value })?;
    Ok(())
}
