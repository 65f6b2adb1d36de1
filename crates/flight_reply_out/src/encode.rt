ghost use Rattle.std.specs.Prelude.{◌≡◌, IfOk, IfErr};
ghost use Rattle.flight_value.specs.Graph.{IsValid};
ghost use Rattle.flight_graph.specs.Canon.{canon_of};
ghost use Rattle.flight_reply_out.specs.Sent.{IsSent, IsRefusal};
ghost use Rattle.flight_reply_out.specs.Fields.{fields_of};

use crate::fault::ReplyOut;
use crate::field::write_fields;
use crate::origin::origins;
use crate::plan::homes;
use crate::sent::{first_unsent, is_sent_slot};
use crate::write::Drawn;
use flight_graph::canon;
use flight_payload::PayloadWriter;
use flight_reply::Field;
use flight_value::{Graph, List, Memory};
use std::alloc::Global;

/// The fields that a valid graph is sent as: field 0, and then the parts in the order of their numbers. It is refused
/// exactly where something in it can't be sent: in the root's slot, or else in the least node of the canon.
pub fn encode_reply(alloc: Global, graph: &Graph) -> Result<List<Field>, ReplyOut>
    requires { IsValid graph.now }
    ensures sent { IfOk result (λ fields. IsSent (canon_of graph.now)) }
    ensures fields { IfOk result (λ fields. fields ≡ fields_of (canon_of graph.now)) }
    ensures refused { IfErr result (IsRefusal (canon_of graph.now)) }
{
    let canon = canon(alloc, graph)?;
    encode_canon(alloc, &canon)
}

/// The fields of a canon.
fn encode_canon(alloc: Global, canon: &Graph) -> Result<List<Field>, ReplyOut>
    requires { IsValid canon.now }
    ensures sent { IfOk result (λ fields. IsSent canon.now) }
    ensures fields { IfOk result (λ fields. fields ≡ fields_of canon.now) }
    ensures refused { IfErr result (IsRefusal canon.now) }
{
    if !is_sent_slot(&canon.root) {
        return Err(ReplyOut::NotSendable { node: None });
    }
    if let Some(n) = first_unsent(canon.nodes.as_slice()) {
        return Err(ReplyOut::NotSendable {
            node: Some(n as u32),
        });
    }
    Ok(sent_fields(alloc, canon)?)
}

/// The fields of a canon that can be sent.
fn sent_fields(alloc: Global, canon: &Graph) -> Result<List<Field>, Memory>
    requires valid { IsValid canon.now }
    requires sent { IsSent canon.now }
    ensures { IfOk result (λ fields. fields ≡ fields_of canon.now) }
{
    let nodes = canon.nodes.as_slice();
    let mut out = PayloadWriter::new(alloc);
    let origins = origins(alloc, nodes)?;
    let homes = homes(alloc, &mut out, nodes, origins.as_slice())?;
    let drawn = Drawn {
        nodes,
        origins: origins.as_slice(),
        homes: homes.as_slice(),
    };
    write_fields(alloc, &mut out, drawn, &canon.root)
}
