// Sealing a graph: its order and places, and what can be reached from each node.
ghost use Rattle.std.specs.Prelude.{◌≡◌, length, OnOk};
ghost use Rattle.graph.specs.Model.{model, outcome};
ghost use Rattle.inst_graph.specs.Seals.{seal, seal_table, WellSealed, RefusedWell};

use crate::noting::note_reach;
use graph::raw::RawInstGraph;
use records::refusal::Refusal;
use records::stage::{Call, admit};
use subgraph::partition::subgraphs;

// Seals a graph, and tells how many subgraphs it has.
pub(crate) fn seal(graph: &mut RawInstGraph, work: &mut [bool]) -> Result<usize, Refusal>
    ensures whole { outcome result (model graph.new) ≡ seal (length work.old) (model graph.old) }
    ensures table { work.new ≡ seal_table (model graph.old) work.old }
    ensures law { OnOk result (WellSealed (model graph.old) (model graph.new)) }
    ensures refusals { RefusedWell (model graph.old) (length work.old) result }
{
    admit(graph.stage(), Call::Seal)?;
    let parts = subgraphs(graph, work)?;
    let count = graph.nodes().len();
    graph.seal_in_order(&parts.places[..count], parts.topo_node_indices());
    note_reach(graph, work);
    Ok(parts.count)
}
