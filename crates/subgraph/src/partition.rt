// The partition of a graph into subgraphs.
ghost use Rattle.std.specs.Prelude.{◌≡◌, ◌<◌, false, length, replicate, IfOk};
ghost use Rattle.tables.specs.Filled.{Blank};
ghost use Rattle.graph.specs.Model.{model};
ghost use Rattle.walks.specs.Cycles.{left_blank};
ghost use Rattle.graph.specs.Tables.{IsTableOf};
ghost use Rattle.subgraph.specs.Partitions.{begins, partition};
ghost use Rattle.subgraph.specs.Places.{Filled};
ghost use Rattle.subgraph.specs.WholePartitions.{whole_partition, told_whole, LawfulWhole};

use crate::order::{no_neighbors, order_from};
use crate::places::Subgraphs;
use graph::raw::RawInstGraph;
use records::edge::Direction;
use records::limits::MAX_NODES;
use records::refusal::Refusal;
use tables::fill::fill;
use walks::cycle::check_acyclic;

// Whether a node is a root without a subgraph.
fn begins_subgraph(graph: &RawInstGraph, node: u16, found: &[bool]) -> bool
    requires node { node < length (model graph.now).nodes }
    requires table { IsTableOf (model graph.now) found.now }
    ensures { result ≡ begins (model graph.now).edges found.now node }
{
    no_neighbors(graph, node, Direction::Incoming)
        && !no_neighbors(graph, node, Direction::Outgoing)
        && !found[node as usize]
}

// The subgraphs of the roots, ascending.
fn partition(graph: &RawInstGraph, found: &mut [bool]) -> Subgraphs
    requires table { IsTableOf (model graph.now) found.old }
    requires unfound { Blank (length (model graph.now).nodes) found.old }
    ensures { Filled (partition (model graph.now).edges (length (model graph.now).nodes) found.old (replicate MAX_NODES false)) found.new result }
{
    let mut appended = [false; MAX_NODES];
    let mut subgraphs = Subgraphs::new();
    for node in 0..graph.nodes().len() as u16 {
        if begins_subgraph(graph, node, found) {
            let order = order_from(graph, node, found, &mut appended);
            subgraphs.add(&order);
        }
    }
    subgraphs
}

// The subgraphs of a graph without closed walks, and the order of all its nodes.
pub fn subgraphs(graph: &RawInstGraph, work: &mut [bool]) -> Result<Subgraphs, Refusal>
    ensures answer { told_whole (length (model graph.now).nodes) result ≡ whole_partition (model graph.now) (length work.old) }
    ensures table { work.new ≡ left_blank (length (model graph.now).nodes) work.old }
    ensures law { IfOk result (LawfulWhole (model graph.now)) }
{
    check_acyclic(graph, work)?;
    let mut parts = partition(graph, work);
    fill(work, graph.nodes().len(), false);
    parts.add_singletons(graph);
    Ok(parts)
}
