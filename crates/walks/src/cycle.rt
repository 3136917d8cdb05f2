// The search for closed walks.
ghost use Rattle.std.specs.Prelude.{◌≡◌, ◌<◌, length};
ghost use Rattle.tables.specs.Filled.{Blank};
ghost use Rattle.graph.specs.Model.{model};
ghost use Rattle.walks.specs.Cycles.{comes_back, acyclic_answer, left_blank, Tested};
ghost use Rattle.graph.specs.Tables.{IsTableOf};

use crate::explore::{Along, Search, explore};
use graph::raw::RawInstGraph;
use records::refusal::Refusal;
use tables::fill::fill;
use tables::stack::Stack;

// Whether a walk of one or more edges leads from a node to itself. That a number names a node is asked here, since a
// number that brings its graph along would be no plainer.
fn leads_back(graph: &RawInstGraph, node: u16, visited: &mut [bool]) -> bool
    requires node { node < length (model graph.now).nodes }
    requires table { IsTableOf (model graph.now) visited.old }
    requires blank { Blank (length (model graph.now).nodes) visited.old }
    ensures answer { result ≡ comes_back (model graph.now).edges (length (model graph.now).nodes) node }
    ensures table { visited.new ≡ visited.old }
{
    let mut stack = Stack::new();
    let mut order = Stack::new();
    Along::push_next(graph, node, visited, &mut stack);
    explore::<Along>(graph, &mut stack, visited, &mut order);
    let back = visited[node as usize];
    fill(visited, graph.nodes().len(), false);
    back
}

// Refuses a graph in which a walk of one or more edges leads from a node to itself.
pub fn check_acyclic(graph: &RawInstGraph, work: &mut [bool]) -> Result<(), Refusal>
    ensures answer { result ≡ acyclic_answer (model graph.now) (length work.old) }
    ensures table { work.new ≡ left_blank (length (model graph.now).nodes) work.old }
    ensures law { Tested (model graph.now) (length work.old) result }
{
    graph.room_for(work.len())?;
    let count = graph.nodes().len();
    fill(work, count, false);
    for node in 0..count {
        if leads_back(graph, node as u16, work) {
            return Err(Refusal::ClosedWalk(node));
        }
    }
    Ok(())
}
