// The reach analyses.
ghost use Rattle.std.specs.Prelude.{◌≡◌, Bool, false, length, take, Ok};
ghost use Rattle.records.specs.declared.node.Node.{Node};
ghost use Rattle.records.specs.Nodes.{is_shown};
ghost use Rattle.graph.specs.Model.{model};
ghost use Rattle.analysis.specs.Runs.{run_answer, run_table};
ghost use Rattle.routes.specs.Reach.{reach_meaning, TellsReach};
ghost use Rattle.reconnect.specs.Graphs.{graph_in};
ghost use Rattle.reconnect.specs.Reach.{is_enabled};

use analysis::analysis::{Going, TopoAnalysis};
use analysis::run::topo_analysis;
use graph::raw::RawInstGraph;
use records::node::Node;
use records::refusal::Refusal;
use std::marker::PhantomData;

// Which nodes a reach analysis looks for.
pub trait ReachKind {
    ghost wanted: { Node → Bool };

    fn current(node: &Node) -> bool
        ensures { result ≡ wanted node.now };
}

// The two kinds are types, as in the Rust.
pub struct ReachVisible;

impl ReachKind for ReachVisible {
    ghost wanted = { is_shown };

    fn current(node: &Node) -> bool {
        node.visible()
    }
}

pub struct ReachNonDisabled;

impl ReachKind for ReachNonDisabled {
    ghost wanted = { is_enabled };

    fn current(node: &Node) -> bool {
        !node.disabled()
    }
}

// Whether a node of the kind can be reached from each node, itself included.
#[derive_where(Clone, Copy, Default)]
pub struct BwdReachableAnalysis<Kind: ReachKind>(pub PhantomData<Kind>);

impl<Kind: ReachKind> TopoAnalysis for BwdReachableAnalysis<Kind> {
    type Value = bool;

    type Course = Going<false, false>;

    ghost meaning = { λ _. reach_meaning Kind.ReachKind.wanted };

    fn blank(&self) -> bool {
        false
    }

    fn start(&self, _at: usize, node: &Node) -> bool {
        Kind::current(node)
    }

    fn join(
        &self,
        so_far: bool,
        _at: usize,
        _node: &Node,
        _from: usize,
        _neighbour: &Node,
        value: bool,
    ) -> bool {
        so_far || value
    }

    fn close(&self, so_far: bool, _at: usize, _node: &Node) -> bool {
        so_far
    }
}

// Tells of each node whether a node of the kind can be reached from it.
pub fn reach<Kind: ReachKind>(graph: &RawInstGraph, table: &mut [bool]) -> Result<(), Refusal>
    ensures answer { result ≡ run_answer (length table.old) (model graph.now) }
    ensures values { table.new ≡ run_table (reach_meaning Kind.wanted) false false (model graph.now) table.old }
    ensures tells { result ≡ Ok tt → TellsReach Kind.wanted (graph_in (model graph.now)) (take (length (model graph.now).nodes) table.new) }
{
    topo_analysis(graph, &BwdReachableAnalysis::<Kind>::default(), table)
}
