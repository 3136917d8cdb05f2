// Analyses of one's own: what an analysis is, told by two small ones.
ghost use Rattle.std.specs.Prelude.{Bool, true, false, ◌||◌};
ghost use Rattle.records.specs.Nodes.{is_disabled};

use analysis::analysis::{Going, TopoAnalysis};
use inst_graph::inst_graph::InstGraph;
use records::node::{Node, NodeKind};
use records::refusal::Refusal;
use std::test::Fail;

// Whether a node is disabled or a disabled node leads to it.
struct AfterDisabled;

impl TopoAnalysis for AfterDisabled {
    type Value = bool;

    type Course = Going<true, false>;

    ghost meaning = { λ _. record { blank = false; start = λ n node. is_disabled node; join = λ so_far n node k neighbour value. so_far || value; close = λ so_far n node. so_far } };

    fn blank(&self) -> bool {
        false
    }

    fn start(&self, _at: usize, node: &Node) -> bool {
        node.disabled()
    }

    fn join(
        &self,
        so_far: bool,
        _at: usize,
        _node: &Node,
        _from: usize,
        _neighbour: &Node,
        value: bool,
    ) -> bool {
        so_far | value
    }

    fn close(&self, so_far: bool, _at: usize, _node: &Node) -> bool {
        so_far
    }
}

// The same value at each node.
struct Constant(u32);

impl TopoAnalysis for Constant {
    type Value = u32;

    type Course = Going<false, true>;

    ghost meaning = { λ c. record { blank = 0; start = λ n node. c.0; join = λ so_far n node k neighbour value. so_far; close = λ so_far n node. so_far } };

    fn blank(&self) -> u32 {
        0
    }

    fn start(&self, _at: usize, _node: &Node) -> u32 {
        self.0
    }

    fn join(
        &self,
        so_far: u32,
        _at: usize,
        _node: &Node,
        _from: usize,
        _neighbour: &Node,
        _value: u32,
    ) -> u32 {
        so_far
    }

    fn close(&self, so_far: u32, _at: usize, _node: &Node) -> u32 {
        so_far
    }
}

// Edges 1 to 0, 2 to 1, where 2 is disabled, and 3 to 0; sealed.
fn after_two() -> Result<InstGraph, Refusal> {
    let mut graph = InstGraph::new();
    for item in 0..4u32 {
        graph.add_node(NodeKind::Instantiation, item)?;
    }
    graph.add_edge(1, 0)?;
    graph.add_edge(2, 1)?;
    graph.add_edge(3, 0)?;
    graph.disable(2)?;
    let mut work = [false; 4];
    graph.seal(&mut work)?;
    Ok(graph)
}

#[test]
fn what_a_disabled_node_leads_to(rt: HostRuntime) -> Result<(), Fail> {
    let graph = after_two()?;
    let mut table = [false; 4];
    assert_eq!(rt; graph.topo_analysis(&AfterDisabled, &mut table), Ok(()));
    assert_eq!(rt; table, [true, true, true, false]);
    Ok(())
}

#[test]
fn a_constant_at_each_node(rt: HostRuntime) -> Result<(), Fail> {
    let graph = after_two()?;
    let mut table = [9u32; 5];
    assert_eq!(rt; graph.topo_analysis(&Constant(7), &mut table), Ok(()));
    assert_eq!(rt; table, [7u32, 7, 7, 7, 9]);
    Ok(())
}
