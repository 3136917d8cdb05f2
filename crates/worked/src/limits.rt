// What a graph takes and what it refuses.
use graph::raw::RawInstGraph;
use graph::stats::GraphStats;
use records::edge::Direction;
use records::node::{Node, NodeKind, NodeState, Visibility};
use records::refusal::Refusal;

#[test]
fn node_1024_is_taken_and_1025_is_not(rt: HostRuntime) {
    let mut graph = RawInstGraph::new();
    for item in 0..1024u32 {
        assert_eq!(rt; graph.add_node(NodeKind::Cdcl, item), Ok(item as usize));
    }
    assert_eq!(rt; graph.add_node(NodeKind::Cdcl, 7), Err(Refusal::NodesFull));
    assert_eq!(rt; Refusal::NodesFull.number(), 4);
    assert_eq!(rt; Refusal::NodesFull.detail(), 1024);
    assert_eq!(rt; graph.stats().hidden, 1024);
}

#[test]
fn edge_4097_is_refused_but_an_unknown_end_comes_first(rt: HostRuntime) {
    let mut graph = RawInstGraph::new();
    assert_eq!(rt; graph.add_node(NodeKind::ENode, 0), Ok(0));
    for number in 0..4096usize {
        assert_eq!(rt; graph.add_edge(0, 0), Ok(number));
    }
    assert_eq!(rt; graph.add_edge(0, 0), Err(Refusal::EdgesFull));
    assert_eq!(rt; graph.add_edge(0, 9), Err(Refusal::UnknownNode(9)));
    assert_eq!(rt; Refusal::EdgesFull.number(), 5);
    assert_eq!(rt; Refusal::EdgesFull.detail(), 4096);
}

#[test]
fn the_source_is_tested_before_the_target(rt: HostRuntime) {
    let mut graph = RawInstGraph::new();
    assert_eq!(rt; graph.add_node(NodeKind::ENode, 0), Ok(0));
    assert_eq!(rt; graph.add_edge(7, 8), Err(Refusal::UnknownNode(7)));
    assert_eq!(rt; graph.add_edge(0, 8), Err(Refusal::UnknownNode(8)));
    assert_eq!(rt; graph.edges().len(), 0);
}

#[test]
fn disabling_counts_once(rt: HostRuntime) {
    let mut graph = RawInstGraph::new();
    assert_eq!(rt; graph.add_node(NodeKind::Proof, 41), Ok(0));
    assert_eq!(rt; graph.disable(1), Err(Refusal::UnknownNode(1)));
    assert_eq!(rt; graph.disable(0), Ok(true));
    assert_eq!(rt; graph.disable(0), Ok(false));
    let node = Node {
        state: NodeState::Disabled,
        kind: NodeKind::Proof,
        item: 41,
        place: None,
    };
    assert_eq!(rt; graph.node(0), Ok(node));
    assert_eq!(rt; graph.node(1), Err(Refusal::UnknownNode(1)));
    assert_eq!(rt; graph.visible_nodes(), 0);
    assert_eq!(rt;
        graph.stats(),
        GraphStats {
            hidden: 0,
            disabled: 1,
            generation: 1,
        }
    );
}

#[test]
fn an_open_graph_is_not_shown(rt: HostRuntime) {
    let mut graph = RawInstGraph::new();
    assert_eq!(rt;
        graph.set_visibility(9, Visibility::Visible),
        Err(Refusal::StillOpen)
    );
    assert_eq!(rt;
        graph.set_visibility_many(Visibility::Visible, &[9]),
        Err(Refusal::StillOpen)
    );
    assert_eq!(rt;
        graph.reset_visibility_to(Visibility::Visible),
        Err(Refusal::StillOpen)
    );
    assert_eq!(rt; graph.keep_first_n(&[9], 0), Err(Refusal::StillOpen));
    assert_eq!(rt; Refusal::StillOpen.number(), 2);
}

#[test]
fn lists_run_newest_edge_first(rt: HostRuntime) {
    let mut graph = RawInstGraph::new();
    for item in 0..3u32 {
        assert_eq!(rt; graph.add_node(NodeKind::ENode, item), Ok(item as usize));
    }
    assert_eq!(rt; graph.add_edge(0, 1), Ok(0));
    assert_eq!(rt; graph.add_edge(0, 2), Ok(1));
    assert_eq!(rt; graph.add_edge(2, 1), Ok(2));
    assert_eq!(rt; graph.add_edge(0, 1), Ok(3));
    let mut out = graph.neighbors_directed(0, Direction::Outgoing);
    assert_eq!(rt; out.next(), Some(1));
    assert_eq!(rt; out.next(), Some(2));
    assert_eq!(rt; out.next(), Some(1));
    assert_eq!(rt; out.next(), None);
    let mut into = graph.neighbors_directed(1, Direction::Incoming);
    assert_eq!(rt; into.next(), Some(0));
    assert_eq!(rt; into.next(), Some(2));
    assert_eq!(rt; into.next(), Some(0));
    assert_eq!(rt; into.next(), None);
    let mut nowhere = graph.neighbors_directed(3, Direction::Outgoing);
    assert_eq!(rt; nowhere.next(), None);
}

#[test]
fn a_walker_goes_on_while_the_graph_grows(rt: HostRuntime) {
    let mut graph = RawInstGraph::new();
    for item in 0..3u32 {
        assert_eq!(rt; graph.add_node(NodeKind::ENode, item), Ok(item as usize));
    }
    assert_eq!(rt; graph.add_edge(0, 1), Ok(0));
    assert_eq!(rt; graph.add_edge(0, 2), Ok(1));
    let mut walker = graph.neighbors_directed(0, Direction::Outgoing).detach();
    assert_eq!(rt; walker.next(&graph), Some(2));
    assert_eq!(rt; graph.add_edge(0, 0), Ok(2));
    assert_eq!(rt; walker.next(&graph), Some(1));
    assert_eq!(rt; walker.next(&graph), None);
}
