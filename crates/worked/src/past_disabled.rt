// Neighbors past disabled nodes.
use graph::raw::RawInstGraph;
use records::edge::Direction;
use records::node::NodeKind;
use records::refusal::Refusal;
use walk_neighbors::hidden::count_hidden;
use walk_neighbors::walk::WalkNeighbors;

#[test]
fn once_for_the_edge_and_once_past_the_disabled_node(rt: HostRuntime) {
    let mut graph = RawInstGraph::new();
    assert_eq!(rt; graph.add_node(NodeKind::ENode, 0), Ok(0));
    assert_eq!(rt; graph.add_node(NodeKind::ENode, 1), Ok(1));
    assert_eq!(rt; graph.add_node(NodeKind::ENode, 2), Ok(2));
    assert_eq!(rt; graph.add_node(NodeKind::ENode, 3), Ok(3));
    assert_eq!(rt; graph.add_edge(0, 1), Ok(0));
    assert_eq!(rt; graph.add_edge(1, 2), Ok(1));
    assert_eq!(rt; graph.add_edge(0, 3), Ok(2));
    assert_eq!(rt; graph.add_edge(1, 3), Ok(3));
    assert_eq!(rt; graph.disable(1), Ok(true));
    let mut walk = WalkNeighbors::new(&graph, 0, Direction::Outgoing);
    assert_eq!(rt; walk.next(&graph), Some(3u16));
    assert_eq!(rt; walk.next(&graph), Some(2u16));
    assert_eq!(rt; walk.next(&graph), Some(3u16));
    assert_eq!(rt; walk.next(&graph), None);
    assert_eq!(rt; count_hidden(&graph, 0, Direction::Outgoing), 3);
    assert_eq!(rt; count_hidden(&graph, 2, Direction::Incoming), 1);
    assert_eq!(rt; count_hidden(&graph, 1, Direction::Outgoing), 2);
}
