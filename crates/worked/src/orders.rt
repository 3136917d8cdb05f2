// Closed walks, subgraphs and their order.
use graph::raw::RawInstGraph;
use records::node::{NodeKind, Place};
use records::refusal::Refusal;
use std::test::Fail;
use subgraph::partition::subgraphs;
use subgraph::places::Subgraphs;
use walks::cycle::check_acyclic;

// A graph of so many nodes, without edges.
fn of_nodes(count: u32) -> Result<RawInstGraph, Refusal> {
    let mut graph = RawInstGraph::new();
    for item in 0..count {
        graph.add_node(NodeKind::ENode, item)?;
    }
    Ok(graph)
}

fn parts_of(graph: &RawInstGraph) -> Result<Subgraphs, Refusal> {
    let mut work = [false; 1024];
    subgraphs(graph, &mut work)
}

#[test]
fn the_other_root_comes_first(rt: HostRuntime) -> Result<(), Fail> {
    let mut graph = of_nodes(3)?;
    assert_eq!(rt; graph.add_edge(0, 2), Ok(0));
    assert_eq!(rt; graph.add_edge(1, 2), Ok(1));
    let parts = parts_of(&graph)?;
    assert_eq!(rt; parts.count, 1);
    assert_eq!(rt; parts.topo_node_indices(), [1u16, 0, 2].as_slice());
    Ok(())
}

#[test]
fn subgraphs_first_and_then_the_nodes_without_edges(rt: HostRuntime) -> Result<(), Fail> {
    let mut graph = of_nodes(6)?;
    assert_eq!(rt; graph.add_edge(4, 5), Ok(0));
    assert_eq!(rt; graph.add_edge(3, 1), Ok(1));
    let parts = parts_of(&graph)?;
    assert_eq!(rt; parts.count, 2);
    assert_eq!(rt; parts.in_subgraphs(), [3u16, 1, 4, 5].as_slice());
    assert_eq!(rt; parts.singletons(), [0u16, 2].as_slice());
    let of_singleton = parts.places[0];
    assert_eq!(rt; of_singleton, None);
    let first = Place {
        subgraph: 0,
        position: 1,
    };
    let of_second_node = parts.places[1];
    assert_eq!(rt; of_second_node, Some(first));
    let second = Place {
        subgraph: 1,
        position: 0,
    };
    let of_first_node = parts.places[4];
    assert_eq!(rt; of_first_node, Some(second));
    Ok(())
}

#[test]
fn a_closed_walk_is_told_by_its_lowest_node(rt: HostRuntime) -> Result<(), Fail> {
    let mut graph = of_nodes(3)?;
    assert_eq!(rt; graph.add_edge(2, 1), Ok(0));
    assert_eq!(rt; graph.add_edge(1, 2), Ok(1));
    let mut work = [true; 4];
    assert_eq!(rt;
        check_acyclic(&graph, &mut work),
        Err(Refusal::ClosedWalk(1))
    );
    assert_eq!(rt; work, [false, false, false, true]);
    assert_eq!(rt; Refusal::ClosedWalk(1).number(), 7);
    assert_eq!(rt; graph.add_edge(0, 0), Ok(2));
    assert_eq!(rt;
        check_acyclic(&graph, &mut work),
        Err(Refusal::ClosedWalk(0))
    );
    Ok(())
}

#[test]
fn a_table_too_short_stays_as_it_was(rt: HostRuntime) -> Result<(), Fail> {
    let graph = of_nodes(3)?;
    let mut work = [true; 2];
    assert_eq!(rt;
        check_acyclic(&graph, &mut work),
        Err(Refusal::TableTooShort(3))
    );
    assert_eq!(rt; work, [true, true]);
    assert_eq!(rt; Refusal::TableTooShort(3).number(), 6);
    let mut work = [true; 3];
    assert_eq!(rt; check_acyclic(&graph, &mut work), Ok(()));
    assert_eq!(rt; work, [false, false, false]);
    Ok(())
}
