// What nodes know of a shown source.
use inst_graph::inst_graph::InstGraph;
use reconnect::reach::{BwdReachableAnalysis, ReachVisible};
use reconnect::strands::ReconnectAnalysis;
use records::node::{NodeKind, Visibility};
use records::refusal::Refusal;
use records::strand::{BLANK, Path, Strand, Strands};
use std::test::Fail;

const COVERED: Strands = Strands {
    covered: true,
    ..BLANK
};

fn marked(path: Path) -> Strands {
    Strands {
        marked: Strand::Along(path),
        ..BLANK
    }
}

// Five nodes in a row, the second and the fourth hidden; edges 0 to 1, 1 to 2, 2 to 3, 1 to 3 and 3 to 4.
fn two_ways_to_three() -> Result<InstGraph, Refusal> {
    let mut graph = InstGraph::new();
    for item in 0..5u32 {
        graph.add_node(NodeKind::ENode, item)?;
    }
    graph.add_edge(0, 1)?;
    graph.add_edge(1, 2)?;
    graph.add_edge(2, 3)?;
    graph.add_edge(1, 3)?;
    graph.add_edge(3, 4)?;
    let mut work = [false; 5];
    graph.seal(&mut work)?;
    graph.set_visibility_many(Visibility::Visible, &[0, 2, 4])?;
    Ok(graph)
}

// The strands of a source, where all nodes lead to a shown one.
fn strands_of(graph: &InstGraph, source: usize) -> Result<[Strands; 5], Refusal> {
    let reach = BwdReachableAnalysis::<ReachVisible>::default();
    let mut live = [false; 5];
    graph.topo_analysis(&reach, &mut live)?;
    let mut table = [COVERED; 5];
    let analysis = ReconnectAnalysis {
        source,
        live: &live,
    };
    graph.topo_analysis(&analysis, &mut table)?;
    Ok(table)
}

#[test]
fn strands_from_the_first_node(rt: HostRuntime) -> Result<(), Fail> {
    let graph = two_ways_to_three()?;
    let covered_after = Strands {
        covered: true,
        ..marked(Path::Past {
            node: 1,
            marked: true,
        })
    };
    assert_eq!(rt;
        strands_of(&graph, 0),
        Ok([
            BLANK,
            marked(Path::Straight),
            COVERED,
            covered_after,
            COVERED,
        ])
    );
    Ok(())
}

#[test]
fn strands_from_a_node_between(rt: HostRuntime) -> Result<(), Fail> {
    let graph = two_ways_to_three()?;
    assert_eq!(rt;
        strands_of(&graph, 2),
        Ok([BLANK, BLANK, BLANK, marked(Path::Straight), COVERED])
    );
    Ok(())
}

#[test]
fn no_strands_from_the_last_node(rt: HostRuntime) -> Result<(), Fail> {
    let graph = two_ways_to_three()?;
    assert_eq!(rt; strands_of(&graph, 4), Ok([BLANK; 5]));
    Ok(())
}

#[test]
fn past_the_end_of_the_yes_no_table_all_is_blank(rt: HostRuntime) -> Result<(), Fail> {
    let graph = two_ways_to_three()?;
    let live = [true, true];
    let analysis = ReconnectAnalysis {
        source: 0,
        live: &live,
    };
    let mut table = [COVERED; 6];
    assert_eq!(rt; graph.topo_analysis(&analysis, &mut table), Ok(()));
    assert_eq!(rt;
        table,
        [BLANK, marked(Path::Straight), BLANK, BLANK, BLANK, COVERED]
    );
    Ok(())
}
