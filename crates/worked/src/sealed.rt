// Sealed graphs: showing and hiding, and analyses.
use crate::sheets::DIAMOND;
use graph::stats::GraphStats;
use inst_graph::inst_graph::InstGraph;
use reconnect::reach::{BwdReachableAnalysis, ReachNonDisabled, ReachVisible};
use records::node::{NodeKind, Visibility};
use records::refusal::Refusal;
use records::sheet_refusal::SheetRefusal;
use std::test::Fail;

// Nodes 0, 1, 2, 3 with edges 0 to 1, 1 to 2, where 2 is disabled, and 3 without edges; sealed.
fn chain() -> Result<InstGraph, Refusal> {
    let mut graph = InstGraph::new();
    for item in 0..4u32 {
        graph.add_node(NodeKind::ENode, item)?;
    }
    graph.add_edge(0, 1)?;
    graph.add_edge(1, 2)?;
    graph.disable(2)?;
    let mut work = [true; 4];
    graph.seal(&mut work)?;
    Ok(graph)
}

#[test]
fn sealing_counts_subgraphs_and_blanks_the_table(rt: HostRuntime) {
    let mut graph = InstGraph::new();
    assert_eq!(rt; graph.add_node(NodeKind::ENode, 0), Ok(0));
    assert_eq!(rt; graph.add_node(NodeKind::ENode, 0), Ok(1));
    assert_eq!(rt; graph.add_edge(1, 0), Ok(0));
    let mut short = [true; 1];
    assert_eq!(rt; graph.seal(&mut short), Err(Refusal::TableTooShort(2)));
    assert_eq!(rt; short, [true]);
    let mut work = [true; 3];
    assert_eq!(rt; graph.seal(&mut work), Ok(1));
    assert_eq!(rt; work, [false, false, true]);
    assert_eq!(rt; graph.seal(&mut short), Err(Refusal::Sealed));
    assert_eq!(rt; short, [true]);
    assert_eq!(rt; graph.add_node(NodeKind::ENode, 0), Err(Refusal::Sealed));
}

#[test]
fn a_closed_walk_cannot_be_sealed(rt: HostRuntime) {
    let mut graph = InstGraph::new();
    assert_eq!(rt; graph.add_node(NodeKind::ENode, 0), Ok(0));
    assert_eq!(rt; graph.add_edge(0, 0), Ok(0));
    let mut work = [true; 2];
    assert_eq!(rt; graph.seal(&mut work), Err(Refusal::ClosedWalk(0)));
    assert_eq!(rt; work, [false, true]);
    assert_eq!(rt; graph.add_node(NodeKind::ENode, 0), Ok(1));
}

#[test]
fn a_sheet_can_be_sealed(rt: HostRuntime) {
    let mut graph = InstGraph::new();
    assert_eq!(rt; graph.read_sheet(&DIAMOND), Ok(()));
    let mut work = [false; 4];
    assert_eq!(rt; graph.seal(&mut work), Ok(1));
}

#[test]
fn disabled_nodes_stay_disabled(rt: HostRuntime) -> Result<(), Fail> {
    let mut graph = chain()?;
    assert_eq!(rt; graph.set_visibility(0, Visibility::Visible), Ok(true));
    assert_eq!(rt; graph.set_visibility(0, Visibility::Visible), Ok(false));
    assert_eq!(rt; graph.set_visibility(2, Visibility::Visible), Ok(false));
    assert_eq!(rt;
        graph.set_visibility(4, Visibility::Visible),
        Err(Refusal::UnknownNode(4))
    );
    assert_eq!(rt;
        graph.set_visibility_many(Visibility::Visible, &[3, 9, 8]),
        Err(Refusal::UnknownNode(1))
    );
    assert_eq!(rt; graph.reset_visibility_to(Visibility::Visible), Ok(true));
    assert_eq!(rt;
        graph.stats(),
        GraphStats {
            hidden: 0,
            disabled: 1,
            generation: 4,
        }
    );
    Ok(())
}

#[test]
fn keeping_counts_entries_of_the_list(rt: HostRuntime) -> Result<(), Fail> {
    let mut graph = chain()?;
    assert_eq!(rt;
        graph.set_visibility_many(Visibility::Visible, &[0, 1, 3]),
        Ok(true)
    );
    // Node 0 stands there twice and counts twice, so node 1 and node 3 are hidden.
    assert_eq!(rt; graph.keep_first_n(&[0, 0, 1, 3], 2), Ok(true));
    assert_eq!(rt; graph.stats().hidden, 2);
    assert_eq!(rt; graph.keep_first_n(&[0, 0, 1, 3], 2), Ok(false));
    Ok(())
}

#[test]
fn what_can_be_reached(rt: HostRuntime) -> Result<(), Fail> {
    let mut graph = chain()?;
    assert_eq!(rt; graph.set_visibility(1, Visibility::Visible), Ok(true));
    let enabled = BwdReachableAnalysis::<ReachNonDisabled>::default();
    let shown = BwdReachableAnalysis::<ReachVisible>::default();
    let mut table = [true; 5];
    assert_eq!(rt; graph.topo_analysis(&enabled, &mut table), Ok(()));
    assert_eq!(rt; table, [true, true, false, true, true]);
    assert_eq!(rt; graph.topo_analysis(&shown, &mut table), Ok(()));
    assert_eq!(rt; table, [true, true, false, false, true]);
    let mut short = [true; 3];
    assert_eq!(rt;
        graph.topo_analysis(&shown, &mut short),
        Err(Refusal::TableTooShort(4))
    );
    assert_eq!(rt; short, [true, true, true]);
    let open = InstGraph::new();
    assert_eq!(rt;
        open.topo_analysis(&shown, &mut short),
        Err(Refusal::StillOpen)
    );
    Ok(())
}
