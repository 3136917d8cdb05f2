// Sheets that are read, and sheets that are refused.
use graph::raw::RawInstGraph;
use graph::stats::GraphStats;
use records::edge::Edge;
use records::node::{Node, NodeKind, NodeState};
use records::refusal::Refusal;
use records::sheet_refusal::SheetRefusal;
use sheet::reading::read_sheet;
use std::alloc::{AllocError, Global};
use std::test::Fail;

// Shown, hidden, disabled, shown, all enodes; edges 0 to 1, 0 to 2, 1 to 3, 2 to 3.
pub const DIAMOND: [u8; 49] = [
    1, 0, 0, 0, 44, 0, 4, 2, 1, 0, 0, 0, 0, 1, 1, 0, 0, 0, 1, 0, 1, 0, 0, 0, 2, 2, 1, 0, 0, 0, 3,
    0, 4, 0, 0, 0, 1, 0, 0, 0, 2, 0, 1, 0, 3, 0, 2, 0, 3,
];

// One node, and an edge from it to node 5.
pub const LOST_EDGE: [u8; 19] = [1, 0, 0, 0, 14, 0, 1, 2, 1, 0, 0, 0, 0, 0, 1, 0, 0, 0, 5];

// Two hidden enodes, and an edge from each to the other.
pub const CIRCLE: [u8; 29] = [
    1, 0, 0, 0, 24, 0, 2, 1, 1, 0, 0, 0, 0, 1, 1, 0, 0, 0, 1, 0, 2, 0, 0, 0, 1, 0, 1, 0, 0,
];

fn read(bytes: &[u8]) -> Result<(), SheetRefusal> {
    let mut graph = RawInstGraph::new();
    read_sheet(&mut graph, bytes)
}

// A sheet of so many hidden nodes, and so many edges from node 0 to itself.
fn plain_sheet(heap: Global, nodes: u16, edges: u16) -> Result<Vec<u8>, AllocError> {
    let mut bytes = Vec::new(heap);
    let body = 4 + 6 * nodes as u32 + 4 * edges as u32;
    bytes.push(1)?;
    bytes.extend_from_slice(&body.to_be_bytes())?;
    bytes.extend_from_slice(&nodes.to_be_bytes())?;
    for _ in 0..nodes {
        bytes.extend_from_slice(&[1, 1, 0, 0, 0, 0])?;
    }
    bytes.extend_from_slice(&edges.to_be_bytes())?;
    for _ in 0..edges {
        bytes.extend_from_slice(&[0, 0, 0, 0])?;
    }
    Ok(bytes)
}

#[test]
fn a_sheet_gives_its_graph(rt: HostRuntime) {
    let mut graph = RawInstGraph::new();
    assert_eq!(rt; read_sheet(&mut graph, &DIAMOND), Ok(()));
    assert_eq!(rt; graph.nodes().len(), 4);
    assert_eq!(rt; graph.edges().len(), 4);
    let node = Node {
        state: NodeState::Visible,
        kind: NodeKind::ENode,
        item: 3,
        place: None,
    };
    assert_eq!(rt; graph.node(3), Ok(node));
    assert!(rt; graph.edges().len() == 4);
    assert_eq!(rt;
        graph.edges()[2],
        Edge {
            source: 1,
            target: 3,
        }
    );
    assert_eq!(rt;
        graph.stats(),
        GraphStats {
            hidden: 1,
            disabled: 1,
            generation: 3,
        }
    );
}

#[test]
fn a_refused_sheet_leaves_an_empty_open_graph(rt: HostRuntime) {
    let mut graph = RawInstGraph::new();
    assert_eq!(rt; read_sheet(&mut graph, &DIAMOND), Ok(()));
    assert_eq!(rt;
        read_sheet(&mut graph, &LOST_EDGE),
        Err(SheetRefusal::Row(15, Refusal::UnknownNode(5)))
    );
    assert_eq!(rt; graph.nodes().len(), 0);
    assert_eq!(rt; graph.edges().len(), 0);
    assert_eq!(rt;
        graph.stats(),
        GraphStats {
            hidden: 0,
            disabled: 0,
            generation: 0,
        }
    );
    assert_eq!(rt; graph.add_node(NodeKind::ENode, 0), Ok(0));
}

#[test]
fn cut_at_every_byte(rt: HostRuntime) {
    for cut in 0..DIAMOND.len() {
        let expected = if cut < 5 {
            SheetRefusal::Short(cut)
        } else {
            SheetRefusal::Length
        };
        assert_eq!(rt; read(&DIAMOND[..cut]), Err(expected));
    }
}

// The count or row that does not fit into the first bytes of the diamond's sheet.
fn cut_part(cut: usize) -> usize {
    match cut {
        0..7 => 5,
        7..31 => 7 + (cut - 7) / 6 * 6,
        31..33 => 31,
        _ => 33 + (cut - 33) % 16 / 4 * 4,
    }
}

#[test]
fn cut_at_every_byte_of_the_body(rt: HostRuntime) {
    for cut in 5..DIAMOND.len() {
        let mut sheet = DIAMOND;
        sheet[4] = ((cut - 5) % 256) as u8;
        assert_eq!(rt;
            read(&sheet[..cut]),
            Err(SheetRefusal::Misfit(cut_part(cut)))
        );
    }
}

#[test]
fn a_byte_too_many(rt: HostRuntime) -> Result<(), Fail> {
    let mut sheet = DIAMOND.to_vec(rt.alloc())?;
    sheet.push(0)?;
    assert_eq!(rt; read(&sheet), Err(SheetRefusal::Length));
    assert!(rt; sheet.len() == 50);
    sheet[4] = 45;
    assert_eq!(rt; read(&sheet), Err(SheetRefusal::Misfit(49)));
    Ok(())
}

#[test]
fn versions_and_bad_bytes(rt: HostRuntime) {
    let mut sheet = DIAMOND;
    sheet[0] = 0;
    assert_eq!(rt; read(&sheet), Err(SheetRefusal::Version));
    sheet[0] = 2;
    assert_eq!(rt; read(&sheet), Err(SheetRefusal::Version));
    sheet[0] = 1;
    sheet[14] = 6;
    assert_eq!(rt; read(&sheet), Err(SheetRefusal::BadByte(14)));
    sheet[13] = 3;
    assert_eq!(rt; read(&sheet), Err(SheetRefusal::BadByte(13)));
    sheet[8] = 255;
    assert_eq!(rt; read(&sheet), Err(SheetRefusal::BadByte(8)));
}

// A bad byte in a row comes before a row after it that does not fit.
#[test]
fn rows_are_refused_in_turn(rt: HostRuntime) {
    let sheet = [1, 0, 0, 0, 8, 0, 2, 3, 1, 0, 0, 0, 0];
    assert_eq!(rt; read(&sheet), Err(SheetRefusal::BadByte(7)));
    let sheet = [1, 0, 0, 0, 8, 0, 2, 2, 1, 0, 0, 0, 0];
    assert_eq!(rt; read(&sheet), Err(SheetRefusal::Misfit(13)));
    let sheet = [1, 0, 0, 0, 14, 0, 1, 2, 1, 0, 0, 0, 0, 0, 2, 0, 7, 0, 5];
    assert_eq!(rt;
        read(&sheet),
        Err(SheetRefusal::Row(15, Refusal::UnknownNode(7)))
    );
}

#[test]
fn sheets_at_the_limits(rt: HostRuntime) -> Result<(), Fail> {
    let largest = plain_sheet(rt.alloc(), 1024, 4096)?;
    assert_eq!(rt; largest.len(), 22537);
    assert_eq!(rt; read(&largest), Ok(()));
    let nodes = plain_sheet(rt.alloc(), 1025, 0)?;
    assert_eq!(rt;
        read(&nodes),
        Err(SheetRefusal::Row(6151, Refusal::NodesFull))
    );
    let edges = plain_sheet(rt.alloc(), 1, 4097)?;
    assert_eq!(rt;
        read(&edges),
        Err(SheetRefusal::Row(16399, Refusal::EdgesFull))
    );
    Ok(())
}
