// Reading a sheet into a graph, row by row.
ghost use Rattle.std.specs.Prelude.{◌≡◌, ◌+◌, ◌*◌, ◌≤◌, length, Ok, OnOk};
ghost use Rattle.graph.specs.Model.{Model, model, empty};
ghost use Rattle.sheet.specs.Reading.{followed, nodes_read, edges_read, body_read, sheet_read, answered, left};
ghost use Rattle.sheet.specs.Encoding.{sheet_of, Given};
ghost use Rattle.sheet.specs.Readers.{Advances};

use crate::reader::Reader;
use graph::raw::RawInstGraph;
use records::sheet_refusal::SheetRefusal;

const VERSION: u8 = 1;

// How many bytes stand before the body: the version and the body's length.
const HEAD: usize = 5;

// Replaces the graph by the one that a sheet gives, or by an empty one where the sheet is refused. The rows are added in
// place, since a graph is too large to hand on by value.
pub fn read_sheet(graph: &mut RawInstGraph, bytes: &[u8]) -> Result<(), SheetRefusal>
    ensures answer { result ≡ answered (sheet_read bytes.now) }
    ensures after { model graph.new ≡ left (sheet_read bytes.now) }
    ensures exact { OnOk result ((bytes.now ≡ sheet_of (model graph.new)) × Given (model graph.new)) }
    ensures whole { (m : Model) → Given m → bytes.now ≡ sheet_of m → (result ≡ Ok tt) × (model graph.new ≡ m) }
{
    *graph = RawInstGraph::new();
    let read = take_sheet(graph, bytes);
    if read.is_err() {
        *graph = RawInstGraph::new();
    }
    read
}

fn take_sheet(graph: &mut RawInstGraph, bytes: &[u8]) -> Result<(), SheetRefusal>
    requires { model graph.old ≡ empty }
    ensures { followed result (model graph.new) ≡ sheet_read bytes.now }
{
    let [version, a, b, c, d, body @ ..] = bytes else {
        return Err(SheetRefusal::Short(bytes.len()));
    };
    if *version != VERSION {
        return Err(SheetRefusal::Version);
    }
    if u32::from_be_bytes([*a, *b, *c, *d]) as usize != body.len() {
        return Err(SheetRefusal::Length);
    }
    take_body(graph, bytes)
}

fn take_body(graph: &mut RawInstGraph, bytes: &[u8]) -> Result<(), SheetRefusal>
    requires there { 5 ≤ length bytes.now }
    requires new { model graph.old ≡ empty }
    ensures { followed result (model graph.new) ≡ body_read bytes.now }
{
    let mut reader = Reader { bytes, at: HEAD };
    let nodes = reader.count()?;
    take_nodes(graph, &mut reader, nodes)?;
    let edges = reader.count()?;
    take_edges(graph, &mut reader, edges)
}

// The node rows, which follow their count. A trait for both kinds of rows would be longer than the two loops.
#[tactic(auto, using(crate::proofs::RowSteps::nodes_more))]
fn take_nodes(
    graph: &mut RawInstGraph,
    reader: &mut Reader<'_>,
    count: u16,
) -> Result<(), SheetRefusal>
    ensures value { followed result (model graph.new) ≡ nodes_read count reader.old.at reader.old.bytes.now (model graph.old) }
    ensures after { OnOk result (Advances (6 * count) reader.old reader.new) }
{
    for _row in 0..count {
        let at = reader.at;
        let row = reader.node_row()?;
        graph
            .add_node_in(row.state, row.kind, row.item)
            .map_err(|refusal| SheetRefusal::Row(at, refusal))?;
    }
    Ok(())
}

// The edge rows, and the end of the sheet.
#[tactic(auto, using(crate::proofs::RowSteps::edges_more))]
fn take_edges(
    graph: &mut RawInstGraph,
    reader: &mut Reader<'_>,
    count: u16,
) -> Result<(), SheetRefusal>
    ensures { followed result (model graph.new) ≡ edges_read count reader.old.at reader.old.bytes.now (model graph.old) }
{
    for _row in 0..count {
        let at = reader.at;
        let row = reader.edge_row()?;
        graph
            .add_edge(row.source as usize, row.target as usize)
            .map_err(|refusal| SheetRefusal::Row(at, refusal))?;
    }
    if reader.at < reader.bytes.len() {
        return Err(SheetRefusal::Misfit(reader.at));
    }
    Ok(())
}
