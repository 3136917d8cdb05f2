// The report on a sheet.
ghost use Rattle.std.specs.Prelude.{◌≡◌, IfOk, string_bytes};
ghost use Rattle.graph.specs.Model.{model};
ghost use Rattle.sheet.specs.Reading.{sheet_read};
ghost use Rattle.sheet_report.specs.Texts.{refusal_text};
ghost use Rattle.sheet_report.specs.Reports.{graph_text, reported};

use crate::summary::{Fact, Summary};
use graph::raw::RawInstGraph;
use records::limits::MAX_NODES;
use records::sheet_refusal::SheetRefusal;
use sheet::reading::read_sheet;
use std::alloc::{AllocError, Global};
use subgraph::partition::subgraphs;

// A line for each fact of a graph, then how many subgraphs and how many nodes without edges there are, or why it has no order.
pub fn graph_text(heap: Global, graph: &RawInstGraph) -> Result<String, AllocError>
    ensures { IfOk result (λ s. string_bytes s ≡ graph_text (model graph.now)) }
{
    let summary = Summary::of(graph);
    let mut work = [false; MAX_NODES];
    match subgraphs(graph, &mut work) {
        Ok(parts) => {
            let subgraphs = Fact("subgraphs", parts.count);
            let singletons = Fact("singletons", parts.singletons().len());
            format!(in heap; "{summary}{subgraphs}{singletons}")
        }
        Err(refusal) => format!(in heap; "{summary}refused graph {refusal}\n"),
    }
}

// One line that says why a sheet is refused.
pub fn refusal_text(heap: Global, refusal: SheetRefusal) -> Result<String, AllocError>
    ensures { IfOk result (λ s. string_bytes s ≡ refusal_text refusal) }
{
    format!(in heap; "refused sheet {refusal}\n")
}

// What is in a sheet, or why it is refused; it fails only for want of memory.
pub fn report(heap: Global, bytes: &[u8]) -> Result<String, AllocError>
    ensures { IfOk result (λ s. string_bytes s ≡ reported (sheet_read bytes.now)) }
{
    let mut graph = RawInstGraph::new();
    match read_sheet(&mut graph, bytes) {
        Ok(()) => graph_text(heap, &graph),
        Err(refusal) => refusal_text(heap, refusal),
    }
}
