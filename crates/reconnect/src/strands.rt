// The strand analysis.
ghost use Rattle.std.specs.Prelude.{◌≡◌, true, false, length, take, Ok};
ghost use Rattle.routes.specs.Laws.{StrandsStand};
ghost use Rattle.routes.specs.Strands.{strand_meaning};
ghost use Rattle.graph.specs.Model.{model};
ghost use Rattle.analysis.specs.Runs.{run_answer, run_table};
ghost use Rattle.reconnect.specs.Graphs.{graph_in};

use analysis::analysis::{Going, TopoAnalysis};
use analysis::run::topo_analysis;
use graph::raw::RawInstGraph;
use records::node::Node;
use records::refusal::Refusal;
use records::strand::{BLANK, Strands};

// What each node knows of one shown source. The yes/no table says from which nodes a shown node can be reached, no past
// its end.
#[derive(Clone, Copy)]
pub struct ReconnectAnalysis<'a> {
    pub source: usize,
    pub live: &'a [bool],
}

impl TopoAnalysis for ReconnectAnalysis<'_> {
    type Value = Strands;

    type Course = Going<true, false>;

    ghost meaning = { λ a. strand_meaning a.source a.live.now };

    fn blank(&self) -> Strands {
        BLANK
    }

    fn start(&self, _at: usize, _node: &Node) -> Strands {
        BLANK
    }

    fn join(
        &self,
        so_far: Strands,
        _at: usize,
        node: &Node,
        from: usize,
        parent: &Node,
        value: Strands,
    ) -> Strands {
        // The four cases of an edge, as the rule has them.
        match (parent.visible(), node.visible()) {
            (false, false) => so_far.extend(value, from, node.hidden()),
            (true, false) => so_far.start(value, from == self.source, node.hidden()),
            (false, true) => so_far.cover(value.has_strand()),
            (true, true) => so_far.cover(value.covered),
        }
    }

    fn close(&self, so_far: Strands, at: usize, _node: &Node) -> Strands {
        if self.live.get(at).copied().unwrap_or(false) {
            so_far
        } else {
            BLANK
        }
    }
}

// Works out what each node knows of one source.
pub fn strands(
    graph: &RawInstGraph,
    source: usize,
    live: &[bool],
    table: &mut [Strands],
) -> Result<(), Refusal>
    ensures answer { result ≡ run_answer (length table.old) (model graph.now) }
    ensures values { table.new ≡ run_table (strand_meaning source live.now) true false (model graph.now) table.old }
    ensures stand { result ≡ Ok tt → StrandsStand (graph_in (model graph.now)) source (take (length (model graph.now).nodes) table.new) }
{
    topo_analysis(graph, &ReconnectAnalysis { source, live }, table)
}
