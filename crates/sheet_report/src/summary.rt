// The facts of a graph that a report names.
ghost use Rattle.std.specs.Prelude.{◌≡◌, Some};
ghost use Rattle.graph.specs.Model.{model};
ghost use Rattle.sheet_report.specs.Summaries.{summary_of, of_kind};
ghost use Rattle.sheet_report.specs.Texts.{line, summary_text};

use graph::raw::RawInstGraph;
use graph::stats::GraphStats;
use records::node::{Node, NodeKind};
use std::fmt;

#[derive(Clone, Copy, PartialEq, Eq, Debug)]
pub struct Summary {
    pub nodes: usize,
    pub edges: usize,
    pub shown: usize,
    pub stats: GraphStats,
    // How many nodes there are of each kind. A field for each: a table by the kinds' numbers would not say which is which.
    pub instantiations: usize,
    pub enodes: usize,
    pub given_equalities: usize,
    pub trans_equalities: usize,
    pub proofs: usize,
    pub cdcls: usize,
}

// How many of the nodes are of a kind.
fn count_kind(nodes: &[Node], kind: NodeKind) -> usize
    ensures { result ≡ of_kind kind nodes.now }
{
    nodes.iter().filter(|node| node.kind == kind).count()
}

impl Summary {
    pub fn of(graph: &RawInstGraph) -> Summary
        ensures { result ≡ summary_of (model graph.now) }
    {
        let nodes = graph.nodes();
        let stats = graph.stats();
        Summary {
            nodes: nodes.len(),
            edges: graph.edges().len(),
            shown: graph.visible_nodes(),
            stats,
            instantiations: count_kind(nodes, NodeKind::Instantiation),
            enodes: count_kind(nodes, NodeKind::ENode),
            given_equalities: count_kind(nodes, NodeKind::GivenEquality),
            trans_equalities: count_kind(nodes, NodeKind::TransEquality),
            proofs: count_kind(nodes, NodeKind::Proof),
            cdcls: count_kind(nodes, NodeKind::Cdcl),
        }
    }
}

// A line with a name and a number.
#[derive(Clone, Copy)]
pub(crate) struct Fact<'a>(pub(crate) &'a str, pub(crate) usize);

impl fmt::Display for Fact<'_> {
    ghost output = { λ fact. Some (line fact.0.now fact.1) };

    fn fmt<W: fmt::Write>(&self, f: &mut fmt::Formatter<W>) -> fmt::Result {
        writeln!(f, "{} {}", self.0, self.1)
    }
}

// A line for each fact.
impl fmt::Display for Summary {
    ghost output = { λ summary. Some (summary_text summary) };

    fn fmt<W: fmt::Write>(&self, f: &mut fmt::Formatter<W>) -> fmt::Result {
        write!(
            f,
            "{}{}{}{}{}{}{}{}{}{}{}{}",
            Fact("nodes", self.nodes),
            Fact("edges", self.edges),
            Fact("shown", self.shown),
            Fact("hidden", self.stats.hidden as usize),
            Fact("disabled", self.stats.disabled as usize),
            Fact("generation", self.stats.generation as usize),
            Fact("Instantiation", self.instantiations),
            Fact("ENode", self.enodes),
            Fact("GivenEquality", self.given_equalities),
            Fact("TransEquality", self.trans_equalities),
            Fact("Proof", self.proofs),
            Fact("Cdcl", self.cdcls),
        )
    }
}
