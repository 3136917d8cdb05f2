// Every call on a graph. What each does is one equation on its answer and the whole graph after it; a call that
// does not belong to the graph's stage is refused, and a refusal changes nothing. What holds of every graph is the
// clause `sound` of each.
ghost use Rattle.std.specs.Prelude.{◌≡◌, true, length, take, IfOk, Ok, OnOk, nat_eq};
ghost use Rattle.graph.specs.Model.{Model, empty, outcome};
ghost use Rattle.graph.specs.Adding.{add_node, add_edge, node_record, stats_of};
ghost use Rattle.graph.specs.Hiding.{disable, set_visibility, set_visibility_many, reset_visibility_to, keep_first_n};
ghost use Rattle.graph.specs.Sound.{Sound};
ghost use Rattle.graph.specs.HidingLaws.{named, Turned, KeptFirst};
ghost use Rattle.analysis.specs.Near.{near_of};
ghost use Rattle.analysis.specs.Rule.{Solves};
ghost use Rattle.analysis.specs.Runs.{run_answer, run_table};
ghost use Rattle.sheet.specs.Reading.{sheet_read, answered, left};
ghost use Rattle.sheet.specs.Encoding.{sheet_of, Given};
ghost use Rattle.inst_graph.specs.Seals.{seal, seal_table, WellSealed, RefusedWell};

use crate::inst_graph::InstGraph;
use crate::seal::seal;
use analysis::analysis::TopoAnalysis;
use analysis::run::topo_analysis;
use graph::raw::RawInstGraph;
use graph::stats::GraphStats;
use records::node::{Node, NodeKind, Visibility};
use records::refusal::Refusal;
use records::sheet_refusal::SheetRefusal;
use sheet::reading::read_sheet;

#[tactic(auto, using(graph::proofs::Sound::sound))]
impl InstGraph {
    // An empty open graph.
    pub fn new() -> Self
        ensures value { result ≡ empty }
        ensures sound { Sound result }
    {
        InstGraph {
            raw: RawInstGraph::new(),
        }
    }

    // Replaces the graph by the one that a sheet gives, or by an empty one where the sheet is refused.
    pub fn read_sheet(&mut self, bytes: &[u8]) -> Result<(), SheetRefusal>
        ensures answer { result ≡ answered (sheet_read bytes.now) }
        ensures after { self.new ≡ left (sheet_read bytes.now) }
        ensures exact { OnOk result ((bytes.now ≡ sheet_of self.new) × Given self.new) }
        ensures whole { (m : Model) → Given m → bytes.now ≡ sheet_of m → (result ≡ Ok tt) × (self.new ≡ m) }
        ensures sound { Sound self.new }
    {
        read_sheet(&mut self.raw, bytes)
    }

    // Adds a hidden node, and tells its number.
    pub fn add_node(&mut self, kind: NodeKind, item: u32) -> Result<usize, Refusal>
        ensures whole { outcome result self.new ≡ add_node kind item self.old }
        ensures sound { Sound self.new }
    {
        self.raw.add_node(kind, item)
    }

    // Adds an edge between two nodes, and tells its number.
    pub fn add_edge(&mut self, source: usize, target: usize) -> Result<usize, Refusal>
        ensures whole { outcome result self.new ≡ add_edge source target self.old }
        ensures sound { Sound self.new }
    {
        self.raw.add_edge(source, target)
    }

    // Disables a node, and tells whether that changed it.
    pub fn disable(&mut self, number: usize) -> Result<bool, Refusal>
        ensures whole { outcome result self.new ≡ disable number self.old }
        ensures sound { Sound self.new }
    {
        self.raw.disable(number)
    }

    // Seals the graph with the help of a work table, and tells how many subgraphs it has.
    pub fn seal(&mut self, work: &mut [bool]) -> Result<usize, Refusal>
        ensures whole { outcome result self.new ≡ seal (length work.old) self.old }
        ensures table { work.new ≡ seal_table self.old work.old }
        ensures law { OnOk result (WellSealed self.old self.new) }
        ensures refusals { RefusedWell self.old (length work.old) result }
        ensures sound { Sound self.new }
    {
        seal(&mut self.raw, work)
    }

    // Shows or hides one node, and tells whether that changed it.
    pub fn set_visibility(&mut self, number: usize, to: Visibility) -> Result<bool, Refusal>
        ensures whole { outcome result self.new ≡ set_visibility number to self.old }
        ensures law { IfOk result (λ changed. Turned to (nat_eq number) changed self.old self.new) }
        ensures sound { Sound self.new }
    {
        self.raw.set_visibility(number, to)
    }

    // Shows or hides the nodes of a list, and tells whether that changed any.
    pub fn set_visibility_many(
        &mut self,
        to: Visibility,
        numbers: &[usize],
    ) -> Result<bool, Refusal>
        ensures whole { outcome result self.new ≡ set_visibility_many to numbers.now self.old }
        ensures law { IfOk result (λ changed. Turned to (named numbers.now) changed self.old self.new) }
        ensures sound { Sound self.new }
    {
        self.raw.set_visibility_many(to, numbers)
    }

    // Shows or hides every node that is not disabled, and tells whether that changed any.
    pub fn reset_visibility_to(&mut self, to: Visibility) -> Result<bool, Refusal>
        ensures whole { outcome result self.new ≡ reset_visibility_to to self.old }
        ensures law { IfOk result (λ changed. Turned to (λ _. true) changed self.old self.new) }
        ensures sound { Sound self.new }
    {
        self.raw.reset_visibility_to(to)
    }

    // Passes the first n entries of the list that are shown, and hides the rest of it.
    pub fn keep_first_n(&mut self, numbers: &[usize], n: usize) -> Result<bool, Refusal>
        ensures whole { outcome result self.new ≡ keep_first_n numbers.now n self.old }
        ensures law { IfOk result (λ changed. KeptFirst n numbers.now changed self.old self.new) }
        ensures sound { Sound self.new }
    {
        self.raw.keep_first_n(numbers, n)
    }

    // Works out the value of each node, and leaves it in the table.
    pub fn topo_analysis<A: TopoAnalysis>(
        &self,
        analysis: &A,
        table: &mut [A::Value],
    ) -> Result<(), Refusal>
        ensures answer { result ≡ run_answer (length table.old) self.now }
        ensures values { table.new ≡ run_table (A.meaning analysis.now) A.Course.FORWARD A.Course.SKIP_DISABLED self.now table.old }
        ensures only { result ≡ Ok tt → Solves (A.meaning analysis.now) self.now.nodes (near_of A.Course.FORWARD A.Course.SKIP_DISABLED self.now) (take (length self.now.nodes) table.new) }
        ensures sound { Sound self.now }
    {
        topo_analysis(&self.raw, analysis, table)
    }

    // A node's record.
    pub fn node(&self, number: usize) -> Result<Node, Refusal>
        ensures value { result ≡ node_record number self.now }
        ensures sound { Sound self.now }
    {
        self.raw.node(number)
    }

    // How many nodes are hidden and disabled, and how many changes of states there were.
    pub fn stats(&self) -> GraphStats
        ensures value { result ≡ stats_of self.now }
        ensures sound { Sound self.now }
    {
        self.raw.stats()
    }
}
