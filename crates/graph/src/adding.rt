// Making a graph: nodes, edges, and nodes that are disabled.
ghost use Rattle.std.specs.Prelude.{◌≡◌};
ghost use Rattle.graph.specs.Model.{model, empty, outcome};
ghost use Rattle.records.specs.declared.node.NodeState.TheVariants.{Visible};
ghost use Rattle.graph.specs.Tallies.{tally};
ghost use Rattle.graph.specs.Adding.{add_node, add_edge, known, node_record, room_for};

use crate::lists::EdgeLists;
use crate::raw::RawInstGraph;
use crate::stats::GraphStats;
use arrayvec::ArrayVec;
use records::edge::Edge;
use records::node::{Node, NodeKind};
use records::refusal::Refusal;
use records::stage::{Call, Stage, admit};

impl RawInstGraph {
    // An empty open graph.
    pub fn new() -> Self
        ensures { model result ≡ empty }
    {
        RawInstGraph {
            nodes: ArrayVec::new(),
            edges: EdgeLists::new(),
            stats: GraphStats::default(),
            sealing: None,
        }
    }

    // Adds a hidden node, and tells its number. A kind comes with its item, as in the Rust.
    pub fn add_node(&mut self, kind: NodeKind, item: u32) -> Result<usize, Refusal>
        ensures { outcome result (model self.new) ≡ add_node kind item (model self.old) }
    {
        admit(self.stage(), Call::AddNode)?;
        if self.nodes.is_full() {
            return Err(Refusal::NodesFull);
        }
        let number = self.nodes.len();
        self.nodes.push(Node {
            kind,
            item,
            ..Node::default()
        });
        self.stats.hidden += 1;
        Ok(number)
    }

    // Adds an edge between two nodes, and tells its number.
    pub fn add_edge(&mut self, source: usize, target: usize) -> Result<usize, Refusal>
        ensures { outcome result (model self.new) ≡ add_edge source target (model self.old) }
    {
        admit(self.stage(), Call::AddEdge)?;
        self.known(source)?;
        self.known(target)?;
        if self.edges.is_full() {
            return Err(Refusal::EdgesFull);
        }
        let number = self.edges().len();
        self.edges.push(Edge {
            source: source as u16,
            target: target as u16,
        });
        Ok(number)
    }

    // Whether there is a node of that number.
    pub(crate) fn known(&self, number: usize) -> Result<(), Refusal>
        ensures { result ≡ known number (model self.now) }
    {
        if number < self.nodes.len() {
            Ok(())
        } else {
            Err(Refusal::UnknownNode(number))
        }
    }

    // Whether a table of so many entries has one for each node.
    pub fn room_for(&self, entries: usize) -> Result<(), Refusal>
        ensures { result ≡ room_for entries (model self.now) }
    {
        let count = self.nodes.len();
        if entries < count {
            return Err(Refusal::TableTooShort(count));
        }
        Ok(())
    }

    // A node's record.
    pub fn node(&self, number: usize) -> Result<Node, Refusal>
        ensures { result ≡ node_record number (model self.now) }
    {
        self.known(number)?;
        Ok(self.nodes()[number])
    }

    pub fn stage(&self) -> Stage
        ensures { result ≡ (model self.now).stage }
    {
        match self.sealing {
            Some(_) => Stage::Sealed,
            None => Stage::Open,
        }
    }

    // The nodes by their numbers.
    pub fn nodes(&self) -> &[Node]
        ensures { result.now ≡ (model self.now).nodes }
    {
        self.nodes.as_slice()
    }

    // The edges by their numbers.
    pub fn edges(&self) -> &[Edge]
        ensures { result.now ≡ (model self.now).edges }
    {
        self.edges.as_slice()
    }

    // The nodes in an order in which each edge's source stands before its target; none before the graph is sealed.
    pub fn order(&self) -> &[u16]
        ensures { result.now ≡ (model self.now).order }
    {
        self.sealing
            .as_ref()
            .map_or(&[], |sealing| sealing.order.as_slice())
    }

    // Whether from a node one that is not disabled can be reached; no entries before the graph is sealed. It and `order` are
    // shorter than a function for both.
    pub fn reach(&self) -> &[bool]
        ensures { result.now ≡ (model self.now).reach }
    {
        self.sealing
            .as_ref()
            .map_or(&[], |sealing| sealing.reach.as_slice())
    }

    // How many nodes are shown.
    pub fn visible_nodes(&self) -> usize
        ensures { result ≡ tally Visible (model self.now).nodes }
    {
        self.nodes.len() - self.stats.hidden as usize - self.stats.disabled as usize
    }
}
