// The graph that callers hold.
use graph::raw::RawInstGraph;
use std::marker::Model;

#[derive(Drop)]
pub struct InstGraph {
    pub(crate) raw: RawInstGraph,
}

// A clause sees the graph as its lists.
impl Model for InstGraph {
    ghost use Rattle.graph.specs.Model.{Model as Lists, model};

    ghost Value = { Lists };

    ghost view = { λ g. model g.raw };
}
