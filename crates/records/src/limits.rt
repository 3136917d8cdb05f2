// The most nodes and edges that a graph has.
pub const MAX_NODES: usize = 1024;

pub const MAX_EDGES: usize = 4096;
