// What an analysis is.
ghost use Rattle.std.specs.Prelude.{◌≡◌, Bool};
ghost use Rattle.analysis.specs.Rule.{Meaning};

use records::node::Node;

// How a run goes through a graph. In the Rust these are two const parameters of the analysis; a trait with a `bool` one
// cannot be stated yet, and an impl with a lifetime cannot give a constant, so a type of its own has them.
pub trait Course {
    // Whether a node's neighbours are the sources of its edges, and not the targets.
    const FORWARD: bool;

    // Whether disabled nodes are passed over.
    const SKIP_DISABLED: bool;

    ghost FORWARD: { Bool };

    ghost SKIP_DISABLED: { Bool };
}

pub struct Going<const FORWARD: bool, const SKIP_DISABLED: bool>;

impl<const F: bool, const S: bool> Course for Going<F, S> {
    const FORWARD: bool = F;

    const SKIP_DISABLED: bool = S;

    ghost FORWARD = { F };

    ghost SKIP_DISABLED = { S };
}

// Works out a value for each node from the values of its neighbours. A node comes with its number, as in the Rust.
pub trait TopoAnalysis {
    type Value: Copy;

    type Course: Course;

    // What the functions below mean, for the analysis as it stands.
    ghost meaning: { Self → Meaning Self.Value };

    fn blank(&self) -> Self::Value
        ensures { result ≡ (meaning self.now).blank };

    fn start(&self, at: usize, node: &Node) -> Self::Value
        ensures { result ≡ (meaning self.now).start at node.now };

    fn join(
        &self,
        so_far: Self::Value,
        at: usize,
        node: &Node,
        from: usize,
        neighbour: &Node,
        value: Self::Value,
    ) -> Self::Value
        ensures { result ≡ (meaning self.now).join so_far at node.now from neighbour.now value };

    fn close(&self, so_far: Self::Value, at: usize, node: &Node) -> Self::Value
        ensures { result ≡ (meaning self.now).close so_far at node.now };
}
