// What sealing writes into the graph.
ghost use Rattle.std.specs.Prelude.{◌≡◌, ◌≤◌, true, length, replicate};
ghost use Rattle.graph.specs.Model.{model};
ghost use Rattle.graph.specs.Order.{OrdersNodes};
ghost use Rattle.records.specs.declared.stage.Stage.TheVariants.{Sealed};
ghost use Rattle.graph.specs.Reach.{YesOrDisabled, YesGoesBack};
ghost use Rattle.graph.specs.Tables.{IsTableOf};
ghost use Rattle.graph.specs.Sealing.{with_places, sealed_in, with_reach};

use crate::raw::{RawInstGraph, Sealing};
use arrayvec::ArrayVec;
use records::limits::MAX_NODES;
use records::node::{Node, Place};

impl Sealing {
    // Every node counts as one from which a node that is not disabled can be reached.
    fn new(order: &[u16]) -> Self
        requires { length order.now ≤ 1024 }
        ensures order { result.order.items ≡ order.now }
        ensures reach { result.reach.items ≡ replicate (length order.now) true }
    {
        let mut reach = ArrayVec::from([true; MAX_NODES]);
        reach.truncate(order.len());
        Sealing {
            order: ArrayVec::try_from(order).unwrap(),
            reach,
        }
    }
}

impl RawInstGraph {
    // Seals the graph with an order of all nodes, and gives each node its place.
    pub fn seal_in_order(&mut self, places: &[Option<Place>], order: &[u16])
        requires places { IsTableOf (model self.old) places.now }
        requires order { OrdersNodes (length (model self.old).nodes) (model self.old).edges order.now }
        ensures { model self.new ≡ sealed_in places.now order.now (model self.old) }
    {
        put_places(&mut self.nodes, places);
        self.sealing = Some(Sealing::new(order));
    }

    // Notes from which nodes one that is not disabled can be reached.
    pub fn put_reach(&mut self, reach: &[bool])
        requires sealed { (model self.old).stage ≡ Sealed }
        requires long { length reach.now ≡ length (model self.old).nodes }
        requires or_disabled { YesOrDisabled (model self.old).nodes reach.now }
        requires goes_back { YesGoesBack (model self.old).edges reach.now }
        ensures { model self.new ≡ with_reach reach.now (model self.old) }
    {
        if let Some(sealing) = &mut self.sealing {
            sealing.reach.copy_from_slice(reach);
        }
    }
}

// Gives each node its place. After a `zip` with the places nothing would be known of the nodes that were written.
fn put_places(nodes: &mut [Node], places: &[Option<Place>])
    requires { length nodes.old ≤ length places.now }
    ensures { nodes.new ≡ with_places places.now nodes.old }
{
    for (at, node) in nodes.iter_mut().enumerate() {
        node.place = places[at];
    }
}
