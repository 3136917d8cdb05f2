// Noting from which nodes of a sealed graph one that is not disabled can be reached.
ghost use Rattle.std.specs.Prelude.{◌≡◌, false, length};
ghost use Rattle.records.specs.declared.stage.Stage.TheVariants.{Sealed};
ghost use Rattle.tables.specs.Filled.{filled};
ghost use Rattle.graph.specs.Model.{model};
ghost use Rattle.graph.specs.Sealing.{with_reach};
ghost use Rattle.graph.specs.Tables.{IsTableOf};
ghost use Rattle.routes.specs.Reach.{TellsReach};
ghost use Rattle.reconnect.specs.Graphs.{graph_in};
ghost use Rattle.reconnect.specs.Reach.{is_enabled};
ghost use Rattle.inst_graph.specs.Reached.{reach_table};

use graph::raw::RawInstGraph;
use reconnect::reach::{ReachNonDisabled, reach};
use tables::fill::fill;

// Works the reach table out in a work table, which is blank afterwards.
pub(crate) fn note_reach(graph: &mut RawInstGraph, work: &mut [bool])
    requires sealed { (model graph.old).stage ≡ Sealed }
    requires room { IsTableOf (model graph.old) work.old }
    ensures after { model graph.new ≡ with_reach (reach_table (model graph.old)) (model graph.old) }
    ensures table { work.new ≡ filled (length (model graph.old).nodes) false work.old }
    ensures tells { TellsReach is_enabled (graph_in (model graph.old)) (model graph.new).reach }
{
    reach::<ReachNonDisabled>(graph, work).unwrap();
    let count = graph.nodes().len();
    graph.put_reach(&work[..count]);
    fill(work, count, false);
}
