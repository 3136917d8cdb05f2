// Running an analysis over a sealed graph.
ghost use Rattle.std.specs.Prelude.{◌≡◌, ◌++◌, length, take, drop, Ok};
ghost use Rattle.std.specs.Iterator.{AlwaysYields, IsFinite};
ghost use Rattle.records.specs.declared.stage.Stage.TheVariants as stage;
ghost use Rattle.graph.specs.Model.{model};
ghost use Rattle.graph.specs.Tables.{IsTableOf};
ghost use Rattle.analysis.specs.Near.{near_of};
ghost use Rattle.analysis.specs.Rule.{Solves, value_table};
ghost use Rattle.analysis.specs.Runs.{walk, run_answer, run_table};

use crate::analysis::{Course, TopoAnalysis};
use crate::values::Values;
use graph::raw::RawInstGraph;
use records::refusal::Refusal;
use records::stage::{Call, admit};
use tables::fill::fill;

// Works out the value of each node, neighbours first. The analysis and its table are the caller's two values, as in the Rust.
pub fn topo_analysis<A: TopoAnalysis>(
    graph: &RawInstGraph,
    analysis: &A,
    table: &mut [A::Value],
) -> Result<(), Refusal>
    ensures answer { result ≡ run_answer (length table.old) (model graph.now) }
    ensures values { table.new ≡ run_table (A.meaning analysis.now) A.Course.FORWARD A.Course.SKIP_DISABLED (model graph.now) table.old }
    ensures only { result ≡ Ok tt → Solves (A.meaning analysis.now) (model graph.now).nodes (near_of A.Course.FORWARD A.Course.SKIP_DISABLED (model graph.now)) (take (length (model graph.now).nodes) table.new) }
{
    admit(graph.stage(), Call::TopoAnalysis)?;
    graph.room_for(table.len())?;
    let count = graph.nodes().len();
    fill(table, count, analysis.blank());
    let order = graph.order().iter();
    if A::Course::FORWARD {
        run_steps(graph, analysis, table, order.copied());
    } else {
        run_steps(graph, analysis, table, order.rev().copied());
    }
    Ok(())
}

// Works out the value of each node that an iterator gives, in turn.
fn run_steps<A: TopoAnalysis, I: Iterator<Item = u16> + Drop>(
    graph: &RawInstGraph,
    analysis: &A,
    table: &mut [A::Value],
    order: I,
)
    requires sealed { (model graph.now).stage ≡ stage.Sealed }
    requires room { IsTableOf (model graph.now) table.old }
    requires can { I.can_next order }
    requires ends { IsFinite (I.remaining order) }
    requires gives { AlwaysYields I.next_gives (λ k. k) order (walk A.Course.FORWARD (model graph.now).order) }
    ensures { table.new ≡ value_table (A.meaning analysis.now) (model graph.now).nodes (near_of A.Course.FORWARD A.Course.SKIP_DISABLED (model graph.now)) ++ drop (length (model graph.now).nodes) table.old }
{
    for node in order {
        let at = node as usize;
        let values = Values {
            graph,
            analysis,
            table,
        };
        table[at] = values.value_of(at);
    }
}
