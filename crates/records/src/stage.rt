// The stages of a graph, and which calls belong to which.
ghost use Rattle.std.specs.Prelude.{◌≡◌};
ghost use Rattle.records.specs.Stages.{admission};

use crate::refusal::Refusal;

#[derive(Clone, Copy, PartialEq, Eq, Debug)]
pub enum Stage {
    Open,
    Sealed,
}

// The calls that belong to one stage only.
#[derive(Clone, Copy, PartialEq, Eq, Debug)]
pub enum Call {
    AddNode,
    AddEdge,
    Disable,
    Seal,
    SetVisibility,
    TopoAnalysis,
    ToVisible,
    Listing,
}

// The stage and the call together say whether the call is taken up: one match, in which each stage's calls are read.
pub fn admit(stage: Stage, call: Call) -> Result<(), Refusal>
    ensures { result ≡ admission stage call }
{
    match (stage, call) {
        (Stage::Open, Call::AddNode | Call::AddEdge | Call::Disable | Call::Seal) => Ok(()),
        (Stage::Sealed, Call::AddNode | Call::AddEdge | Call::Disable | Call::Seal) => {
            Err(Refusal::Sealed)
        }
        (
            Stage::Sealed,
            Call::SetVisibility | Call::TopoAnalysis | Call::ToVisible | Call::Listing,
        ) => Ok(()),
        (Stage::Open, Call::SetVisibility | Call::TopoAnalysis | Call::ToVisible | Call::Listing) =>
            Err(Refusal::StillOpen),
    }
}
