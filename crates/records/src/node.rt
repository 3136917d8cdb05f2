// What a node is.
ghost use Rattle.std.specs.Prelude.{◌≡◌, Some, ok_or};
ghost use Rattle.records.specs.Nodes.{asked, is_disabled, is_hidden, is_shown, kind_number, kind_of, state_of};
ghost use Rattle.records.specs.Unknown.{unknown, unknown_line};

use std::error::Error;
use std::fmt;

// The states are numbered from 0.
#[derive(Clone, Copy, PartialEq, Eq, Debug, Default)]
pub enum NodeState {
    Disabled,
    #[default]
    Hidden,
    Visible,
}

// A number that no state, or no kind, has.
#[derive(Clone, Copy, PartialEq, Eq, Debug)]
pub struct UnknownNumber(pub u8);

impl fmt::Display for UnknownNumber {
    ghost output = { λ unknown. Some (unknown_line unknown) };

    fn fmt<W: fmt::Write>(&self, f: &mut fmt::Formatter<W>) -> fmt::Result {
        write!(f, "nothing has number {}", self.0)
    }
}

impl Error for UnknownNumber {}

// A table for states and one for kinds: each names its own cases.
impl TryFrom<u8> for NodeState {
    type Error = UnknownNumber;

    ghost try_from_gives = { λ number state. state ≡ ok_or (state_of number) (unknown number) };

    fn try_from(number: u8) -> Result<Self, UnknownNumber> {
        match number {
            0 => Ok(NodeState::Disabled),
            1 => Ok(NodeState::Hidden),
            2 => Ok(NodeState::Visible),
            _ => Err(UnknownNumber(number)),
        }
    }
}

// The kinds are numbered from 0.
#[derive(Clone, Copy, PartialEq, Eq, Debug, Default)]
pub enum NodeKind {
    #[default]
    Instantiation,
    ENode,
    GivenEquality,
    TransEquality,
    Proof,
    Cdcl,
}

impl From<NodeKind> for u8 {
    ghost from_gives = { λ kind number. number ≡ kind_number kind };

    fn from(kind: NodeKind) -> u8 {
        kind as u8
    }
}

impl TryFrom<u8> for NodeKind {
    type Error = UnknownNumber;

    ghost try_from_gives = { λ number kind. kind ≡ ok_or (kind_of number) (unknown number) };

    fn try_from(number: u8) -> Result<Self, UnknownNumber> {
        match number {
            0 => Ok(NodeKind::Instantiation),
            1 => Ok(NodeKind::ENode),
            2 => Ok(NodeKind::GivenEquality),
            3 => Ok(NodeKind::TransEquality),
            4 => Ok(NodeKind::Proof),
            5 => Ok(NodeKind::Cdcl),
            _ => Err(UnknownNumber(number)),
        }
    }
}

// The number of a node's subgraph, and where the node stands in that subgraph's order.
#[derive(Clone, Copy, PartialEq, Eq, Debug)]
pub struct Place {
    pub subgraph: u16,
    pub position: u16,
}

#[derive(Clone, Copy, PartialEq, Eq, Debug, Default)]
pub struct Node {
    pub state: NodeState,
    pub kind: NodeKind,
    pub item: u32,
    pub place: Option<Place>,
}

// One method for each state, with the Rust's names.
impl Node {
    pub fn disabled(&self) -> bool
        ensures { result ≡ is_disabled self.now }
    {
        self.state == NodeState::Disabled
    }

    pub fn hidden(&self) -> bool
        ensures { result ≡ is_hidden self.now }
    {
        self.state == NodeState::Hidden
    }

    pub fn visible(&self) -> bool
        ensures { result ≡ is_shown self.now }
    {
        self.state == NodeState::Visible
    }
}

// What a caller may ask for a node that is not disabled.
#[derive(Clone, Copy, PartialEq, Eq, Debug)]
pub enum Visibility {
    Hidden,
    Visible,
}

impl From<Visibility> for NodeState {
    ghost from_gives = { λ to state. state ≡ asked to };

    fn from(to: Visibility) -> NodeState {
        match to {
            Visibility::Hidden => NodeState::Hidden,
            Visibility::Visible => NodeState::Visible,
        }
    }
}
