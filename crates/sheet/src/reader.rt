// Reading the counts and rows of a sheet one after another.
ghost use Rattle.std.specs.Prelude.{◌≡◌, ◌≤◌, length, OnOk};
ghost use Rattle.sheet.specs.Rows.{chunk, count_at, node_row, edge_row};

use records::edge::Edge;
use records::node::{NodeKind, NodeState};
use records::sheet_refusal::SheetRefusal;

// A node as its row gives it. It is not a `Node`, since a row has no place.
#[derive(Clone, Copy)]
pub struct SheetNode {
    pub state: NodeState,
    pub kind: NodeKind,
    pub item: u32,
}

// A sheet, and the place of the byte that comes next.
#[derive(Clone, Copy)]
pub(crate) struct Reader<'a> {
    pub(crate) bytes: &'a [u8],
    pub(crate) at: usize,
    ghost inside: { at ≤ length bytes.now },
}

impl Reader<'_> {
    ghost use Rattle.sheet.specs.Readers.{Advances, rest};

    // The next bytes, as many as the array has.
    fn take<const N: usize>(&mut self) -> Result<[u8; N], SheetRefusal>
        ensures value { result ≡ chunk N self.old.at (rest self.old) }
        ensures after { OnOk result (Advances N self.old self.new) }
    {
        let next = self.bytes[self.at..]
            .first_chunk::<N>()
            .ok_or(SheetRefusal::Misfit(self.at))?;
        self.at += N;
        Ok(*next)
    }

    pub(crate) fn count(&mut self) -> Result<u16, SheetRefusal>
        ensures value { result ≡ count_at self.old.at (rest self.old) }
        ensures after { OnOk result (Advances 2 self.old self.new) }
    {
        Ok(u16::from_be_bytes(self.take()?))
    }

    pub(crate) fn node_row(&mut self) -> Result<SheetNode, SheetRefusal>
        ensures value { result ≡ node_row self.old.at (rest self.old) }
        ensures after { OnOk result (Advances 6 self.old self.new) }
    {
        let at = self.at;
        let [state, kind, a, b, c, d] = self.take::<6>()?;
        Ok(SheetNode {
            state: NodeState::try_from(state).map_err(|_| SheetRefusal::BadByte(at))?,
            kind: NodeKind::try_from(kind).map_err(|_| SheetRefusal::BadByte(at + 1))?,
            item: u32::from_be_bytes([a, b, c, d]),
        })
    }

    pub(crate) fn edge_row(&mut self) -> Result<Edge, SheetRefusal>
        ensures value { result ≡ edge_row self.old.at (rest self.old) }
        ensures after { OnOk result (Advances 4 self.old self.new) }
    {
        let [a, b, c, d] = self.take::<4>()?;
        Ok(Edge {
            source: u16::from_be_bytes([a, b]),
            target: u16::from_be_bytes([c, d]),
        })
    }
}
