// Why a sheet was not read.
ghost use Rattle.std.specs.Prelude.{◌≡◌, Some};
ghost use Rattle.records.specs.SheetRefusals.{sheet_number, sheet_detail, sheet_refusal_line};

use crate::refusal::Refusal;
use std::error::Error;
use std::fmt;

// Each case tells the byte that it is about; a row that the graph refuses comes with the graph's refusal.
#[derive(Clone, Copy, PartialEq, Eq, Debug)]
pub enum SheetRefusal {
    Short(usize),
    Version,
    Length,
    Misfit(usize),
    BadByte(usize),
    Row(usize, Refusal),
}

impl SheetRefusal {
    // The numbers go on where a graph's end; they are the interface.
    pub fn number(&self) -> u8
        ensures { result ≡ sheet_number self.now }
    {
        match self {
            SheetRefusal::Short(_) => 12,
            SheetRefusal::Version => 13,
            SheetRefusal::Length => 14,
            SheetRefusal::Misfit(_) => 15,
            SheetRefusal::BadByte(_) => 16,
            SheetRefusal::Row(_, _) => 17,
        }
    }

    // What comes with the number: the byte count for a short sheet, else a byte's place.
    pub fn detail(&self) -> usize
        ensures { result ≡ sheet_detail self.now }
    {
        match self {
            SheetRefusal::Short(count) => *count,
            SheetRefusal::Version => 0,
            SheetRefusal::Length => 1,
            SheetRefusal::Misfit(at) => *at,
            SheetRefusal::BadByte(at) => *at,
            SheetRefusal::Row(at, _) => *at,
        }
    }
}

// The number and what comes with it, and after them the graph's refusal of a row.
impl fmt::Display for SheetRefusal {
    ghost output = { λ refusal. Some (sheet_refusal_line refusal) };

    fn fmt<W: fmt::Write>(&self, f: &mut fmt::Formatter<W>) -> fmt::Result {
        let number = self.number();
        let detail = self.detail();
        match self {
            SheetRefusal::Row(_, cause) => write!(f, "{number} {detail} graph {cause}"),
            SheetRefusal::Short(_)
            | SheetRefusal::Version
            | SheetRefusal::Length
            | SheetRefusal::Misfit(_)
            | SheetRefusal::BadByte(_) => write!(f, "{number} {detail}"),
        }
    }
}

impl Error for SheetRefusal {}
