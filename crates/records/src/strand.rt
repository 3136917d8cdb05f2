// What a node knows of one shown source.
ghost use Rattle.std.specs.Prelude.{◌≡◌};
ghost use Rattle.records.specs.Strands.{present, has_strand, added, onward, give, cover, drop_if, take_on, neither_shown, only_source_shown};

// How a strand comes from its source: over one edge, or past a node, to which it comes as that node's plain or marked
// strand does. As an Option the first case would be called None, and it is a path like the other.
#[derive(Clone, Copy, PartialEq, Eq, Debug)]
pub enum Path {
    Straight,
    Past { node: usize, marked: bool },
}

// Whether a walk comes from the source over nodes that are not shown, and along which path, where one is kept. Two Options
// in one another would not say which of them is absent.
#[derive(Clone, Copy, PartialEq, Eq, Debug)]
pub enum Strand {
    Absent,
    Pathless,
    Along(Path),
}

impl Strand {
    pub fn present(self) -> bool
        ensures { result ≡ present self }
    {
        match self {
            Strand::Absent => false,
            Strand::Pathless | Strand::Along(_) => true,
        }
    }

    // A strand added where one is present becomes pathless.
    fn and(self, new: Strand) -> Strand
        ensures { result ≡ added self new }
    {
        match (self, new) {
            (held, Strand::Absent) => held,
            (Strand::Absent, added) => added,
            (Strand::Pathless | Strand::Along(_), Strand::Pathless | Strand::Along(_)) => {
                Strand::Pathless
            }
        }
    }

    // The strand as it goes on past its node.
    fn past(self, node: usize, marked: bool) -> Strand
        ensures { result ≡ onward node marked self }
    {
        match self {
            Strand::Absent => Strand::Absent,
            Strand::Pathless => Strand::Pathless,
            Strand::Along(_) => Strand::Along(Path::Past { node, marked }),
        }
    }
}

// A strand is marked if it passes a Hidden node. A node is covered if a shown node stands between the source and it.
#[derive(Clone, Copy, PartialEq, Eq, Debug)]
pub struct Strands {
    pub plain: Strand,
    pub marked: Strand,
    pub covered: bool,
}

// What a node knows of a source that does not come to it.
pub const BLANK: Strands = Strands {
    plain: Strand::Absent,
    marked: Strand::Absent,
    covered: false,
};

impl Strands {
    pub fn has_strand(self) -> bool
        ensures { result ≡ has_strand self }
    {
        self.plain.present() || self.marked.present()
    }

    fn insert(mut self, marked: bool, strand: Strand) -> Strands
        ensures { result ≡ give marked strand self }
    {
        if marked {
            self.marked = self.marked.and(strand);
        } else {
            self.plain = self.plain.and(strand);
        }
        self
    }

    pub fn cover(self, by: bool) -> Strands
        ensures { result ≡ cover by self }
    {
        Strands {
            covered: self.covered || by,
            ..self
        }
    }

    fn drop_if(self, test: bool) -> Strands
        ensures { result ≡ drop_if test self }
    {
        if test {
            Strands {
                covered: self.covered,
                ..BLANK
            }
        } else {
            self
        }
    }

    // Takes on both strands of a node, marked if its own node is Hidden.
    fn take_on(self, other: Strands, prev: usize, hidden: bool) -> Strands
        ensures { result ≡ take_on hidden prev other self }
    {
        self.insert(hidden, other.plain.past(prev, false))
            .insert(true, other.marked.past(prev, true))
    }

    // An edge from a node that is not shown into one that is not shown. The node's number and whether it is Hidden come as
    // the analysis has them: a struct for a step would be made for each edge and taken apart at once.
    pub fn extend(self, other: Strands, prev: usize, hidden: bool) -> Strands
        ensures { result ≡ neither_shown hidden prev other self }
    {
        let kept = self.drop_if(other.covered);
        if self.covered {
            return kept.cover(other.covered);
        }
        kept.take_on(other, prev, hidden).cover(other.covered)
    }

    // An edge from a shown node, here the source or another, into one that is not shown.
    pub fn start(self, other: Strands, is_source: bool, hidden: bool) -> Strands
        ensures { result ≡ only_source_shown is_source hidden other self }
    {
        if is_source {
            return self
                .insert(hidden, Strand::Along(Path::Straight))
                .cover(other.covered);
        }
        self.cover(other.covered)
    }
}
