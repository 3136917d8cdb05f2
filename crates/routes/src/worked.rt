// Small graphs whose rows are worked out from the definitions.
ghost use Rattle.routes.specs.Worked.{ForkRows, KeptRows, TurnedRows, DroppedRows, DoubledRows, LastTwiceRows, InARowRows, PairRows, GapRows};
ghost use Rattle.routes.specs.Misread.{NewestCounts, ShownParentsDropNothing, RepeatedEdgesLoseThePath, RepeatedLastEdgesLoseThePath, ShownNodesTakeOnStrandsAlone};

// Small graphs have the rows that they should.
pub fn small_graphs_have_their_rows()
    ensures { ForkRows × KeptRows × TurnedRows × DroppedRows × DoubledRows × LastTwiceRows × InARowRows × PairRows × GapRows }
{}

// Another reading of the rules gives other rows.
pub fn misreadings_give_other_rows()
    ensures { NewestCounts × ShownParentsDropNothing × RepeatedEdgesLoseThePath × RepeatedLastEdgesLoseThePath × ShownNodesTakeOnStrandsAlone }
{}
