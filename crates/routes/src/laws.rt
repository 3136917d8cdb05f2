// The laws of views, for every graph without closed walks.
ghost use Rattle.routes.specs.Laws.{RowsStand, RoutesKept, HasView};

// Each row of a view stands for a walk of the graph.
pub fn rows_stand()
    ensures { RowsStand }
{}

// One shown node leads to another over the rows exactly when it does over the edges.
pub fn routes_are_kept()
    ensures { RoutesKept }
{}

// Every such graph has a view: one table for each analysis that it takes, and these laws for its rows.
pub fn views_are_there()
    ensures { HasView }
{}
