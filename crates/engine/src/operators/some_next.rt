// `N`: the rows at successors, rewritten.
ghost use Rattle.flow.specs.Graph.{successors};
ghost use Rattle.lists.specs.Changes.{Adds};
ghost use Rattle.lists.specs.Lent.{table_in};
ghost use Rattle.lists.specs.Tables.{at};
ghost use Rattle.logic.specs.Operators.{moved, stepped};
ghost use Rattle.std.specs.List.{flat_map};

use flow::case::Case;
use kinds::kind::Kind;
use lists::lists::Lists;
use lists::route::Route;
use logic::shortage::Shortage;
use rows::row::Row;

// Adds to the list that grows the rows of the other that are at the state `from`, rewritten to the state `to`. A row
// is read by its number, since both lists lie in the same lent rows.
fn add_moved<K: Kind>(
    lists: &mut Lists<'_, Row<K::Box>>,
    route: Route,
    from: u32,
    to: u32,
) -> Result<(), Shortage>
    ensures { let rows = at (table_in lists.old) route.source.number in
        Adds K.model result lists.old lists.new route.dest.number (moved K.model to from rows) }
{
    for i in 0..lists.len(route.source) {
        let mut row = lists.get(route.source, i);
        if row.state == from {
            row.state = to;
            lists.add::<K>(route.dest, row)?;
        }
    }
    Ok(())
}

// Adds to the list that grows, for each successor of a state in edge order, the rows of the other that are there,
// moved to the state.
fn state_successors<K: Kind>(
    case: &Case,
    lists: &mut Lists<'_, Row<K::Box>>,
    route: Route,
    state: u32,
) -> Result<(), Shortage>
    ensures { let rows = at (table_in lists.old) route.source.number in
        let leads = successors case.now.graph state in
        Adds K.model result lists.old lists.new route.dest.number (flat_map (λ t. moved K.model state t rows) leads) }
{
    for edge in case.edges() {
        if edge.from == state {
            add_moved::<K>(lists, route, edge.to, state)?;
        }
    }
    Ok(())
}

/// Adds to the list that grows the rows of `N` of the list that is read: for each state and each of its successors,
/// the rows at the successor, rewritten to the state.
// `case` and `lists` stay two, as for `P`.
pub fn some_next<K: Kind>(
    case: &Case,
    lists: &mut Lists<'_, Row<K::Box>>,
    route: Route,
) -> Result<(), Shortage>
    ensures { let rows = at (table_in lists.old) route.source.number in
        Adds K.model result lists.old lists.new route.dest.number (stepped K.model case.now.graph rows) }
{
    for state in 0..case.states() {
        state_successors::<K>(case, lists, route, state)?;
    }
    Ok(())
}
