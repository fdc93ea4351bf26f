// `P`: the rows of labels.
ghost use Rattle.std.specs.Prelude.{◌≡◌, Some as There};
ghost use Rattle.lists.specs.Changes.{Adds};
ghost use Rattle.logic.specs.Operators.{labelled, met_with, naming, narrowed as narrower, of_label};
ghost use Rattle.rows.specs.Rows.{box as box_of};
ghost use Rattle.std.specs.List.{flat_map};

use crate::atom::Atom;
use flow::case::Case;
use kinds::kind::Kind;
use lists::lists::Lists;
use lists::slot::Slot;
use logic::shortage::Shortage;
use rows::row::Row;
use rows::variable::Variable;

// The row with the box of a variable met with the box of a value, or none where these do not meet.
fn narrowed<K: Kind>(row: &Row<K::Box>, variable: Variable, value: u32) -> Option<Row<K::Box>>
    ensures { let held = row.now in
        let x = variable.number in
        result ≡ narrower K.model held x (met_with K.model (box_of K.model held x) (K.model.one value)) }
{
    let held = row.boxes[variable.number];
    let one = K::one(value)?;
    let met = K::meet(&held, &one)?;
    Some(row.with_box::<K>(variable, met))
}

// The row with the box of each variable met with that of its value, in order; none where a meet is none or the counts
// differ.
fn named_row<K: Kind>(start: &Row<K::Box>, atom: &Atom, values: &[u32]) -> Option<Row<K::Box>>
    ensures { result ≡ naming K.model (There start.now) atom.now.variables.now values.now }
{
    if atom.variables.len() != values.len() {
        return None;
    }
    let mut row = *start;
    for (x, n) in atom.variables.iter().zip(values) {
        let variable = Variable {
            number: *x as usize,
        };
        row = narrowed::<K>(&row, variable, *n)?;
    }
    Some(row)
}

// Adds to `dest` the rows of the labels of one state, in order.
fn state_labels<K: Kind>(
    case: &Case,
    lists: &mut Lists<'_, Row<K::Box>>,
    atom: &Atom,
    state: u32,
    dest: Slot,
) -> Result<(), Shortage>
    ensures { let graph = case.now.graph in
        Adds K.model result lists.old lists.new dest.number
        (flat_map (of_label K.model graph atom.now.predicate atom.now.variables.now state) graph.labels) }
{
    let blank = Row::blank::<K>(state);
    for label in case.labels() {
        if label.state == state && label.predicate == atom.predicate {
            if let Some(row) = named_row::<K>(&blank, atom, label.values.as_slice()) {
                lists.add::<K>(dest, row)?;
            }
        }
    }
    Ok(())
}

/// Adds to `dest` the rows of `P`: for each state and each of its labels with the predicate and as many values, in
/// order.
// `case` and `lists` stay two: each operator has operands of its own beside them.
pub fn predicate<K: Kind>(
    case: &Case,
    lists: &mut Lists<'_, Row<K::Box>>,
    atom: &Atom,
    dest: Slot,
) -> Result<(), Shortage>
    ensures { let rows = labelled K.model case.now.graph atom.now.predicate atom.now.variables.now in
        Adds K.model result lists.old lists.new dest.number rows }
{
    for state in 0..case.states() {
        state_labels::<K>(case, lists, atom, state, dest)?;
    }
    Ok(())
}
