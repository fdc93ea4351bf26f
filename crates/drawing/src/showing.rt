// A case as records, on a page, and so no `Display`: see its `put_number`.
#![tactic(auto, using(crate::proofs::Steps::walking))]

ghost use Rattle.std.specs.Prelude.{◌∷◌, ◌++◌, map, codes};
ghost use Rattle.drawing.specs.Shown.{case_text, label_fields, line_text, lines_text, state_text, states_text};
ghost use Rattle.flow.specs.Graph.{ends};
ghost use Rattle.flow.specs.Held.{label_of, line_of};
ghost use Rattle.flow.specs.Line.{numbers};
ghost use Rattle.pages.specs.Pages.{Prints};
ghost use Rattle.pages.specs.Records.{as_fields};
ghost use Rattle.pages.specs.Spaced.{spaced};
ghost use Rattle.stores.specs.Listed.{listed};

use flow::case::Case;
use flow::edge::Edge;
use flow::label::Label;
use flow::line::Line;
use pages::page::Page;
use std::iter;

// The successors of a state, with single spaces between.
fn show_successors(edges: &[Edge], state: u32, page: &mut Page)
    ensures { Prints page.old (spaced (ends edges.now state)) page.new }
{
    let successors = edges
        .iter()
        .filter(|edge| edge.from == state)
        .map(|edge| edge.to);
    page.put_list(successors);
}

// A label as a field: its predicate and its values, with single spaces between.
fn show_label(label: &Label, page: &mut Page)
    ensures { let text = codes "," ++ spaced (label.now.predicate ∷ listed label.now.values) in
        Prints page.old text page.new }
{
    let values = label.values.as_slice().iter().copied();
    page.put(b',');
    page.put_list(iter::once(label.predicate).chain(values));
}

// The labels of a state, each as a field.
fn show_labels(labels: &[Label], state: u32, page: &mut Page)
    ensures { let text = label_fields (map label_of labels.now) state in
        Prints page.old text page.new }
{
    for label in labels {
        if label.state == state {
            show_label(label, page);
        }
    }
}

// A state with its successors and labels.
fn show_state(case: &Case, state: u32, page: &mut Page)
    ensures { let text = state_text case.now.graph state in Prints page.old text page.new }
{
    page.put(b'S');
    page.put_fields(&[state]);
    page.put(b',');
    show_successors(case.edges(), state, page);
    show_labels(case.labels(), state, page);
    page.end_record();
}

// The states, ascending.
fn show_states(case: &Case, page: &mut Page)
    ensures { let g = case.now.graph in Prints page.old (states_text g g.states) page.new }
{
    for state in 0..case.states() {
        show_state(case, state, page);
    }
}

// The numbers of a line, each as a field.
fn show_operands(line: &Line, page: &mut Page)
    ensures { Prints page.old (as_fields (numbers (line_of line.now))) page.new }
{
    match *line {
        Line::Predicate {
            predicate,
            variables,
        } => {
            page.put_fields(&[predicate]);
            page.put_fields(variables.as_slice());
        }
        Line::And { left, right }
        | Line::Or { left, right }
        | Line::AllUntil {
            until: left,
            goal: right,
        }
        | Line::SomeUntil {
            until: left,
            goal: right,
        } => page.put_fields(&[left, right]),
        Line::Not { line } | Line::AllNext { line } | Line::SomeNext { line } => {
            page.put_fields(&[line]);
        }
        Line::Exists { variable, line } => page.put_fields(&[variable, line]),
    }
}

// A line with its number, its operator and its numbers.
fn show_line(number: u32, line: &Line, page: &mut Page)
    ensures { Prints page.old (line_text number (line_of line.now)) page.new }
{
    page.put(b'F');
    page.put_fields(&[number]);
    page.put(b',');
    page.put(line.operator().into());
    show_operands(line, page);
    page.end_record();
}

// The lines, by their numbers.
fn show_lines(case: &Case, page: &mut Page)
    ensures { Prints page.old (lines_text 0 case.now.lines) page.new }
{
    for (number, line) in case.lines().iter().enumerate() {
        show_line(number as u32, line, page);
    }
}

// The whole case.
pub(crate) fn show_case(case: &Case, page: &mut Page)
    ensures { Prints page.old (case_text case.now) page.new }
{
    show_states(case, page);
    show_lines(case, page);
}
