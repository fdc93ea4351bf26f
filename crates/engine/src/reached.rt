// The lines that a line reaches.
ghost use Rattle.std.specs.Prelude.{◌≡◌, ◌<◌, ◌≤◌, true, map, length, nat_lt};
ghost use Rattle.flow.specs.Facts.{Ordered};
ghost use Rattle.flow.specs.Held.{line_of};
ghost use Rattle.flow.specs.Limits.{most_lines};
ghost use Rattle.std.specs.List.{list_all};
ghost use Rattle.logic.specs.Reached.{marking, operands, reached as is_reached};
ghost use Rattle.engine.specs.Marks.{marked};

use flow::limits::MOST_LINES;
use flow::line::Line;

// Marks the lines that a line names.
fn mark_named(line: &Line, marks: &mut [bool; MOST_LINES])
    requires { list_all (λ a. nat_lt a most_lines) (operands (line_of line.now)) ≡ true }
    ensures { marked marks.new
        ≡ marking true (operands (line_of line.now)) (marked marks.old) }
{
    match *line {
        Line::Predicate { .. } => {}
        Line::And { left, right }
        | Line::Or { left, right }
        | Line::AllUntil {
            until: left,
            goal: right,
        }
        | Line::SomeUntil {
            until: left,
            goal: right,
        } => {
            marks[left as usize] = true;
            marks[right as usize] = true;
        }
        Line::Not { line }
        | Line::Exists { line, .. }
        | Line::AllNext { line }
        | Line::SomeNext { line } => marks[line as usize] = true,
    }
}

/// The lines that the asked line reaches: itself, and the operands of each that it reaches.
// Downwards, since a line names only earlier ones. The marks are in place, since no check wants memory.
pub fn reached(lines: &[Line], asked: usize) -> [bool; MOST_LINES]
    requires few { length lines.now ≤ most_lines }
    requires ordered { Ordered (map line_of lines.now) }
    requires known { asked < length lines.now }
    ensures { marked result ≡ is_reached (map line_of lines.now) asked }
{
    let mut marks = [false; MOST_LINES];
    marks[asked] = true;
    for (i, line) in lines[..=asked].iter().enumerate().rev() {
        if marks[i] {
            mark_named(line, &mut marks);
        }
    }
    marks
}
