// The whole drawing of a text.
ghost use Rattle.std.specs.Prelude.{◌≡◌, ◌≤◌, [], ◌∷◌, ◌++◌, length, Some};
ghost use Rattle.drawing.specs.Output.{done_text, drawing as drawn_text, notice, output};
ghost use Rattle.pages.specs.Limit.{limit};
ghost use Rattle.pages.specs.Pages.{Prints};
ghost use Rattle.records.specs.Texts.{records};

use crate::following::follow_records;
use crate::showing::show_case;
use flow::case::Case;
use flow::draft::Draft;
use flow::room::Room;
use pages::page::{LIMIT, Page};
use records::splitter::Splitter;

// What was done: states, edges drawn, edges that closing added, labels, lines, records refused, checks asked for.
#[tactic(auto, using(pages::proofs::Adding::printing))]
fn show_done(case: &Case, drawn: usize, refused: u32, checks: u32, page: &mut Page)
    requires { drawn ≤ length case.now.graph.edges }
    ensures { let text = done_text case.now drawn refused checks in Prints page.old text page.new }
{
    let edges = case.edges().len();
    let labels = case.labels().len() as u32;
    let lines = case.lines().len() as u32;
    // Closing only adds edges, so there are no fewer than were drawn.
    let added = (edges - drawn) as u32;
    page.put(b'D');
    page.put_fields(&[
        case.states(),
        drawn as u32,
        added,
        labels,
        lines,
        refused,
        checks,
    ]);
    page.end_record();
}

// Draws a text that is not too long.
fn draw_text(room: Room, page: &mut Page, input: &[u8])
    requires { length input.now ≤ limit }
    ensures { Prints page.old (drawn_text (records input.now)) page.new }
{
    let mut splitter = Splitter::new(input);
    let mut draft = Draft::begin(room);
    let first = follow_records(&mut splitter, &mut draft, page);
    let drawn = draft.edges().len();
    let mut case = draft.close();
    let second = follow_records(&mut splitter, &mut case, page);
    show_case(&case, page);
    show_done(
        &case,
        drawn,
        first.refused + second.refused,
        second.checks,
        page,
    );
}

// Leaves the notice on the page, and nothing else.
#[tactic(auto, using(crate::proofs::Bounds::add_empty))]
fn give_notice(page: &mut Page)
    ensures { page.new ≡ Some notice }
{
    page.clear();
    page.put_all(b"X,T,24,0,0\r\n");
}

/// Leaves on the page what is printed of the text: the refusals, the closed case, and what was done; or one notice,
/// where the text or what is printed of it is too long. Whatever stood on the page before is gone.
#[tactic(auto, using(crate::proofs::Bounds::add_empty), unfolding(crate::specs::Output::output))]
pub fn draw(room: Room, page: &mut Page, input: &[u8])
    ensures { page.new ≡ Some (output input.now) }
{
    if input.len() > LIMIT {
        give_notice(page);
        return;
    }
    page.clear();
    draw_text(room, page, input);
    if page.text().is_none() {
        give_notice(page);
    }
}
