// The two phases of a case, and what a record does in each.
ghost use Rattle.std.specs.Prelude.{◌≡◌};
ghost use Rattle.drawing.specs.Following.{
  Standing,
  closed_case,
  draft_step,
  drafting,
  drawn_by,
  entered_by,
  next,
  reply,
  sheet_step,
};
ghost use Rattle.records.specs.Seen.{draft_seen, sheet_seen};

use crate::fault::Fault;
use crate::step::Step;
use flow::case::Case;
use flow::draft::Draft;
use flow::refusal::Refusal;
use records::call::{DraftCall, SheetCall};
use records::record::Record;

// A case in one of its phases.
pub(crate) trait Phase {
    ghost standing: { Self → Standing };

    // Carries out what the record asks for, or says why it is refused; a refused record changes nothing.
    fn follow(&mut self, record: &Record) -> Result<Step, Fault>
        ensures answers { result ≡ reply (standing self.old) «record».now.text.now }
        ensures leaves { let text = «record».now.text.now in
            standing self.new ≡ next (standing self.old) text };
}

// Carries out a call on a draft.
fn draw(draft: &mut Draft, call: DraftCall) -> Result<Step, Refusal>
    ensures answers { result ≡ draft_step draft.old (draft_seen call) }
    ensures leaves { draft.new ≡ drawn_by draft.old (draft_seen call) }
{
    match call {
        DraftCall::State => {
            draft.state()?;
        }
        DraftCall::Edge { from, to } => draft.edge(from, to)?,
        DraftCall::Label {
            state,
            predicate,
            values,
        } => draft.label(state, predicate, values.as_slice())?,
        DraftCall::Close => return Ok(Step::Closes),
    }
    Ok(Step::Goes)
}

// Carries out a call on a closed case. No check is worked yet.
fn enter(case: &mut Case, call: SheetCall) -> Result<Step, Refusal>
    ensures answers { result ≡ sheet_step case.old (sheet_seen call) }
    ensures leaves { case.new ≡ entered_by case.old (sheet_seen call) }
{
    match call {
        SheetCall::Line { operator, numbers } => {
            case.line(char::from(operator), numbers.as_slice())?;
            Ok(Step::Goes)
        }
        SheetCall::Check { .. } => Ok(Step::Checks),
    }
}

// The two `follow` stay apart: one over the type of the calls would state what `draw` and `enter` do once more.
impl Phase for Draft {
    ghost standing = { drafting };

    fn follow(&mut self, record: &Record) -> Result<Step, Fault> {
        Ok(draw(self, DraftCall::try_from(record)?)?)
    }
}

impl Phase for Case {
    ghost standing = { closed_case };

    fn follow(&mut self, record: &Record) -> Result<Step, Fault> {
        Ok(enter(self, SheetCall::try_from(record)?)?)
    }
}
