// The records of a phase, one after the other.
ghost use Rattle.std.specs.Prelude.{◌+◌, ◌≤◌, length};
ghost use Rattle.drawing.specs.Followed.{Followed};
ghost use Rattle.pages.specs.Limit.{limit};

use crate::phase::Phase;
use crate::step::Step;
use crate::tally::Tally;
use crate::telling::tell;
use pages::page::Page;
use records::splitter::Splitter;

// Follows each record up to the one that closes the draft, tells those that are refused, and counts.
pub(crate) fn follow_records<P: Phase>(
    splitter: &mut Splitter,
    phase: &mut P,
    page: &mut Page,
) -> Tally
    requires { splitter.old.count + length splitter.old.left.now ≤ limit }
    ensures { let from = splitter.old in let to = splitter.new in
        Followed
        (P.standing phase.old) from.count from.left.now page.old
        (P.standing phase.new) to.count to.left.now page.new result }
{
    let mut tally = Tally::default();
    // No `for`: after a loop over `splitter.by_ref()` nothing is known of the records that are left.
    while let Some(record) = splitter.next() {
        // A match and no closure: by what becomes of a record the loop counts, and ends.
        match phase.follow(&record) {
            Ok(Step::Goes) => {}
            Ok(Step::Checks) => tally.checks += 1,
            Ok(Step::Closes) => return tally,
            Err(fault) => {
                tell(page, record.number() as u32, fault);
                tally.refused += 1;
            }
        }
    }
    tally
}
