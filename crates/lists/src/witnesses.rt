// The table of witnesses: those that a check has formed stand at its front, each at its number.
ghost use Rattle.std.specs.Prelude.{◌≤◌, length};
ghost use Rattle.rows.specs.Forests.{most_witnesses};

mod counting;
mod forming;

/// The most witnesses of a check.
pub const MOST_WITNESSES: usize = 256;

/// The witnesses that have been formed, at the front of a table that is lent. W is the sort of witness, `Witness<B>`
/// for boxes B.
// No derived comparison: nothing compares two of them.
#[derive(Drop)]
pub struct Witnesses<'a, W> {
    table: &'a mut [W],
    // Beside the table, which is lent whole and holds witnesses alone.
    count: usize,
    ghost lent: { count ≤ length table.now },
    ghost few: { count ≤ most_witnesses },
}
