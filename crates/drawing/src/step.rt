// What becomes of a record that is not refused.

#[derive(Clone, Copy, PartialEq, Eq, Debug)]
pub(crate) enum Step {
    // It draws or enters something.
    Goes,
    // It asks for a check.
    Checks,
    // It closes the draft.
    Closes,
}
