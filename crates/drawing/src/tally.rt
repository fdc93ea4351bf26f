// What is counted over the records of a phase.

#[derive(Clone, Copy, PartialEq, Eq, Debug, Default)]
pub(crate) struct Tally {
    pub refused: u32,
    pub checks: u32,
}
