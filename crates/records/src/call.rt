// The calls that records ask for.
// They derive no comparison, which would look at each place of the numbers, and at those beyond the count too.
pub use crate::numbers::{MOST_NUMBERS, Numbers};

/// The calls on a draft.
#[derive(Clone, Copy)]
pub enum DraftCall {
    State,
    Edge {
        from: u32,
        to: u32,
    },
    Label {
        state: u32,
        predicate: u32,
        values: Numbers,
    },
    Close,
}

/// The calls on a closed case.
#[derive(Clone, Copy)]
pub enum SheetCall {
    Line { operator: u8, numbers: Numbers },
    Check { line: u32 },
}
