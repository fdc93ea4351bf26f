// How much a case may hold.

/// The most states.
pub const MOST_STATES: u32 = 256;

/// The most edges that are drawn.
pub const MOST_EDGES: usize = 512;

/// The most edges of a closed case: closing may add one for each state.
pub const MOST_CLOSED_EDGES: usize = MOST_EDGES + MOST_STATES as usize;

/// The most labels.
pub const MOST_LABELS: usize = 512;

/// The most formula lines.
pub const MOST_LINES: usize = 32;

/// Predicates are numbered below this.
pub const PREDICATES: u32 = 256;

/// The most values of a label, and the most variables of a predicate in a line.
pub const MOST_ARGUMENTS: usize = 3;

/// Variables are numbered below this.
pub const VARIABLES: u32 = 4;
