// The numbers that a call holds.
use crate::letter::MOST_FIELDS;

// The first of the fields is the letter.
pub const MOST_NUMBERS: usize = MOST_FIELDS - 1;

/// The numbers of a call, in their order.
pub type Numbers = stores::numbers::Numbers<MOST_NUMBERS>;
