// Lists of rows and the table of witnesses, both in memory that the caller lends.
// One clause for each call says what it gives, what it leaves in every list, and when it refuses.
#![tactic(auto)]

// Which list.
pub mod slot;

// Which list is read, and which grows by it.
pub mod route;

// Lists of at most so many rows.
pub mod lists;

// Witnesses, numbered as they are first formed.
pub mod witnesses;
