// Text in: the records of a text, their fields, and the calls that they ask for.
// Each call is exact: what it answers is what the text says, by the definitions in specs/.
// No memory is asked for: records and fields are parts of the text that is lent.
#![tactic(auto)]

// The records of a text, and their fields.
pub mod record;
mod scan;
pub mod splitter;

// What is wrong with a record.
pub mod fault;

// What a record has to look like.
mod form;
mod letter;
mod number;
pub mod numbers;

// The calls that records ask for.
pub mod call;
mod reading;
