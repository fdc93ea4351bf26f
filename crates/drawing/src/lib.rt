// A record file becomes a drawn and closed case: each record that is refused is told, then the case is shown, and last
// what was done. The bytes that are printed are a function of the bytes that are read, given in specs/Output.
#![tactic(auto)]

// Why a record is refused, and how that is told.
pub mod fault;
mod telling;

// What a record does in each phase of a case.
mod phase;
mod step;

// The records of a phase, one after the other.
mod following;
mod tally;

// A case as records.
mod showing;

// The whole.
pub mod drawing;
