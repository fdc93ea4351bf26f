// The case: a flow graph, drawn call by call and then closed, and a sheet of formula lines on top of it.
// Each call gives exactly the reply that the definitions of specs/ determine from the calls before it and its own
// arguments: the earliest refusal that applies, or the answer; a refused call leaves the case as it was.
// All memory is got by `Room::new`; no other call can want any.
#![tactic(auto)]

// How much a case may hold, and why a call is refused.
pub mod limits;
pub mod refusal;

// What a graph is made of.
pub mod arguments;
pub mod edge;
pub mod label;

// What a sheet is made of.
pub mod line;
pub mod operator;

// The case itself: its memory, the draft, and the closed case.
pub mod room;

// It is drawn,
pub mod draft;

// and then closed.
pub mod case;
