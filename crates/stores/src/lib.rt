// Where things are held: in memory that is got once, with room for the most there may be, or in place.
// No call but `Store::new` can want memory, and each call gives exactly the list that its contract names.
#![tactic(auto)]

// Things in memory that is got once.
pub mod store;

// Numbers in place.
pub mod numbers;
