// Rows, witnesses and forests as values: what a check works out is made of these.
// Each call gives exactly what a definition of specs/ says, for every kind of value.
#![tactic(auto)]

// Sets of witness numbers.
pub mod forest;

// Which variable.
pub mod variable;

// Where a line holds, and what bears witness to it.
pub mod row;
pub mod witness;

// What a row does not cover, walked row by row.
pub mod denial;
