// Kinds of value: what a box of values is, and the calls that the matcher makes on boxes.
// Each kind answers its calls exactly as its model says, and the model keeps the laws of a kind.
// What follows from the laws is proved once, for every kind.
#![tactic(auto)]

// What every kind answers.
pub mod kind;

// The two kinds.
pub mod amounts;
pub mod fragments;

// The kinds that print.
pub mod printing;
