// The engine of a check: the operators over lists in lent tables, and what a check does before and after them.
// Each function gives exactly what a definition says, for every kind of value. Of the operators `P` and `N` are here;
// the others, and the check that calls them, are not here yet.
#![tactic(auto)]

// Before: which lines are worked, and whether the kind takes every number of the labels.
pub mod nameable;
pub mod reached;

// The operators, and what they take.
pub mod atom;
pub mod operators;

// After: lent tables made blank.
pub mod blanking;
